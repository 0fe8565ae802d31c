//! Ways of messages through gates.

ghost use Rattle.std.specs.Prelude.{◌≡◌, ◌<◌, IfOk, IfSome, length};
ghost use Rattle.std.specs.Option.{option_copied};
ghost use Rattle.run_semantics.specs.Routes.{is_output, is_out_gate, is_input, is_in_gate};
ghost use Rattle.run_semantics.specs.Routes.{is_simple, is_gate, place_of, busy_at, change_of};
ghost use Rattle.run_semantics.specs.Routes.{joins, leads_to, without_transmission};
ghost use Rattle.run_semantics.specs.Routes.{busy_of, channels_of, transmission_gate};

use channels::is_transmission;
use model_questions::answer::{Answer, Channel};
use model_questions::record::{Record, record_at};
use module_api::call::Direction;
use sim_time::SimTime;
use sim_values::text::Text;
use sqlite_items::Items;
use std::alloc::{AllocError, Global};

/// A gate of a module that was created.
#[derive(Drop)]
pub struct PlacedGate {
    pub id: u32,
    /// The gate's name; that of a half has its mark, as `port$o`.
    pub name: Text,
    /// Its place in its vector, 0 of a scalar gate.
    pub index: u32,
}

/// A hop that a message takes: the gate that it leaves, and the channel on the way to the next one.
#[derive(Drop)]
pub struct PassedHop {
    pub from: PlacedGate,
    pub channel: Channel,
}

/// Where a hop leads, and the channel on the way.
#[derive(Drop)]
pub struct NextHop {
    pub to: PlacedGate,
    pub channel: Channel,
}

/// An output gate that was joined to another, or freed.
#[derive(Drop)]
pub struct GateChange {
    pub gate: PlacedGate,
    /// Where it leads, none where it was freed.
    pub to: Option<NextHop>,
}

/// The last transmission that began at a gate.
#[derive(Drop)]
pub struct Transmission {
    pub gate: PlacedGate,
    /// When it ends.
    pub end: SimTime,
}

impl PlacedGate {
    /// An equal one.
    pub fn copy(&self, alloc: Global) -> Result<PlacedGate, AllocError>
        ensures { IfOk result (λ copy. copy ≡ self.now) }
    {
        Ok(PlacedGate {
            id: self.id,
            name: self.name.copy(alloc)?,
            index: self.index,
        })
    }
}

impl NextHop {
    /// An equal one.
    pub fn copy(&self, alloc: Global) -> Result<NextHop, AllocError>
        ensures { IfOk result (λ copy. copy ≡ self.now) }
    {
        Ok(NextHop {
            to: self.to.copy(alloc)?,
            channel: self.channel,
        })
    }
}

impl Transmission {
    /// An equal one.
    pub fn copy(&self, alloc: Global) -> Result<Transmission, AllocError>
        ensures { IfOk result (λ copy. copy ≡ self.now) }
    {
        Ok(Transmission {
            gate: self.gate.copy(alloc)?,
            end: self.end,
        })
    }
}

/// Equal transmissions, in their order.
pub fn copy_transmissions(
    alloc: Global,
    transmissions: &[Transmission],
) -> Result<Items<Transmission>, AllocError>
    ensures { IfOk result (λ copies. copies ≡ transmissions.now) }
{
    let mut copies = Items::new(alloc);
    for transmission in transmissions {
        copies.push(transmission.copy(alloc)?)?;
    }
    Ok(copies)
}

/// Whether messages go out through a gate of that direction.
fn is_output(direction: Direction) -> bool
    ensures { result ≡ is_output direction }
{
    match direction {
        Direction::Output => true,
        Direction::Input | Direction::Inout => false,
    }
}

/// Whether the answer is of a gate, or a half of one, through which messages go out, and which has
/// that index.
pub fn is_out_gate(answer: &Answer, index: u32) -> bool
    ensures { result ≡ is_out_gate answer.now index }
{
    match answer {
        Answer::Gate(gate) => is_output(gate.direction) && index < gate.size,
        _ => false,
    }
}

/// Whether messages come in through a gate of that direction.
fn is_input(direction: Direction) -> bool
    ensures { result ≡ is_input direction }
{
    match direction {
        Direction::Input => true,
        Direction::Output | Direction::Inout => false,
    }
}

/// Whether the answer is of a gate, or a half of one, through which messages come in, and which has
/// that index.
pub fn is_in_gate(answer: &Answer, index: u32) -> bool
    ensures { result ≡ is_in_gate answer.now index }
{
    match answer {
        Answer::Gate(gate) => is_input(gate.direction) && index < gate.size,
        _ => false,
    }
}

/// Whether the module of that id is a simple one.
pub fn is_simple(records: &[Record], id: u32) -> bool
    ensures { result ≡ is_simple records.now id }
{
    match record_at(records, id) {
        Some(record) => record.class.is_some(),
        None => false,
    }
}

/// Whether both are the same gate.
fn is_gate(a: &PlacedGate, b: &PlacedGate) -> bool
    ensures { result ≡ is_gate a.now b.now }
{
    a.id == b.id && (a.index == b.index && a.name.is(b.name.as_bytes()))
}

/// Which of these transmissions began at a gate.
pub fn place_of(gate: &PlacedGate, transmissions: &[Transmission]) -> Option<usize>
    ensures place { result ≡ place_of gate.now transmissions.now }
    ensures within { IfSome result (λ place. place < length transmissions.now) }
{
    for (position, transmission) in transmissions.iter().enumerate() {
        if is_gate(&transmission.gate, gate) {
            return Some(position);
        }
    }
    None
}

/// When the last transmission that began at a gate ends, where there was one.
fn busy_at(gate: &PlacedGate, transmissions: &[Transmission]) -> Option<SimTime>
    ensures { result ≡ busy_at gate.now transmissions.now }
{
    for transmission in transmissions {
        if is_gate(&transmission.gate, gate) {
            return Some(transmission.end);
        }
    }
    None
}

/// The same, of a gate if there is one.
pub fn busy_of(gate: &Option<PlacedGate>, transmissions: &[Transmission]) -> Option<SimTime>
    ensures { result ≡ busy_of gate.now transmissions.now }
{
    match gate {
        Some(gate) => busy_at(gate, transmissions),
        None => None,
    }
}

/// Forgets the transmission that began at a gate, where there was one.
pub fn forget_transmission(transmissions: &mut Items<Transmission>, gate: &PlacedGate)
    ensures { transmissions.new ≡ without_transmission gate.now transmissions.old }
{
    while let Some(place) = place_of(gate, transmissions.as_slice()) {
        transmissions.remove(place);
    }
}

/// The last change of a gate.
pub fn change_of<'a>(gate: &PlacedGate, changes: &'a [GateChange]) -> Option<&'a GateChange>
    ensures { option_copied result ≡ change_of gate.now changes.now }
{
    let mut last = None;
    for change in changes {
        if is_gate(&change.gate, gate) {
            last = Some(change);
        }
    }
    last
}

/// Whether a hop leads to that gate.
pub fn leads_to(gate: &PlacedGate, hop: &Option<NextHop>) -> bool
    ensures { result ≡ leads_to gate.now hop.now }
{
    match hop {
        Some(hop) => is_gate(&hop.to, gate),
        None => false,
    }
}

/// Whether a gate was joined to that one, by its last change among these.
pub fn joins(gate: &PlacedGate, from: &PlacedGate, changes: &[GateChange]) -> bool
    ensures { result ≡ joins gate.now (change_of from.now changes.now) }
{
    match change_of(from, changes) {
        Some(change) => leads_to(gate, &change.to),
        None => false,
    }
}

/// The channels on the way.
pub fn channels_of(alloc: Global, hops: &[PassedHop]) -> Result<Items<Channel>, AllocError>
    ensures { IfOk result (λ channels. channels ≡ channels_of hops.now) }
{
    let mut channels = Items::new(alloc);
    for hop in hops {
        channels.push(hop.channel)?;
    }
    Ok(channels)
}

/// The gate where the transmission of a message begins, where there is one.
pub fn transmission_gate(
    alloc: Global,
    hops: &[PassedHop],
) -> Result<Option<PlacedGate>, AllocError>
    ensures { IfOk result (λ gate. gate ≡ transmission_gate hops.now) }
{
    for hop in hops {
        if is_transmission(&hop.channel) {
            return Ok(Some(hop.from.copy(alloc)?));
        }
    }
    Ok(None)
}
