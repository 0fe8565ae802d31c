//! Where the gates of an inside lead, and what leads to them.

ghost use Rattle.std.specs.Prelude.{◌≡◌, ◌++◌, IfOk, option_map, slice_get};
ghost use Rattle.std.specs.Option.{option_and_then, option_copied};
ghost use Rattle.std.specs.Str.{bytes_eq};
ghost use Rattle.model_inside.specs.Hops as hops;

use crate::built::name_of_part;
use crate::sized::vector_of;
use inside_parts::gates::{TypeGate, TypeGates};
use inside_parts::parts::{Part, Parts};
use inside_wiring::wiring::{Carrier, ChannelKind as CarrierKind, GateId, Link, Wiring};
use model_questions::answer::{Channel, ChannelKind, Neighbour, NextGate};
use ned_trees::connections::Half;
use ned_trees::declarations::{GateDirection, Submodule};
use sim_time::SimTime;
use sim_values::NoMemory;
use sim_values::text::Text;
use std::alloc::Global;

/// Which way a hop is looked for.
#[derive(Clone, Copy, PartialEq, Eq)]
pub enum Way {
    /// The way that messages take.
    Onwards,
    /// Where they come from.
    Back,
}

/// From where an inside is seen.
#[derive(Clone, Copy)]
pub enum Seen {
    /// By its part of that number.
    FromOutside(usize),
    /// By the compound module whose inside it is.
    FromInside,
}

// ---- halves of gates

/// Whether a name is that of a gate with a mark after it.
pub fn is_marked(name: &[u8], gate: &[u8], mark: &[u8]) -> bool
    ensures { result ≡ bytes_eq (gate.now ++ mark.now) name.now }
{
    match name.strip_prefix(gate) {
        Some(rest) => rest == mark,
        None => false,
    }
}

/// The half that a name means of a gate that goes both ways.
fn half_of_both(name: &[u8], gate: &[u8]) -> Option<Half>
    ensures { result ≡ hops.half_by name.now gate.now GateDirection.Inout }
{
    if is_marked(name, gate, b"$i") {
        Some(Half::Input)
    } else if is_marked(name, gate, b"$o") {
        Some(Half::Output)
    } else {
        None
    }
}

/// A half of a gate of one direction, where the name is the gate's.
fn half_if(is_it: bool, half: Half) -> Option<Half>
    ensures { result ≡ hops.half_if is_it half }
{
    if is_it { Some(half) } else { None }
}

/// The half that a name means of a gate.
fn half_of(name: &[u8], gate: &TypeGate) -> Option<Half>
    ensures { result ≡ hops.half_of name.now gate.now }
{
    match gate.kind.direction {
        GateDirection::Input => half_if(gate.name.is(name), Half::Input),
        GateDirection::Output => half_if(gate.name.is(name), Half::Output),
        GateDirection::Inout => half_of_both(name, gate.name.as_bytes()),
    }
}

/// The half of a gate that a name means among these gates: the name of the gate itself, and which
/// half.
pub fn half_named<'g>(name: &[u8], gates: &'g [TypeGate]) -> Option<(&'g Text, Half)>
    ensures { option_map (λ h. (h.0.now, h.1)) result ≡ hops.half_named name.now gates.now }
{
    for gate in gates {
        if let Some(half) = half_of(name, gate) {
            return Some((&gate.name, half));
        }
    }
    None
}

/// The name of a half of a gate.
fn name_of_half(alloc: Global, gate: &TypeGate, half: Half) -> Result<Text, NoMemory>
    ensures { IfOk result
        (λ name. name ≡ hops.name_of_half gate.now.name gate.now.kind.direction half) }
{
    let mut name = Vec::from_slice(alloc, gate.name.as_bytes())?;
    if gate.kind.direction == GateDirection::Inout {
        name.extend_from_slice(mark_of(half))?;
    }
    Ok(Text::from_vec(name))
}

/// The mark after the name of a gate that goes both ways, for one of its halves.
fn mark_of(half: Half) -> &'static [u8]
    ensures { result.now ≡ hops.mark_of half }
{
    match half {
        Half::Input => b"$i",
        Half::Output => b"$o",
    }
}

// ---- links

/// The link at a gate of a vector: the one that leads away from it, or the one that leads to it.
fn link_at(way: Way, wiring: &Wiring, vector: usize, index: u32) -> Option<Link>
    ensures { result ≡ hops.link_at way wiring.now vector index }
{
    match way {
        Way::Onwards => wiring.link_from(vector, index),
        Way::Back => wiring.link_to(vector, index),
    }
}

/// The other end of a link.
fn other_end(way: Way, link: Link) -> GateId
    ensures { result ≡ hops.other_end way link }
{
    match way {
        Way::Onwards => link.to,
        Way::Back => link.from,
    }
}

/// By which half messages go through the other end.
fn half_there(way: Way, is_own: bool) -> Half
    ensures { result ≡ hops.half_there way is_own }
{
    match (way, is_own) {
        (Way::Onwards, true) | (Way::Back, false) => Half::Output,
        (Way::Onwards, false) | (Way::Back, true) => Half::Input,
    }
}

fn kind_of(kind: CarrierKind) -> ChannelKind
    ensures { result ≡ hops.kind_of kind }
{
    match kind {
        CarrierKind::Ideal => ChannelKind::Ideal,
        CarrierKind::Delay => ChannelKind::Delay,
        CarrierKind::Datarate => ChannelKind::Datarate,
    }
}

/// A delay of so many picoseconds, but none longer than the greatest time.
fn delay_of(ps: u64) -> SimTime
    ensures { result ≡ hops.delay_of ps }
{
    SimTime::from_ps(ps.min(9_223_372_036_854_775_807)).unwrap_or(SimTime::zero())
}

/// The channel of a link.
fn channel_of(carrier: Carrier) -> Channel
    ensures { result ≡ hops.channel_of carrier }
{
    Channel {
        kind: kind_of(carrier.kind),
        delay: delay_of(carrier.delay),
        datarate: carrier.datarate,
        disabled: carrier.disabled,
    }
}

// ---- the other end, as it is told

/// A part as a neighbour of the part of that number.
fn outside_neighbour(
    alloc: Global,
    lines: &[Submodule],
    own: usize,
    number: usize,
    part: Part,
) -> Result<Neighbour, NoMemory>
    ensures { IfOk result (λ to. to ≡ hops.outside_neighbour lines.now own number part) }
{
    if part.is_own {
        return Ok(Neighbour::Around);
    }
    if number == own {
        return Ok(Neighbour::Itself);
    }
    let name = Text::from_bytes(alloc, name_of_part(lines, part))?;
    Ok(Neighbour::Beside(name, part.index))
}

/// A part as a neighbour of the compound module whose inside it is in.
fn inside_neighbour(alloc: Global, lines: &[Submodule], part: Part) -> Result<Neighbour, NoMemory>
    ensures { IfOk result (λ to. to ≡ hops.inside_neighbour lines.now part) }
{
    if part.is_own {
        return Ok(Neighbour::Itself);
    }
    let name = Text::from_bytes(alloc, name_of_part(lines, part))?;
    Ok(Neighbour::Inside(name, part.index))
}

/// A part as a neighbour.
fn neighbour_of(
    alloc: Global,
    lines: &[Submodule],
    seen: Seen,
    number: usize,
    part: Part,
) -> Result<Neighbour, NoMemory>
    ensures { IfOk result (λ to. to ≡ hops.neighbour_of lines.now seen number part) }
{
    match seen {
        Seen::FromOutside(own) => outside_neighbour(alloc, lines, own, number, part),
        Seen::FromInside => inside_neighbour(alloc, lines, part),
    }
}

/// The part through whose gates is looked: that one, or the compound module itself, which is the
/// first.
fn own_part(seen: Seen) -> usize
    ensures { result ≡ hops.own_part seen }
{
    match seen {
        Seen::FromOutside(own) => own,
        Seen::FromInside => 0,
    }
}

/// A gate vector of a part, by its number among all: the gate of its type.
fn gate_in(gates: &[TypeGates], part: Part, vector: usize) -> Option<&TypeGate>
    ensures { option_copied result ≡ hops.gate_in part (slice_get gates.now part.of_type) vector }
{
    let found = gates.get(part.of_type)?;
    if vector < part.first {
        return None;
    }
    found.gates.get(vector - part.first)
}

/// The other end of a link, at that gate of that part.
fn told_end(
    alloc: Global,
    lines: &[Submodule],
    seen: Seen,
    way: Way,
    link: Link,
    part: Part,
    gate: &TypeGate,
) -> Result<NextGate, NoMemory>
    ensures { IfOk result (λ next. next ≡ hops.told_end lines.now seen way link part gate.now) }
{
    let end = other_end(way, link);
    let neighbour = neighbour_of(alloc, lines, seen, end.part, part)?;
    let gate = name_of_half(alloc, gate, half_there(way, part.is_own))?;
    Ok(NextGate {
        neighbour,
        gate,
        index: end.index,
        channel: channel_of(link.carrier),
    })
}

/// The other end of a link in an inside of a type that declares these submodules, where the types
/// have these gates.
fn end_of(
    alloc: Global,
    gates: &[TypeGates],
    lines: &[Submodule],
    parts: &Parts,
    seen: Seen,
    way: Way,
    link: Link,
) -> Result<Option<NextGate>, NoMemory>
    ensures { IfOk result (λ next. next ≡ hops.end_of gates.now lines.now parts.now seen way link) }
{
    let end = other_end(way, link);
    let Some(part) = parts.parts.get(end.part) else {
        return Ok(None);
    };
    let Some(gate) = gate_in(gates, *part, end.vector) else {
        return Ok(None);
    };
    Ok(Some(told_end(alloc, lines, seen, way, link, *part, gate)?))
}

/// The next gate from a gate of that name and index, by the links of an inside.
pub fn next_in(
    alloc: Global,
    gates: &[TypeGates],
    lines: &[Submodule],
    parts: &Parts,
    wiring: &Wiring,
    seen: Seen,
    way: Way,
    gate: &Text,
    index: u32,
) -> Result<Option<NextGate>, NoMemory>
    ensures { IfOk result (λ next. next
        ≡ hops.next_in gates.now lines.now parts.now wiring.now seen way gate.now index) }
{
    let Some(found) = vector_of(gates, parts, wiring, own_part(seen), gate)? else {
        return Ok(None);
    };
    match link_at(way, wiring, found.vector, index) {
        Some(link) => end_of(alloc, gates, lines, parts, seen, way, link),
        None => Ok(None),
    }
}

/// Whether a half leads outwards, on that way.
pub fn is_outwards(way: Way, half: Half) -> bool
    ensures { result ≡ hops.is_outwards way half }
{
    match (way, half) {
        (Way::Onwards, Half::Output) | (Way::Back, Half::Input) => true,
        (Way::Onwards, Half::Input) | (Way::Back, Half::Output) => false,
    }
}
