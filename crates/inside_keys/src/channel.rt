//! Channels of connections: their paths, their lines, and what they do.
//! See OMNeT++ Simulation Manual, "Channels".

ghost use Rattle.std.specs.Prelude.{◌≡◌, ◌++◌, IfOk, OnOk, length, slice_get};
ghost use Rattle.std.specs.Option.{option_copied};
ghost use Rattle.inside_keys.specs.Channels as channels;
ghost use Rattle.inside_keys.specs.Kinds as kinds;
ghost use Rattle.ned_types.specs.Types.{is_built_in};

use crate::check::Check;
use crate::key::{Module, push_name};
use inside_parts::gates::{TypeGate, TypeGates};
use inside_parts::names::Names;
use inside_parts::parts::{Part, Parts};
use inside_wiring::wiring::{Carrier, ChannelKind, GateId};
use itoa::Buffer;
use ned_channels::built_in::BuiltInChannels;
use ned_channels::channel::{channel_name, lines_of_channel};
use ned_trees::connections::Channel;
use ned_trees::declarations::{
    Declaration, GateDirection, ParameterWord, SectionLine, TypeDeclaration,
};
use param_values::kind::Kind;
use sim_values::NoMemory;
use sim_values::text::{Text, spells};
use sim_values::value::Value;
use std::alloc::{AllocError, Global};

// ---- paths

/// The mark after the name of the half of a gate that messages leave by.
fn leaving_mark(is_own: bool, direction: GateDirection) -> &'static [u8]
    ensures { result.now ≡ channels.leaving_mark is_own direction }
{
    match direction {
        GateDirection::Input | GateDirection::Output => b"",
        GateDirection::Inout => { if is_own { b"$i" } else { b"$o" } }
    }
}

/// Adds an index in brackets, where the gate is a vector.
fn push_index(path: &mut Vec<u8>, is_vector: bool, index: u32) -> Result<(), AllocError>
    ensures { OnOk result (path.new.items ≡ path.old.items ++ channels.index_mark is_vector index) }
{
    if !is_vector {
        return Ok(());
    }
    path.extend_from_slice(b"[")?;
    let mut buffer = Buffer::new();
    path.extend_from_slice(buffer.format(index).as_bytes())?;
    path.extend_from_slice(b"]")
}

/// Adds the name of a gate that messages leave by.
fn push_gate(
    path: &mut Vec<u8>,
    is_own: bool,
    index: u32,
    gate: Option<&TypeGate>,
) -> Result<(), AllocError>
    ensures { OnOk result (path.new.items
        ≡ path.old.items ++ channels.leaving_name is_own index (option_copied gate.entry)) }
{
    let Some(gate) = gate else {
        return Ok(());
    };
    path.extend_from_slice(gate.name.as_bytes())?;
    path.extend_from_slice(leaving_mark(is_own, gate.kind.direction))?;
    push_index(path, gate.kind.is_vector, index)
}

/// The gate of that number of a type.
fn gate_in(number: usize, gates: Option<&TypeGates>) -> Option<&TypeGate>
    ensures { option_copied result ≡ channels.gate_in number (option_copied gates.entry) }
{
    let gates = gates?;
    gates.gates.get(number)
}

/// Adds the name of a submodule, and a dot.
fn push_owner(path: &mut Vec<u8>, name: Option<&Text>, index: Option<u32>) -> Result<(), AllocError>
    ensures { OnOk result (path.new.items
        ≡ path.old.items ++ channels.owner_name (option_copied name.entry) index) }
{
    let Some(name) = name else {
        return Ok(());
    };
    push_name(path, name.as_bytes(), index)?;
    path.extend_from_slice(b".")
}

/// Adds the name of the submodule of a part, nothing of the module itself.
fn push_part(path: &mut Vec<u8>, names: &Names, part: Part) -> Result<(), AllocError>
    ensures { OnOk result (path.new.items ≡ path.old.items ++ channels.owner_of names.now part) }
{
    if part.is_own {
        return Ok(());
    }
    push_owner(path, names.get(part.line), part.index)
}

/// The gates of that type.
fn gates_at(gates: &[TypeGates], number: usize) -> Option<&TypeGates>
    ensures { option_copied result ≡ slice_get gates.now number }
{
    gates.get(number)
}

/// Adds the name of a gate of a part.
fn push_gate_of(
    path: &mut Vec<u8>,
    gates: &[TypeGates],
    id: GateId,
    part: Part,
) -> Result<(), AllocError>
    ensures { OnOk result (path.new.items
        ≡ path.old.items ++ channels.leaving_gate gates.now id part) }
{
    let number = id.vector.saturating_sub(part.first);
    let gate = gate_in(number, gates_at(gates, part.of_type));
    push_gate(path, part.is_own, id.index, gate)
}

/// Adds the path of a gate, from the module on.
fn push_leaving(
    path: &mut Vec<u8>,
    names: &Names,
    gates: &[TypeGates],
    id: GateId,
    part: Option<Part>,
) -> Result<(), AllocError>
    ensures { OnOk result (path.new.items
        ≡ path.old.items ++ channels.leaving_path names.now gates.now id part) }
{
    let Some(part) = part else {
        return Ok(());
    };
    push_part(path, names, part)?;
    push_gate_of(path, gates, id, part)
}

/// The path of the channel of a connection from that gate, in a module whose submodules have these
/// names, where the types have these gates.
pub fn channel_path(
    alloc: Global,
    site: &Module,
    names: &Names,
    gates: &[TypeGates],
    parts: &Parts,
    id: GateId,
) -> Result<Text, NoMemory>
    ensures { IfOk result
        (λ path. path ≡ channels.channel_path site.now names.now gates.now parts.now id) }
{
    let mut path = Vec::from_slice(alloc, site.path.as_bytes())?;
    path.push(b'.')?;
    push_leaving(
        &mut path,
        names,
        gates,
        id,
        parts.parts.get(id.part).copied(),
    )?;
    path.extend_from_slice(b".channel")?;
    Ok(Text::from_vec(path))
}

// ---- lines

/// The type of that name, where types have these names.
fn type_at<'m>(
    names: &Names,
    types: &'m [TypeDeclaration],
    name: &Text,
) -> Option<&'m TypeDeclaration>
    ensures { option_copied result ≡ channels.type_at names.now types.now name.now }
{
    let place = names.position(name)?;
    types.get(place)
}

/// The lines of the type of a connection's channel, where types have these names.
pub fn lines_of<'m>(
    alloc: Global,
    built_in: &'m BuiltInChannels,
    names: &Names,
    types: &'m [TypeDeclaration],
    channel: &Channel,
) -> Result<Option<&'m [SectionLine]>, NoMemory>
    ensures { IfOk result
        (λ lines. option_copied lines ≡ channels.lines_of names.now types.now channel.now) }
{
    let name = channel_name(channel);
    if is_built_in(name) {
        return Ok(Some(built_in.lines(name)));
    }
    let name = Text::from_bytes(alloc, name)?;
    Ok(lines_of_channel(type_at(names, types, &name)))
}

/// Whether a built-in channel has that name.
pub fn is_built_in(name: &[u8]) -> bool
    ensures { result ≡ is_built_in name.now }
{
    spells(name, b"IdealChannel")
        || spells(name, b"DelayChannel")
        || spells(name, b"DatarateChannel")
}

// ---- kinds

/// Of what kind the values of a parameter are that is declared so.
pub fn kind_of(declaration: &Declaration) -> Kind
    ensures { result ≡ kinds.kind_of declaration.now }
{
    match declaration.word {
        ParameterWord::Bool => Kind::Truth,
        ParameterWord::Text => Kind::Text,
        ParameterWord::Int => Kind::Int(declaration.unit),
        ParameterWord::Double => Kind::Double(declaration.unit),
    }
}

// ---- kinds of channels

/// Of which of the three kinds the built-in channel of that name is; ideal where there is none.
fn built_in_kind(name: &[u8]) -> ChannelKind
    ensures { result ≡ channels.built_in_kind name.now }
{
    if spells(name, b"DelayChannel") {
        return ChannelKind::Delay;
    }
    if spells(name, b"DatarateChannel") {
        return ChannelKind::Datarate;
    }
    ChannelKind::Ideal
}

/// What a type extends.
fn base_in(declared: Option<&TypeDeclaration>) -> Option<&Text>
    ensures { option_copied result ≡ channels.base_in (option_copied declared.entry) }
{
    match declared {
        Some(declared) => declared.base.as_ref(),
        None => None,
    }
}

/// The kind of the built-in channel at the root of a type, where types have these names.
fn root_kind(
    names: &Names,
    types: &[TypeDeclaration],
    declared: Option<&TypeDeclaration>,
) -> ChannelKind
    ensures { result ≡ channels.kind_along names.now types.now (length types.now)
        (channels.base_in (option_copied declared.entry)) }
{
    let mut next = base_in(declared);
    let mut left = types.len();
    while let Some(name) = next {
        if left == 0 {
            return built_in_kind(name.as_bytes());
        }
        if is_built_in(name.as_bytes()) {
            return built_in_kind(name.as_bytes());
        }
        next = base_in(type_at(names, types, name));
        left -= 1;
    }
    ChannelKind::Ideal
}

/// Of which of the three kinds a connection's channel is, where types have these names.
pub fn channel_kind(
    alloc: Global,
    names: &Names,
    types: &[TypeDeclaration],
    channel: &Channel,
) -> Result<ChannelKind, NoMemory>
    ensures { IfOk result (λ kind. kind ≡ channels.channel_kind names.now types.now channel.now) }
{
    let name = channel_name(channel);
    if is_built_in(name) {
        return Ok(built_in_kind(name));
    }
    let name = Text::from_bytes(alloc, name)?;
    Ok(root_kind(names, types, type_at(names, types, &name)))
}

// ---- what a channel does

/// It does nothing.
pub fn ideal() -> Carrier
    ensures { result ≡ channels.ideal }
{
    carrier_begun(ChannelKind::Ideal)
}

/// A channel of that kind, before its parameters have values.
pub fn carrier_begun(kind: ChannelKind) -> Carrier
    ensures { result ≡ channels.carrier_begun kind }
{
    Carrier {
        kind,
        delay: 0,
        datarate: 0,
        disabled: false,
    }
}

/// The amount of a quantity, or else the other.
fn amount_or(other: u64, value: &Value) -> u64
    ensures { result ≡ channels.amount_or other value.now }
{
    match value {
        Value::Quantity(_, amount) => { if *amount < 0 { other } else { *amount as u64 } }
        _ => other,
    }
}

/// The truth value, or else the other.
fn truth_or(other: bool, value: &Value) -> bool
    ensures { result ≡ channels.truth_or other value.now }
{
    match value {
        Value::Truth(holds) => *holds,
        _ => other,
    }
}

/// With the value of a parameter of a channel that delays.
fn with_delays(name: &[u8], value: &Value, carrier: Carrier) -> Carrier
    ensures { result ≡ channels.with_delays name.now value.now carrier }
{
    let Carrier {
        kind,
        delay,
        datarate,
        disabled,
    } = carrier;
    if spells(name, b"delay") {
        let delay = amount_or(delay, value);
        return Carrier {
            kind,
            delay,
            datarate,
            disabled,
        };
    }
    if spells(name, b"disabled") {
        let disabled = truth_or(disabled, value);
        return Carrier {
            kind,
            delay,
            datarate,
            disabled,
        };
    }
    carrier
}

/// With the value of a parameter of a channel that has a rate.
fn with_rates(name: &[u8], value: &Value, carrier: Carrier) -> Carrier
    ensures { result ≡ channels.with_rates name.now value.now carrier }
{
    if spells(name, b"datarate") {
        let Carrier {
            kind,
            delay,
            datarate,
            disabled,
        } = carrier;
        let datarate = amount_or(datarate, value);
        return Carrier {
            kind,
            delay,
            datarate,
            disabled,
        };
    }
    with_delays(name, value, carrier)
}

/// With the value of the parameter of that name of a channel of that kind.
pub fn with_value(name: &[u8], value: &Value, carrier: Carrier, kind: ChannelKind) -> Carrier
    ensures { result ≡ channels.with_value name.now value.now carrier kind }
{
    match kind {
        ChannelKind::Ideal => carrier,
        ChannelKind::Delay => with_delays(name, value, carrier),
        ChannelKind::Datarate => with_rates(name, value, carrier),
    }
}

// ---- what the values of its parameters have to be

fn delay_check(name: &[u8], kind: Kind) -> Check
    ensures { result ≡ channels.delay_check name.now kind }
{
    if spells(name, b"delay") {
        Check::Amount(kind)
    } else {
        Check::Parameter(kind)
    }
}

fn rate_check(name: &[u8], kind: Kind) -> Check
    ensures { result ≡ channels.rate_check name.now kind }
{
    if spells(name, b"datarate") {
        return Check::Amount(kind);
    }
    if spells(name, b"ber") {
        return Check::Zero;
    }
    if spells(name, b"per") {
        return Check::Zero;
    }
    delay_check(name, kind)
}

/// What the value of a parameter of a channel of that kind has to be.
pub fn channel_check(channel: ChannelKind, name: &[u8], kind: Kind) -> Check
    ensures { result ≡ channels.channel_check channel name.now kind }
{
    match channel {
        ChannelKind::Ideal => Check::Parameter(kind),
        ChannelKind::Delay => delay_check(name, kind),
        ChannelKind::Datarate => rate_check(name, kind),
    }
}
