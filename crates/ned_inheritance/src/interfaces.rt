//! What interfaces types may keep, and whether they do. Where a type declares a member is found by
//! hashing, so each line of an interface is compared with one of the type.

ghost use Rattle.std.specs.Prelude.{◌≡◌, [], true, not, None, IfOk};
ghost use Rattle.std.specs.Option.{option_copied};
ghost use Rattle.ned_inheritance.specs.Interfaces.{can_keep, is_interface_for, is_word};
ghost use Rattle.ned_inheritance.specs.Interfaces.{declares_as, has_parameter, lacks_parameter};
ghost use Rattle.ned_inheritance.specs.Interfaces.{is_direction, are_alike, declares_gate_as};
ghost use Rattle.ned_inheritance.specs.Interfaces.{has_gate, lacks_gate};
ghost use Rattle.ned_inheritance.specs.Places.{first_from, is_known, lacked_from, lacked_in};
ghost use Rattle.ned_inheritance.specs.Places.{lacked_of, lacked_of_any, place_from};
ghost use Rattle.ned_inheritance.specs.Repeated.{LacksNothingOf};
ghost use Rattle.ned_inheritance.specs.Seen.{names_in};
ghost use Rattle.ned_types.specs.Types.{is_vector, type_named};

use crate::faults::is_taken;
use crate::members::{MemberLines, member_lines};
use crate::named::NamedTypes;
use crate::places::{FaultPlace, Member, placed};
use crate::sections::see;
use indexmap::IndexSet;
use ned_trees::declarations::{
    Declaration, GateDeclaration, GateDirection, GateLine, GateSize, ParameterWord, SectionLine,
    TypeDeclaration, TypeKind,
};
use sim_values::text::Text;
use std::alloc::{AllocError, Global};

/// Whether it is the name of a type or of a built-in channel.
fn is_known(name: &Text, named: &NamedTypes<'_>) -> bool
    ensures { result ≡ is_known name.now named.now }
{
    is_taken(name.as_bytes(), named)
}

/// The first of the names that is neither that of a type nor that of a built-in channel.
pub(crate) fn first_unknown_interface(named: &NamedTypes<'_>, names: &[Text]) -> Option<usize>
    ensures { result ≡ first_from (λ n. not (is_known n named.now)) 0 names.now }
{
    for (at, text) in names.iter().enumerate() {
        if !is_known(text, named) {
            return Some(at);
        }
    }
    None
}

/// Whether what stands among the interfaces of a type of the first kind may be of the second.
fn can_keep(kind: TypeKind, of: TypeKind) -> bool
    ensures { result ≡ can_keep kind of }
{
    match kind {
        TypeKind::Simple | TypeKind::Module | TypeKind::Network | TypeKind::ModuleInterface => {
            matches!(of, TypeKind::ModuleInterface)
        }
        TypeKind::Channel | TypeKind::ChannelInterface => matches!(of, TypeKind::ChannelInterface),
    }
}

/// Whether it is an interface for types of that kind.
fn is_interface_for(kind: TypeKind, declared: Option<&TypeDeclaration>) -> bool
    ensures { result ≡ is_interface_for kind (option_copied declared.entry) }
{
    match declared {
        Some(declared) => can_keep(kind, declared.kind),
        None => false,
    }
}

/// The first of the names that is not that of an interface for types of that kind.
pub(crate) fn first_other_interface(
    named: &NamedTypes<'_>,
    kind: TypeKind,
    names: &[Text],
) -> Option<usize>
    ensures { result
        ≡ first_from (λ n. not (is_interface_for kind (type_named n named.now))) 0 names.now }
{
    for (at, name) in names.iter().enumerate() {
        if !is_interface_for(kind, named.find(name.as_bytes())) {
            return Some(at);
        }
    }
    None
}

/// Whether two words are one.
fn is_word(word: ParameterWord, other: ParameterWord) -> bool
    ensures { result ≡ is_word word other }
{
    match word {
        ParameterWord::Bool => matches!(other, ParameterWord::Bool),
        ParameterWord::Int => matches!(other, ParameterWord::Int),
        ParameterWord::Text => matches!(other, ParameterWord::Text),
        ParameterWord::Double => matches!(other, ParameterWord::Double),
    }
}

/// Whether the line declares a parameter of that name and word.
fn declares_as(declaration: &Declaration, line: &SectionLine) -> bool
    ensures { result ≡ declares_as declaration.now line.now }
{
    match line {
        SectionLine::Declaration(found) => {
            found.name.is(declaration.name.as_bytes()) && is_word(found.word, declaration.word)
        }
        _ => false,
    }
}

/// Whether the line of that number does, where there is one.
#[tactic(auto, using(crate::proofs::InterfaceLaws::parameter_at))]
fn is_parameter_at(lines: &[SectionLine], at: Option<usize>, declaration: &Declaration) -> bool
    ensures { result ≡ true → has_parameter lines.now declaration.now ≡ true }
{
    let Some(at) = at else {
        return false;
    };
    match lines.get(at) {
        Some(line) => declares_as(declaration, line),
        None => false,
    }
}

/// Whether one of the lines of a type declares a parameter of that name and word. Looked at is the
/// one that declares the name. All lines are gone through where that has another word, or there is
/// none: this is the end of the search, since a type that comes here declares a name once.
fn has_parameter(
    members: &MemberLines<'_>,
    lines: &[SectionLine],
    declaration: &Declaration,
) -> bool
    ensures { result ≡ has_parameter lines.now declaration.now }
{
    let at = members.parameter(declaration.name.as_bytes());
    if is_parameter_at(lines, at, declaration) {
        return true;
    }
    lines.iter().any(|line| declares_as(declaration, line))
}

/// Whether the line declares a parameter that these lines of a type lack.
fn lacks_parameter(members: &MemberLines<'_>, lines: &[SectionLine], line: &SectionLine) -> bool
    ensures { result ≡ lacks_parameter lines.now line.now }
{
    match line {
        SectionLine::Declaration(declaration) => !has_parameter(members, lines, declaration),
        _ => false,
    }
}

/// Whether two directions are one.
fn is_direction(direction: GateDirection, other: GateDirection) -> bool
    ensures { result ≡ is_direction direction other }
{
    match direction {
        GateDirection::Input => matches!(other, GateDirection::Input),
        GateDirection::Output => matches!(other, GateDirection::Output),
        GateDirection::Inout => matches!(other, GateDirection::Inout),
    }
}

/// Whether it is the size of a vector.
fn is_vector(size: &GateSize) -> bool
    ensures { result ≡ is_vector size.now }
{
    match size {
        GateSize::Single => false,
        GateSize::Open | GateSize::Sized(_) => true,
    }
}

/// Whether both are vectors, or none is.
fn are_alike(size: &GateSize, other: &GateSize) -> bool
    ensures { result ≡ are_alike size.now other.now }
{
    if is_vector(size) {
        is_vector(other)
    } else {
        !is_vector(other)
    }
}

/// Whether the line declares a gate of that name and direction, a vector where that is one.
fn declares_gate_as(gate: &GateDeclaration, line: &GateLine) -> bool
    ensures { result ≡ declares_gate_as gate.now line.now }
{
    match line {
        GateLine::Declaration(found) => {
            found.name.is(gate.name.as_bytes())
                && (is_direction(found.direction, gate.direction)
                    && are_alike(&found.size, &gate.size))
        }
        GateLine::Refinement(_) => false,
    }
}

/// Whether the line of that number does, where there is one.
#[tactic(auto, using(crate::proofs::InterfaceLaws::gate_at))]
fn is_gate_at(gates: &[GateLine], at: Option<usize>, gate: &GateDeclaration) -> bool
    ensures { result ≡ true → has_gate gates.now gate.now ≡ true }
{
    let Some(at) = at else {
        return false;
    };
    match gates.get(at) {
        Some(line) => declares_gate_as(gate, line),
        None => false,
    }
}

/// Whether one of the lines of a type declares a gate of that name and direction, a vector where
/// that is one. They are looked at as those of parameters are.
fn has_gate(members: &MemberLines<'_>, gates: &[GateLine], gate: &GateDeclaration) -> bool
    ensures { result ≡ has_gate gates.now gate.now }
{
    let at = members.gate(gate.name.as_bytes());
    if is_gate_at(gates, at, gate) {
        return true;
    }
    gates.iter().any(|line| declares_gate_as(gate, line))
}

/// Whether the line declares a gate that these lines of a type lack.
fn lacks_gate(members: &MemberLines<'_>, gates: &[GateLine], line: &GateLine) -> bool
    ensures { result ≡ lacks_gate gates.now line.now }
{
    match line {
        GateLine::Declaration(gate) => !has_gate(members, gates, gate),
        GateLine::Refinement(_) => false,
    }
}

/// The first of the lines that declares a parameter that the lines of a type lack.
fn first_lacked_parameter(
    members: &MemberLines<'_>,
    lines: &[SectionLine],
    wanted: &[SectionLine],
) -> Option<usize>
    ensures { result ≡ first_from (λ l. lacks_parameter lines.now l) 0 wanted.now }
{
    for (at, line) in wanted.iter().enumerate() {
        if lacks_parameter(members, lines, line) {
            return Some(at);
        }
    }
    None
}

/// The first of the lines that declares a gate that the lines of a type lack.
fn first_lacked_gate(
    members: &MemberLines<'_>,
    gates: &[GateLine],
    wanted: &[GateLine],
) -> Option<usize>
    ensures { result ≡ first_from (λ g. lacks_gate gates.now g) 0 wanted.now }
{
    for (at, line) in wanted.iter().enumerate() {
        if lacks_gate(members, gates, line) {
            return Some(at);
        }
    }
    None
}

/// The first member of an interface that a type lacks, where that is its interface of that number.
fn lacked_of(
    members: &MemberLines<'_>,
    declared: &TypeDeclaration,
    number: usize,
    interface: &TypeDeclaration,
) -> Option<Member>
    ensures { result ≡ lacked_of declared.now number interface.now }
{
    let lines = declared.lines.as_slice();
    if let Some(at) = first_lacked_parameter(members, lines, interface.lines.as_slice()) {
        return Some(Member::LacksParameter(number, at));
    }
    let gates = declared.gates.as_slice();
    match first_lacked_gate(members, gates, interface.gates.as_slice()) {
        Some(at) => Some(Member::LacksGate(number, at)),
        None => None,
    }
}

/// The first member of an interface that a type lacks, where there is such an interface.
fn lacked_of_any(
    members: &MemberLines<'_>,
    declared: &TypeDeclaration,
    number: usize,
    interface: Option<&TypeDeclaration>,
) -> Option<Member>
    ensures { result ≡ lacked_of_any declared.now number (option_copied interface.entry) }
{
    match interface {
        Some(interface) => lacked_of(members, declared, number, interface),
        None => None,
    }
}

/// The first member that a type lacks of the interface of that name, which is its interface of that
/// number. Of those whose names were seen it lacks nothing, so these are not looked at once more.
fn lacked_once<'a>(
    seen: &mut IndexSet<&'a [u8]>,
    members: &MemberLines<'_>,
    named: &NamedTypes<'_>,
    declared: &TypeDeclaration,
    number: usize,
    name: &'a [u8],
) -> Result<Option<Member>, AllocError>
    requires { LacksNothingOf named.now declared.now (names_in seen.old.keys) }
    ensures member { IfOk result
        (λ member. member ≡ lacked_of_any declared.now number (type_named name.now named.now)) }
    ensures kept { IfOk result
        (λ member. member ≡ None → LacksNothingOf named.now declared.now (names_in seen.new.keys)) }
{
    if !see(seen, name)? {
        return Ok(None);
    }
    Ok(lacked_of_any(members, declared, number, named.find(name)))
}

/// The first member that a type lacks of its interfaces, where its own are found by hashing and no
/// interface was seen.
#[tactic(auto, using(crate::proofs::RepeatedLaws::none_kept))]
fn lacked_by<'a>(
    seen: &mut IndexSet<&'a [u8]>,
    members: &MemberLines<'_>,
    named: &NamedTypes<'_>,
    declared: &'a TypeDeclaration,
) -> Result<Option<Member>, AllocError>
    requires { seen.old.keys ≡ [] }
    ensures { IfOk result (λ member. member ≡ lacked_in named.now declared.now) }
{
    for (number, name) in declared.interfaces.as_slice().iter().enumerate() {
        let member = lacked_once(seen, members, named, declared, number, name.as_bytes())?;
        if member.is_some() {
            return Ok(member);
        }
    }
    Ok(None)
}

/// The first member that a type lacks of its interfaces. Of a type that has none nothing is made.
fn lacked_in(
    alloc: Global,
    named: &NamedTypes<'_>,
    declared: &TypeDeclaration,
) -> Result<Option<Member>, AllocError>
    ensures { IfOk result (λ member. member ≡ lacked_in named.now declared.now) }
{
    if declared.interfaces.as_slice().is_empty() {
        return Ok(None);
    }
    let members = member_lines(alloc, declared)?;
    let mut seen = IndexSet::new(alloc);
    lacked_by(&mut seen, &members, named, declared)
}

/// The first place where one of the types lacks a member of one of its interfaces.
pub(crate) fn broken_place(
    alloc: Global,
    named: &NamedTypes<'_>,
    types: &[TypeDeclaration],
) -> Result<Option<FaultPlace>, AllocError>
    ensures { IfOk result (λ place. place ≡ place_from (lacked_in named.now) 0 types.now) }
{
    for (number, declared) in types.iter().enumerate() {
        let place = placed(number, lacked_in(alloc, named, declared)?);
        if place.is_some() {
            return Ok(place);
        }
    }
    Ok(None)
}
