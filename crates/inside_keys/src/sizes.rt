//! Lines for what is no gate, and sizes for what is no gate vector.

ghost use Rattle.std.specs.Prelude.{◌≡◌};
ghost use Rattle.std.specs.Option.{option_copied};
ghost use Rattle.inside_keys.specs.Given as given;

use inside_parts::gates::TypeGates;
use ned_trees::declarations::{GateLine, SubmoduleBody, TypeDeclaration};
use sim_values::text::Text;

/// Whether one of these gates is a vector of that name.
pub fn has_vector(gates: &TypeGates, name: &Text) -> bool
    ensures { result ≡ given.has_vector gates.now name.now }
{
    match gates.names.position(name) {
        Some(place) => match gates.gates.get(place) {
            Some(gate) => gate.kind.is_vector,
            None => false,
        },
        None => false,
    }
}

/// Whether one of these gates has that name.
fn has_gate(gates: &TypeGates, name: &Text) -> bool
    ensures { result ≡ given.has_gate gates.now name.now }
{
    gates.names.position(name).is_some()
}

/// Whether a line without a direction speaks of none of these gates, or gives a size to one that is
/// no vector.
fn is_misplaced(gates: &TypeGates, line: &GateLine) -> bool
    ensures { result ≡ given.is_misplaced gates.now line.now }
{
    match line {
        GateLine::Declaration(_) => false,
        GateLine::Refinement(refined) => {
            if refined.size.is_some() {
                !has_vector(gates, &refined.name)
            } else {
                !has_gate(gates, &refined.name)
            }
        }
    }
}

/// The name of the gate that a line speaks of.
fn named_in(line: &GateLine) -> &Text
    ensures { result.now ≡ given.named_in line.now }
{
    match line {
        GateLine::Declaration(declared) => &declared.name,
        GateLine::Refinement(refined) => &refined.name,
    }
}

/// The name in the first of these lines, without a direction, that speaks of none of these gates, or
/// gives a size to one that is no vector.
pub fn misplaced<'m>(gates: &TypeGates, lines: &'m [GateLine]) -> Option<&'m Text>
    ensures { option_copied result ≡ given.misplaced gates.now lines.now }
{
    for line in lines {
        if is_misplaced(gates, line) {
            return Some(named_in(line));
        }
    }
    None
}

/// The same in the body of a submodule, or else in its type, which has these gates.
pub fn misplaced_in<'m>(
    gates: Option<&TypeGates>,
    declared: &'m TypeDeclaration,
    body: &'m SubmoduleBody,
) -> Option<&'m Text>
    ensures { option_copied result
        ≡ given.misplaced_in (option_copied gates.entry) declared.now body.now }
{
    let Some(gates) = gates else {
        return None;
    };
    match misplaced(gates, body.gates.as_slice()) {
        Some(name) => Some(name),
        None => misplaced(gates, declared.gates.as_slice()),
    }
}
