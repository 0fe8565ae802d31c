//! Gates that are declared twice.

ghost use Rattle.std.specs.Prelude.{◌≡◌, [], not, IfOk, OnOk};
ghost use Rattle.ned_types.specs.Types.{declares_gate, is_declared_again};
ghost use Rattle.ned_inheritance.specs.Places.{first_again};
ghost use Rattle.ned_inheritance.specs.Seen.{declares_one, names_in, AddsNames};

use crate::sections::see;
use indexmap::IndexSet;
use ned_trees::declarations::GateLine;
use std::alloc::{AllocError, Global};

/// The first line that declares a gate which one before it declares. The names that were seen stand
/// in a set, so each is compared with few.
pub(crate) fn redeclared_gate(
    alloc: Global,
    gates: &[GateLine],
) -> Result<Option<usize>, AllocError>
    ensures { IfOk result (λ at. at ≡ first_again is_declared_again [] 0 gates.now) }
{
    let mut seen = IndexSet::new(alloc);
    declares_seen(&mut seen, gates)
}

/// The same, where the names of the gates are added to an empty set.
fn declares_seen<'a>(
    seen: &mut IndexSet<&'a [u8]>,
    gates: &'a [GateLine],
) -> Result<Option<usize>, AllocError>
    requires { seen.old.keys ≡ [] }
    ensures { IfOk result (λ at. at ≡ first_again is_declared_again [] 0 gates.now) }
{
    for (at, line) in gates.iter().enumerate() {
        if !see_gate(seen, line)? {
            return Ok(Some(at));
        }
    }
    Ok(None)
}

/// Adds the name of the gate that the line declares, if it declares one. Answers whether it is new.
fn see_gate<'a>(seen: &mut IndexSet<&'a [u8]>, line: &'a GateLine) -> Result<bool, AllocError>
    ensures new { IfOk result (λ new. new ≡ not (declares_one (names_in seen.old.keys) line.now)) }
    ensures names { OnOk result (AddsNames (names_in seen.old.keys) (λ n. declares_gate n line.now)
        (names_in seen.new.keys)) }
{
    match line {
        GateLine::Declaration(gate) => see(seen, gate.name.as_bytes()),
        GateLine::Refinement(_) => Ok(true),
    }
}
