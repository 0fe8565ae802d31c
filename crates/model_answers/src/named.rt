//! Gates by their names, and halves of gates.

ghost use Rattle.std.specs.Prelude.{◌≡◌, IfOk, None, Some};
ghost use Rattle.model_questions.specs.Gates as named;

use model_inside::hops::is_marked;
use model_questions::answer::Answer;
use module_api::call::{Direction, Gate, find_gate};
use sim_values::NoMemory;
use std::alloc::Global;

/// Whether a name is that of a half of this gate, which has that mark after it.
#[tactic(auto, using(crate::proofs::Halves::same_marked))]
fn is_half(mark: &[u8], name: &[u8], gate: &Gate) -> bool
    ensures { result ≡ named.is_half mark.now name.now gate.now }
{
    match gate.direction {
        Direction::Inout => is_marked(name, gate.name.as_bytes(), mark),
        Direction::Input | Direction::Output => false,
    }
}

/// The gate, with that direction.
fn directed(alloc: Global, gate: &Gate, direction: Direction) -> Result<Answer, NoMemory>
    ensures { IfOk result (λ answer. answer
        ≡ named.gate_answer None (Some (record gate.now { direction = direction }))) }
{
    Ok(Answer::Gate(Gate {
        name: gate.name.copy(alloc)?,
        direction,
        size: gate.size,
    }))
}

/// What is answered of the half of that name among these gates.
fn half_named(alloc: Global, name: &[u8], gates: &[Gate]) -> Result<Answer, NoMemory>
    ensures { IfOk result
        (λ answer. answer ≡ named.gate_answer None (named.half_of name.now gates.now)) }
{
    for gate in gates {
        if is_half(b"$i", name, gate) {
            return directed(alloc, gate, Direction::Input);
        }
        if is_half(b"$o", name, gate) {
            return directed(alloc, gate, Direction::Output);
        }
    }
    Ok(Answer::Absent)
}

/// What is answered of the gate of that name among these: a whole gate, or a half of one.
pub fn gate_named(alloc: Global, name: &[u8], gates: &[Gate]) -> Result<Answer, NoMemory>
    ensures { IfOk result (λ answer. answer ≡ named.gate_named name.now gates.now) }
{
    match find_gate(gates, name) {
        Some(gate) => directed(alloc, gate, gate.direction),
        None => half_named(alloc, name, gates),
    }
}
