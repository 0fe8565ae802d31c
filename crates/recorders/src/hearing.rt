//! Which emissions a vector hears.

ghost use Rattle.std.specs.Prelude.{◌≡◌};
ghost use Rattle.recorders.specs.Hearing.{is_within_up, is_within, hears};

use crate::vector_line::VectorLine;
use model_questions::record::{MAX_NESTING, Record, record_at};
use run_semantics::traces::Emission;

/// Whether the emitter, or one of the modules around it, is the module of that id; at most so many
/// modules are looked at.
fn is_within_up(depth: u32, records: &[Record], id: u32, emitter: u32) -> bool
    ensures { result ≡ is_within_up depth records.now id emitter }
{
    if depth == 0 {
        return false;
    }
    if emitter == id {
        return true;
    }
    match record_at(records, emitter) {
        Some(record) => is_within_up(depth - 1, records, id, record.parent),
        None => false,
    }
}

/// Whether the emitter stands in the subtree of the module of that id, which it may be itself.
#[tactic(auto, unfolding(crate::specs::Hearing::is_within))]
pub fn is_within(records: &[Record], id: u32, emitter: u32) -> bool
    ensures { result ≡ is_within records.now id emitter }
{
    is_within_up(MAX_NESTING, records, id, emitter)
}

/// Whether the vector hears the emission.
/// See OMNeT++ Simulation Manual, "Result Recording".
pub fn hears(records: &[Record], vector: &VectorLine, emission: &Emission) -> bool
    ensures { result ≡ hears records.now vector.now emission.now }
{
    emission.signal.is(vector.source.as_bytes()) && is_within(records, vector.id, emission.id)
}
