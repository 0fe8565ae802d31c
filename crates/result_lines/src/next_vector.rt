//! Where the next vector stands that may hear what a module emits.

ghost use Rattle.std.specs.Prelude.{◌≡◌, ℕ, ◌<◌, ◌≤◌, ◌==◌, Bool, true, false, IsTrue, length};
ghost use Rattle.std.specs.Prelude.{if◌then◌else◌};
ghost use Rattle.std.specs.List.{slice_index_or};
ghost use Rattle.recorders.specs.Hearing.{is_within_up, is_within};
ghost use Rattle.result_lines.specs.Rising.{IsLeastFrom, AreByModule};

use model_questions::record::{MAX_NESTING, Record, record_at};
use recorders::vector_line::VectorLine;

/// The least of an id and another one, of those that aren't below a number.
fn least_from(from: u32, id: u32, other: Option<u32>) -> Option<u32>
    ensures { (p : ℕ → Bool) → IsLeastFrom from p other
        → IsLeastFrom from (λ n. if id == n then true else p n) result }
{
    if id < from {
        return other;
    }
    match other {
        Some(other) if other < id => Some(other),
        _ => Some(id),
    }
}

/// The least id, from that number on, of the emitter and the modules around it; at most so many
/// modules are looked at.
fn next_around_up(depth: u32, records: &[Record], from: u32, emitter: u32) -> Option<u32>
    ensures { IsLeastFrom from (λ id. is_within_up depth records.now id emitter) result }
{
    if depth == 0 {
        return None;
    }
    let above = match record_at(records, emitter) {
        Some(record) => next_around_up(depth - 1, records, from, record.parent),
        None => None,
    };
    least_from(from, emitter, above)
}

/// The least id, from that number on, of a module in whose subtree the emitter stands.
fn next_around(records: &[Record], from: u32, emitter: u32) -> Option<u32>
    ensures { IsLeastFrom from (λ id. is_within records.now id emitter) result }
{
    next_around_up(MAX_NESTING, records, from, emitter)
}

/// Whether the vectors stand by rising id of the module.
pub fn are_by_module(vectors: &[VectorLine]) -> bool
    ensures { IsTrue result → AreByModule vectors.now }
{
    vectors.is_sorted_by_key(|vector| vector.id)
}

/// Where the first of these vectors stands whose module's id isn't below that one.
fn place_from(vectors: &[VectorLine], id: u32) -> usize
    requires { AreByModule vectors.now }
    ensures within { result ≤ length vectors.now }
    ensures below { (k : ℕ) (d : VectorLine) → k < result
        → (slice_index_or vectors.now k d).id < id }
{
    vectors.partition_point(|vector| vector.id < id)
}

/// A place, from that number on, before which no vector is of a module around the emitter.
pub fn next_place(records: &[Record], vectors: &[VectorLine], emitter: u32, number: usize) -> usize
    requires rising { AreByModule vectors.now }
    requires there { number < length vectors.now }
    ensures from { number ≤ result }
    ensures within { result ≤ length vectors.now }
    ensures apart { (k : ℕ) (d : VectorLine) → number ≤ k → k < result
        → is_within records.now (slice_index_or vectors.now k d).id emitter ≡ false }
{
    match next_around(records, vectors[number].id, emitter) {
        Some(id) => place_from(vectors, id).max(number),
        None => vectors.len(),
    }
}
