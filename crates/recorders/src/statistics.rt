//! What the statistics of a module make of the values that they hear.

ghost use Rattle.std.specs.Prelude.{◌≡◌, ◌++◌, IfOk, OnOk};
ghost use Rattle.std.specs.List.{flat_map};
ghost use Rattle.std.specs.Option.{option_map};
ghost use Rattle.recorders.specs.Places.{of_place, value_of};
ghost use Rattle.recorders.specs.Statistics.{count_of, sum_of, min_of, max_of, last_of, value_in};

use crate::vector_line::VectorLine;
use ned_trees::modes::Mode;
use run_semantics::traces::Emission;
use sqlite_items::at;
use std::alloc::{AllocError, Global};

/// The values of the emissions that a statistic hears, in their order, by the places of those that
/// come from its module's subtree.
pub fn values_at(
    alloc: Global,
    emissions: &[Emission],
    places: &[usize],
    vector: &VectorLine,
) -> Result<Vec<i64>, AllocError>
    ensures { IfOk result (λ values. values.items
        ≡ flat_map (of_place (value_of vector.now) emissions.now) places.now) }
{
    let mut values = Vec::new(alloc);
    for place in places {
        push_value_at(&mut values, emissions, *place, vector)?;
    }
    Ok(values)
}

/// Adds the value of an emission, where it is of the vector's signal.
fn push_value(
    values: &mut Vec<i64>,
    emission: &Emission,
    vector: &VectorLine,
) -> Result<(), AllocError>
    ensures { OnOk result (values.new.items
        ≡ values.old.items ++ value_of vector.now emission.now) }
{
    if emission.signal.is(vector.source.as_bytes()) {
        values.push(emission.value)?;
    }
    Ok(())
}

/// Adds the value of the emission at that place, where it is of the vector's signal.
fn push_value_at(
    values: &mut Vec<i64>,
    emissions: &[Emission],
    place: usize,
    vector: &VectorLine,
) -> Result<(), AllocError>
    ensures { OnOk result (values.new.items
        ≡ values.old.items ++ of_place (value_of vector.now) emissions.now place) }
{
    match at(emissions, place) {
        Some(emission) => push_value(values, emission, vector),
        None => Ok(()),
    }
}

/// How many values there are.
fn count_of(values: &[i64]) -> i128
    ensures { result ≡ count_of values.now }
{
    values.len() as i128
}

/// The sum of the values. It fits, as there are fewer than 2^64 of 64 bits each.
fn sum_of(values: &[i64]) -> i128
    ensures { result ≡ sum_of values.now }
{
    let mut sum = 0;
    for value in values {
        sum += i128::from(*value);
    }
    sum
}

/// The least value, none where there is none.
fn min_of(values: &[i64]) -> Option<i64>
    ensures { result ≡ min_of values.now }
{
    let [first, rest @ ..] = values else {
        return None;
    };
    let mut least = *first;
    for value in rest {
        least = least.min(*value);
    }
    Some(least)
}

/// The greatest value, none where there is none.
fn max_of(values: &[i64]) -> Option<i64>
    ensures { result ≡ max_of values.now }
{
    let [first, rest @ ..] = values else {
        return None;
    };
    let mut greatest = *first;
    for value in rest {
        greatest = greatest.max(*value);
    }
    Some(greatest)
}

/// The last value, none where there is none.
fn last_of(values: &[i64]) -> Option<i64>
    ensures { result ≡ last_of values.now }
{
    values.last().copied()
}

/// The same in more bits.
fn widened(value: Option<i64>) -> Option<i128>
    ensures { result ≡ value }
{
    match value {
        Some(value) => Some(i128::from(value)),
        None => None,
    }
}

/// The scalar that a mode makes of these values, none for a vector. Of no values the count and the
/// sum are 0, and there is no least, no greatest and no last. See OMNeT++ Simulation Manual,
/// "Result Recording Modes".
pub fn value_in(mode: Mode, values: &[i64]) -> Option<i128>
    ensures { result ≡ value_in mode values.now }
{
    match mode {
        Mode::Count => Some(count_of(values)),
        Mode::Sum => Some(sum_of(values)),
        Mode::Min => widened(min_of(values)),
        Mode::Max => widened(max_of(values)),
        Mode::Last => widened(last_of(values)),
        Mode::Vector => None,
    }
}
