//! The modules of whose statistics something is recorded: their places alone are noted.

ghost use Rattle.std.specs.Prelude.{◌≡◌, ◌+◌, ◌^◌, ◌<◌, IfOk, length};
ghost use Rattle.model_data.specs.Models.{entries_in};
ghost use Rattle.recorders.specs.Wanted.{is_wanted, has_output, has_output_among, wants, AreWanted};

use crate::recorded_model::RecordedModel;
use crate::selection::{records_scalars, records_vector};
use model_questions::record::{Record, path_of};
use ned_trees::declarations::Statistic;
use ned_types::flat::statistics_of;
use sim_values::NoMemory;
use std::alloc::Global;

/// What the result files may have of a statistic.
#[derive(Clone, Copy)]
pub enum Output {
    /// Its vector.
    Vector,
    /// Scalars of its modes.
    Scalars,
}

/// Whether the options let them have it of a statistic of the module of that path.
fn has_output(
    output: Output,
    alloc: Global,
    model: &RecordedModel<'_, '_>,
    path: &[u8],
    statistic: &Statistic,
) -> Result<bool, NoMemory>
    ensures { IfOk result
        (λ on. on ≡ has_output output (entries_in model.now) path.now statistic.now) }
{
    match output {
        Output::Vector => records_vector(alloc, model, path, statistic),
        Output::Scalars => records_scalars(alloc, model, path, statistic),
    }
}

/// Whether they let them have it of one of these statistics.
fn has_output_among(
    output: Output,
    alloc: Global,
    model: &RecordedModel<'_, '_>,
    path: &[u8],
    statistics: &[Statistic],
) -> Result<bool, NoMemory>
    ensures { IfOk result
        (λ on. on ≡ has_output_among output (entries_in model.now) path.now statistics.now) }
{
    for statistic in statistics {
        if has_output(output, alloc, model, path, statistic)? {
            return Ok(true);
        }
    }
    Ok(false)
}

/// Whether they let them have it of a statistic of the module of that id.
fn wants(
    output: Output,
    alloc: Global,
    model: &RecordedModel<'_, '_>,
    records: &[Record],
    id: u32,
) -> Result<bool, NoMemory>
    ensures { IfOk result (λ on. on ≡ wants output model.now records.now id) }
{
    let Some(declared) = model.type_at(alloc, records, id)? else {
        return Ok(false);
    };
    let path = path_of(alloc, records, id)?;
    let statistics = statistics_of(alloc, declared.lines.as_slice())?;
    has_output_among(output, alloc, model, path.as_bytes(), statistics.as_slice())
}

/// For each id of a module whether the options let the files have it of one of its statistics.
pub fn wanted(
    output: Output,
    alloc: Global,
    model: &RecordedModel<'_, '_>,
    records: &[Record],
) -> Result<Vec<bool>, NoMemory>
    requires { length records.now < 2 ^ 32 }
    ensures { IfOk result (λ wanted. AreWanted output model.now records.now wanted.items) }
{
    let mut wanted = Vec::new(alloc);
    for id in 0..records.len() + 1 {
        wanted.push(wants(output, alloc, model, records, id as u32)?)?;
    }
    Ok(wanted)
}

/// Whether the module of that id is wanted.
pub fn is_wanted(wanted: &[bool], id: u32) -> bool
    ensures { result ≡ is_wanted wanted.now id }
{
    match wanted.get(id as usize) {
        Some(on) => *on,
        None => false,
    }
}
