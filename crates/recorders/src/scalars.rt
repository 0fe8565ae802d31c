//! Which scalars a run records.

ghost use Rattle.std.specs.Prelude.{◌≡◌, ◌<◌, ◌^◌, ◌++◌, IfOk, OnOk, length};
ghost use Rattle.model_data.specs.Models.{entries_in};
ghost use Rattle.recorders.specs.ByPlaces.{lines_at_places, lines_of_type, lines_if_finished};
ghost use Rattle.recorders.specs.ByPlaces.{scalars_by_places};
ghost use Rattle.recorders.specs.Places.{of_place, places_at, heard_places, wanted_places};
ghost use Rattle.recorders.specs.Places.{AreOfRun};
ghost use Rattle.recorders.specs.Scalars.{line_of, recorded_line, line_of_value, mode_line};
ghost use Rattle.recorders.specs.Scalars.{mode_lines, statistic_lines, lines_among, scalars_of};
ghost use Rattle.recorders.specs.Wanted.{is_wanted, wants, AreWanted};
ghost use Rattle.recorders.specs.declared.wanted.Output.TheVariants.{Scalars};

use crate::member::Member;
use crate::places::{RunPlaces, places_at};
use crate::recorded_model::RecordedModel;
use crate::scalar_line::ScalarLine;
use crate::selection::{records_scalar_named, result_name, selected_modes};
use crate::statistics::{value_in, values_at};
use crate::vectors::vector_of;
use crate::wanted::is_wanted;
use model_questions::record::{Record, path_of};
use ned_trees::declarations::Statistic;
use ned_trees::modes::Mode;
use run_semantics::traces::{Emission, Scalar};
use sim_values::NoMemory;
use sim_values::text::Text;
use sqlite_items::{Items, at};
use std::alloc::Global;

/// Adds the line of a scalar of that name and value of the module of that path, where the option
/// lets it be recorded.
fn push_line(
    found: &mut Items<ScalarLine>,
    alloc: Global,
    model: &RecordedModel<'_, '_>,
    path: &[u8],
    name: &[u8],
    value: i128,
) -> Result<(), NoMemory>
    ensures { OnOk result (found.new
        ≡ found.old ++ line_of (entries_in model.now) path.now name.now value) }
{
    if records_scalar_named(alloc, model, path, name)? {
        found.push(ScalarLine {
            path: Text::from_bytes(alloc, path)?,
            name: Text::from_bytes(alloc, name)?,
            value,
        })?;
    }
    Ok(())
}

/// Adds the line of a scalar that was recorded, where this module did.
fn push_recorded(
    found: &mut Items<ScalarLine>,
    alloc: Global,
    member: &Member<'_, '_, '_>,
    scalar: &Scalar,
) -> Result<(), NoMemory>
    ensures { OnOk result (found.new ≡ found.old
        ++ recorded_line member.now.model.now member.now.records.now member.now.id scalar.now) }
{
    if scalar.id != member.id {
        return Ok(());
    }
    let path = path_of(alloc, member.records, member.id)?;
    push_line(
        found,
        alloc,
        member.model,
        path.as_bytes(),
        scalar.name.as_bytes(),
        i128::from(scalar.value),
    )
}

/// Adds the line of the scalar at that place, where this module recorded it.
fn push_recorded_at(
    found: &mut Items<ScalarLine>,
    alloc: Global,
    member: &Member<'_, '_, '_>,
    recorded: &[Scalar],
    place: usize,
) -> Result<(), NoMemory>
    ensures { OnOk result (found.new ≡ found.old ++ of_place (recorded_line member.now.model.now
        member.now.records.now member.now.id) recorded.now place) }
{
    match at(recorded, place) {
        Some(scalar) => push_recorded(found, alloc, member, scalar),
        None => Ok(()),
    }
}

/// Adds the lines of the scalars at these places that this module recorded.
fn push_all_recorded(
    found: &mut Items<ScalarLine>,
    alloc: Global,
    member: &Member<'_, '_, '_>,
    recorded: &[Scalar],
    places: &[usize],
) -> Result<(), NoMemory>
    ensures { OnOk result (found.new ≡ found.old ++ lines_at_places member.now.model.now
        member.now.records.now member.now.id recorded.now places.now) }
{
    for place in places {
        push_recorded_at(found, alloc, member, recorded, *place)?;
    }
    Ok(())
}

/// Adds the line of a value, where there is one.
fn push_value(
    found: &mut Items<ScalarLine>,
    alloc: Global,
    model: &RecordedModel<'_, '_>,
    path: &[u8],
    name: &[u8],
    value: Option<i128>,
) -> Result<(), NoMemory>
    ensures { OnOk result (found.new
        ≡ found.old ++ line_of_value (entries_in model.now) path.now name.now value) }
{
    match value {
        Some(value) => push_line(found, alloc, model, path, name, value),
        None => Ok(()),
    }
}

/// Adds what a statistic with these values has in a mode, in the name of both.
fn push_mode(
    found: &mut Items<ScalarLine>,
    alloc: Global,
    model: &RecordedModel<'_, '_>,
    path: &[u8],
    statistic: &[u8],
    values: &[i64],
    mode: Mode,
) -> Result<(), NoMemory>
    ensures { OnOk result (found.new
        ≡ found.old ++ mode_line (entries_in model.now) path.now statistic.now values.now mode) }
{
    let name = result_name(alloc, statistic, mode)?;
    let value = value_in(mode, values);
    push_value(found, alloc, model, path, name.as_bytes(), value)
}

/// Adds the same in each of these modes.
fn push_modes(
    found: &mut Items<ScalarLine>,
    alloc: Global,
    model: &RecordedModel<'_, '_>,
    path: &[u8],
    statistic: &[u8],
    values: &[i64],
    modes: &[Mode],
) -> Result<(), NoMemory>
    ensures { OnOk result (found.new ≡ found.old
        ++ mode_lines (entries_in model.now) path.now statistic.now values.now modes.now) }
{
    for mode in modes {
        push_mode(found, alloc, model, path, statistic, values, *mode)?;
    }
    Ok(())
}

/// Adds the lines of a statistic of the module, one for each mode in which the options let it be
/// recorded.
fn push_statistic(
    found: &mut Items<ScalarLine>,
    alloc: Global,
    member: &Member<'_, '_, '_>,
    statistic: &Statistic,
) -> Result<(), NoMemory>
    requires { member.now.heard.now
        ≡ heard_places member.now.records.now member.now.id member.now.emissions.now }
    ensures { OnOk result (found.new ≡ found.old ++ statistic_lines member.now.model.now
        member.now.records.now member.now.emissions.now member.now.id statistic.now) }
{
    let vector = vector_of(alloc, member.records, member.id, statistic)?;
    let path = vector.path.as_bytes();
    let modes = selected_modes(alloc, member.model, path, statistic)?;
    let values = values_at(alloc, member.emissions, member.heard, &vector)?;
    push_modes(
        found,
        alloc,
        member.model,
        path,
        statistic.name.as_bytes(),
        values.as_slice(),
        modes.as_slice(),
    )
}

/// Adds the lines of these statistics of the module.
fn push_statistics(
    found: &mut Items<ScalarLine>,
    alloc: Global,
    member: &Member<'_, '_, '_>,
    statistics: &[Statistic],
) -> Result<(), NoMemory>
    requires { member.now.heard.now
        ≡ heard_places member.now.records.now member.now.id member.now.emissions.now }
    ensures { OnOk result (found.new ≡ found.old ++ lines_among member.now.model.now
        member.now.records.now member.now.emissions.now member.now.id statistics.now) }
{
    for statistic in statistics {
        push_statistic(found, alloc, member, statistic)?;
    }
    Ok(())
}

/// Adds the lines of the statistics of the module.
fn push_type_lines(
    found: &mut Items<ScalarLine>,
    alloc: Global,
    member: &Member<'_, '_, '_>,
) -> Result<(), NoMemory>
    requires { member.now.heard.now
        ≡ heard_places member.now.records.now member.now.id member.now.emissions.now }
    ensures { OnOk result (found.new ≡ found.old ++ lines_of_type member.now.model.now
        member.now.records.now member.now.emissions.now member.now.id) }
{
    let statistics = member.statistics(alloc)?;
    push_statistics(found, alloc, member, statistics.as_slice())
}

/// Adds the lines of the statistics of the module, where it was finished, which is where there is a
/// place at which it was, and is wanted: it has none else.
fn push_statistics_at(
    found: &mut Items<ScalarLine>,
    alloc: Global,
    member: &Member<'_, '_, '_>,
    places: &RunPlaces,
) -> Result<(), NoMemory>
    requires wanted { is_wanted places.now.wanted.items member.now.id
        ≡ wants Scalars member.now.model.now member.now.records.now member.now.id }
    requires heard { member.now.heard.now ≡ wanted_places places.now.wanted.items
        member.now.records.now member.now.id member.now.emissions.now }
    ensures { OnOk result (found.new ≡ found.old
        ++ lines_if_finished member.now.model.now member.now.records.now member.now.emissions.now
        member.now.id (places_at places.now.finished.items member.now.id)) }
{
    let finished = places_at(&places.finished, member.id);
    if finished.is_empty() {
        return Ok(());
    }
    if !is_wanted(&places.wanted, member.id) {
        return Ok(());
    }
    push_type_lines(found, alloc, member)
}

/// Adds the lines of the module: those of the scalars that it recorded, and after them those of its
/// statistics.
fn push_scalars_at(
    found: &mut Items<ScalarLine>,
    alloc: Global,
    member: &Member<'_, '_, '_>,
    recorded: &[Scalar],
    places: &RunPlaces,
) -> Result<(), NoMemory>
    requires wanted { is_wanted places.now.wanted.items member.now.id
        ≡ wants Scalars member.now.model.now member.now.records.now member.now.id }
    requires heard { member.now.heard.now ≡ wanted_places places.now.wanted.items
        member.now.records.now member.now.id member.now.emissions.now }
    ensures { OnOk result (found.new ≡ found.old ++ scalars_by_places member.now.model.now
        member.now.records.now recorded.now member.now.emissions.now places.now member.now.id) }
{
    let by = places_at(&places.recorded, member.id);
    push_all_recorded(found, alloc, member, recorded, by)?;
    push_statistics_at(found, alloc, member, places)
}

/// The scalars that a run records, with the modules of these records, of which these were finished,
/// with what the modules recorded and these emissions: by rising id of the module, first what it
/// recorded, then, if it was finished, what the options let be recorded of its type's statistics.
/// See OMNeT++ Simulation Manual, "Result Recording".
pub(crate) fn scalars<'r>(
    alloc: Global,
    model: &'r RecordedModel<'_, '_>,
    records: &'r [Record],
    _finished: &[u32],
    recorded: &[Scalar],
    emissions: &'r [Emission],
    places: &'r RunPlaces,
) -> Result<Items<ScalarLine>, NoMemory>
    requires few { length records.now < 2 ^ 32 }
    requires wanted { AreWanted Scalars model.now records.now places.now.wanted.items }
    requires are { AreOfRun records.now _finished.now recorded.now emissions.now places.now }
    ensures { IfOk result (λ found. found
        ≡ scalars_of model.now records.now _finished.now recorded.now emissions.now) }
{
    let mut found = Items::new(alloc);
    for (index, _record) in records.iter().enumerate() {
        let id = index as u32 + 1;
        let member = Member {
            model,
            records,
            emissions,
            heard: places_at(&places.heard, id),
            id,
        };
        push_scalars_at(&mut found, alloc, &member, recorded, places)?;
    }
    Ok(found)
}
