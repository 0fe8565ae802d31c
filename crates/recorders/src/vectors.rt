//! Which vectors a run records.

ghost use Rattle.std.specs.Prelude.{◌≡◌, ◌<◌, ◌^◌, [], ◌∷◌, ◌++◌, IfOk, OnOk, length, slice_get};
ghost use Rattle.recorders.specs.Places.{heard_places, is_of, is_any_of, wanted_places, AreHeard};
ghost use Rattle.recorders.specs.Vectors.{vector_of, vectors_among, vectors_at, vectors_of};
ghost use Rattle.recorders.specs.Wanted.{is_wanted, wants, AreWanted};
ghost use Rattle.recorders.specs.declared.wanted.Output.TheVariants.{Vector};

use crate::member::Member;
use crate::places::places_at;
use crate::recorded_model::RecordedModel;
use crate::selection::records_vector;
use crate::vector_line::VectorLine;
use crate::wanted::is_wanted;
use model_questions::record::{Record, path_of};
use ned_trees::declarations::Statistic;
use run_semantics::traces::Emission;
use sim_values::NoMemory;
use sqlite_items::{Items, at};
use std::alloc::{AllocError, Global};

/// The vector of a statistic of the module of that id.
pub fn vector_of(
    alloc: Global,
    records: &[Record],
    id: u32,
    statistic: &Statistic,
) -> Result<VectorLine, AllocError>
    ensures { IfOk result (λ vector. vector ≡ vector_of records.now id statistic.now) }
{
    Ok(VectorLine {
        id,
        path: path_of(alloc, records, id)?,
        statistic: statistic.name.copy(alloc)?,
        source: statistic.source.copy(alloc)?,
    })
}

/// Whether the emission at that place is of the vector's signal.
fn is_of(vector: &VectorLine, emissions: &[Emission], place: usize) -> bool
    ensures { result ≡ is_of vector.now (slice_get emissions.now place) }
{
    match at(emissions, place) {
        Some(emission) => emission.signal.is(vector.source.as_bytes()),
        None => false,
    }
}

/// Whether one of the emissions at these places is of the vector's signal.
fn is_any_of(vector: &VectorLine, emissions: &[Emission], places: &[usize]) -> bool
    ensures { result ≡ is_any_of vector.now emissions.now places.now }
{
    places.iter().any(|place| is_of(vector, emissions, *place))
}

/// Adds the vector of a statistic, where it is recorded and has a value.
fn push_vector(
    found: &mut Items<VectorLine>,
    alloc: Global,
    member: &Member<'_, '_, '_>,
    statistic: &Statistic,
) -> Result<(), NoMemory>
    requires { member.now.heard.now
        ≡ heard_places member.now.records.now member.now.id member.now.emissions.now }
    ensures { OnOk result (found.new ≡ found.old ++ vectors_among member.now.model.now
        member.now.records.now member.now.emissions.now member.now.id (statistic.now ∷ [])) }
{
    let vector = vector_of(alloc, member.records, member.id, statistic)?;
    if !records_vector(alloc, member.model, vector.path.as_bytes(), statistic)? {
        return Ok(());
    }
    if is_any_of(&vector, member.emissions, member.heard) {
        found.push(vector)?;
    }
    Ok(())
}

/// Adds the vectors of these statistics of the module.
fn push_vectors(
    found: &mut Items<VectorLine>,
    alloc: Global,
    member: &Member<'_, '_, '_>,
    statistics: &[Statistic],
) -> Result<(), NoMemory>
    requires { member.now.heard.now
        ≡ heard_places member.now.records.now member.now.id member.now.emissions.now }
    ensures { OnOk result (found.new ≡ found.old ++ vectors_among member.now.model.now
        member.now.records.now member.now.emissions.now member.now.id statistics.now) }
{
    for statistic in statistics {
        push_vector(found, alloc, member, statistic)?;
    }
    Ok(())
}

/// Adds the vectors of the module.
fn push_vectors_at(
    found: &mut Items<VectorLine>,
    alloc: Global,
    member: &Member<'_, '_, '_>,
) -> Result<(), NoMemory>
    requires { member.now.heard.now
        ≡ heard_places member.now.records.now member.now.id member.now.emissions.now }
    ensures { OnOk result (found.new ≡ found.old ++ vectors_at member.now.model.now
        member.now.records.now member.now.emissions.now member.now.id) }
{
    let statistics = member.statistics(alloc)?;
    push_vectors(found, alloc, member, statistics.as_slice())
}

/// Adds the vectors of the module, if it is wanted: it has none else.
fn push_wanted_vectors(
    found: &mut Items<VectorLine>,
    alloc: Global,
    member: &Member<'_, '_, '_>,
    wanted: &[bool],
) -> Result<(), NoMemory>
    requires wanted { is_wanted wanted.now member.now.id
        ≡ wants Vector member.now.model.now member.now.records.now member.now.id }
    requires heard { member.now.heard.now
        ≡ wanted_places wanted.now member.now.records.now member.now.id member.now.emissions.now }
    ensures { OnOk result (found.new ≡ found.old ++ vectors_at member.now.model.now
        member.now.records.now member.now.emissions.now member.now.id) }
{
    if !is_wanted(wanted, member.id) {
        return Ok(());
    }
    push_vectors_at(found, alloc, member)
}

/// The vectors that a run records, with the modules of these records and these emissions: all that
/// the options let be recorded and that hear at least one value, by rising id of the module, then
/// in the order of its type's statistics. These modules are wanted, and these are the places of
/// what each of them hears. See OMNeT++ Simulation Manual, "Result Recording".
pub(crate) fn vectors<'r>(
    alloc: Global,
    model: &'r RecordedModel<'_, '_>,
    records: &'r [Record],
    emissions: &'r [Emission],
    wanted: &[bool],
    heard: &'r [Vec<usize>],
) -> Result<Items<VectorLine>, NoMemory>
    requires few { length records.now < 2 ^ 32 }
    requires wanted { AreWanted Vector model.now records.now wanted.now }
    requires heard { AreHeard wanted.now records.now emissions.now heard.now }
    ensures { IfOk result (λ found. found ≡ vectors_of model.now records.now emissions.now) }
{
    let mut found = Items::new(alloc);
    for (index, _record) in records.iter().enumerate() {
        let id = index as u32 + 1;
        let member = Member {
            model,
            records,
            emissions,
            heard: places_at(heard, id),
            id,
        };
        push_wanted_vectors(&mut found, alloc, &member, wanted)?;
    }
    Ok(found)
}
