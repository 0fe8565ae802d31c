//! Which elements of a list concern which module: their places in the list, by the module's id.

ghost use Rattle.std.specs.Prelude.{◌≡◌, ◌+◌, ◌^◌, ◌<◌, ◌==◌, ◌&&◌, ◌||◌, ℕ, [], length, IfOk};
ghost use Rattle.std.specs.Prelude.{OnOk};
ghost use Rattle.recorders.specs.Hearing.{is_within_up, is_within};
ghost use Rattle.recorders.specs.Wanted.{is_wanted};
ghost use Rattle.run_semantics.specs.declared.traces.Emission.{Emission as emission_type};
ghost use Rattle.recorders.specs.Places.{ids_at, is_number, places_at, places_heard, noted};
ghost use Rattle.recorders.specs.Places.{noted_if, recorded_places, finished_places, AreOf};
ghost use Rattle.recorders.specs.Places.{AreHeard, AreHearers, AreRecorded, AreFinished, AreOfRun};

use crate::wanted::is_wanted;
use model_questions::record::{MAX_NESTING, Record, record_at};
use run_semantics::traces::{Emission, Scalar};
use std::alloc::{AllocError, Global};

/// For each id of a module, where the elements of a run's lists stand that concern it.
#[derive(Drop)]
pub struct RunPlaces {
    /// Whether it is wanted.
    pub wanted: Vec<bool>,
    /// The places of the emissions that come from its subtree, if it is wanted.
    pub heard: Vec<Vec<usize>>,
    /// The places of the scalars that it recorded.
    pub recorded: Vec<Vec<usize>>,
    /// Its places among the modules that were finished.
    pub finished: Vec<Vec<usize>>,
}

/// Adds a place after the others, unless it is the last of them.
fn note(list: &mut Vec<usize>, place: usize) -> Result<(), AllocError>
    ensures { OnOk result (list.new.items ≡ noted place list.old.items) }
{
    match list.last() {
        Some(last) if *last == place => Ok(()),
        _ => {
            list.push(place)?;
            Ok(())
        }
    }
}

/// Adds a place to the list for that id, if there is one.
fn note_for(lists: &mut [Vec<usize>], id: u32, place: usize) -> Result<(), AllocError>
    ensures { OnOk result ((q : ℕ) → q < length lists.old
        → places_at lists.new q ≡ noted_if (id == q) place (places_at lists.old q)) }
{
    let at = id as usize;
    if at < lists.len() {
        note(&mut lists[at], place)?;
    }
    Ok(())
}

/// Adds a place to the lists for these ids, where there are such.
fn note_for_all(lists: &mut [Vec<usize>], ids: &[u32], place: usize) -> Result<(), AllocError>
    ensures { OnOk result ((q : ℕ) → q < length lists.old
        → places_at lists.new q ≡ noted_if (is_number q ids.now) place (places_at lists.old q)) }
{
    for id in ids {
        note_for(lists, *id, place)?;
    }
    Ok(())
}

/// Adds an id, if it is wanted.
fn add_wanted(ids: &mut Vec<u32>, wanted: &[bool], id: u32) -> Result<(), AllocError>
    ensures { OnOk result ((q : ℕ) → is_number q ids.new.items ≡ is_number q ids.old.items
        || ((id == q) && is_wanted wanted.now q)) }
{
    if is_wanted(wanted, id) {
        ids.push(id)?;
    }
    Ok(())
}

/// Adds that id and those of the modules around it, at most so many, which are wanted.
fn add_hearers_up(
    ids: &mut Vec<u32>,
    wanted: &[bool],
    depth: u32,
    records: &[Record],
    emitter: u32,
) -> Result<(), AllocError>
    ensures { OnOk result ((q : ℕ) → is_number q ids.new.items ≡ is_number q ids.old.items
        || (is_within_up depth records.now q emitter && is_wanted wanted.now q)) }
{
    if depth == 0 {
        return Ok(());
    }
    add_wanted(ids, wanted, emitter)?;
    match record_at(records, emitter) {
        Some(record) => add_hearers_up(ids, wanted, depth - 1, records, record.parent),
        None => Ok(()),
    }
}

#[tactic(auto, unfolding(crate::specs::Hearing::is_within))]
/// The ids of all wanted modules in whose subtree that of that id stands.
fn hearers_of(
    alloc: Global,
    wanted: &[bool],
    records: &[Record],
    emitter: u32,
) -> Result<Vec<u32>, AllocError>
    ensures { IfOk result (λ ids. (q : ℕ)
        → is_number q ids.items ≡ (is_within records.now q emitter && is_wanted wanted.now q)) }
{
    let mut ids = Vec::new(alloc);
    add_hearers_up(&mut ids, wanted, MAX_NESTING, records, emitter)?;
    Ok(ids)
}

/// For each id of a module those of all wanted modules in whose subtree it stands.
fn hearer_lists(
    alloc: Global,
    wanted: &[bool],
    records: &[Record],
) -> Result<Vec<Vec<u32>>, AllocError>
    requires { length records.now < 2 ^ 32 }
    ensures { IfOk result
        (λ hearers. AreHearers wanted.now records.now (length records.now + 1) hearers.items) }
{
    let mut hearers = Vec::new(alloc);
    for id in 0..records.len() + 1 {
        hearers.push(hearers_of(alloc, wanted, records, id as u32)?)?;
    }
    Ok(hearers)
}

/// Adds a place to the lists for all wanted modules in whose subtree that of that id stands.
fn note_around(
    lists: &mut [Vec<usize>],
    hearers: &[Vec<u32>],
    emitter: u32,
    place: usize,
) -> Result<(), AllocError>
    ensures { OnOk result ((q : ℕ) → q < length lists.old → places_at lists.new q
        ≡ noted_if (is_number q (ids_at hearers.now emitter)) place (places_at lists.old q)) }
{
    match hearers.get(emitter as usize) {
        Some(ids) => note_for_all(lists, ids.as_slice(), place),
        None => Ok(()),
    }
}

/// So many empty lists.
fn empty_lists(alloc: Global, count: usize) -> Result<Vec<Vec<usize>>, AllocError>
    ensures { IfOk result
        (λ lists. (length lists.items ≡ count) × ((q : ℕ) → places_at lists.items q ≡ [])) }
{
    let mut lists = Vec::new(alloc);
    for _ in 0..count {
        lists.push(Vec::new(alloc))?;
    }
    Ok(lists)
}

/// Notes each emission's place for all wanted modules in whose subtree the emitter stands.
fn note_emissions(
    lists: &mut [Vec<usize>],
    hearers: &[Vec<u32>],
    emissions: &[Emission],
) -> Result<(), AllocError>
    requires { (q : ℕ) → places_at lists.old q ≡ [] }
    ensures { OnOk result ((q : ℕ) → q < length lists.old
        → places_at lists.new q ≡ places_heard hearers.now q emissions.now) }
{
    for (place, emission) in emissions.iter().enumerate() {
        note_around(lists, hearers, emission.id, place)?;
    }
    Ok(())
}

/// Notes each scalar's place for the module that recorded it.
fn note_recorded(lists: &mut [Vec<usize>], recorded: &[Scalar]) -> Result<(), AllocError>
    requires { (q : ℕ) → places_at lists.old q ≡ [] }
    ensures { OnOk result ((q : ℕ) → q < length lists.old
        → places_at lists.new q ≡ recorded_places q recorded.now) }
{
    for (place, scalar) in recorded.iter().enumerate() {
        note_for(lists, scalar.id, place)?;
    }
    Ok(())
}

/// Notes the place of each module that was finished.
fn note_finished(lists: &mut [Vec<usize>], finished: &[u32]) -> Result<(), AllocError>
    requires { (q : ℕ) → places_at lists.old q ≡ [] }
    ensures { OnOk result ((q : ℕ) → q < length lists.old
        → places_at lists.new q ≡ finished_places q finished.now) }
{
    for (place, id) in finished.iter().enumerate() {
        note_for(lists, *id, place)?;
    }
    Ok(())
}

/// So many lists, one for each id of a module, with the places of the emissions that it is to hear.
fn lists_heard(
    alloc: Global,
    hearers: &[Vec<u32>],
    count: usize,
    emissions: &[Emission],
) -> Result<Vec<Vec<usize>>, AllocError>
    ensures { IfOk result (λ lists. AreOf count (λ q (e : emission_type).
        is_number q (ids_at hearers.now e.id)) emissions.now lists.items) }
{
    let mut lists = empty_lists(alloc, count)?;
    note_emissions(&mut lists, hearers, emissions)?;
    Ok(lists)
}

/// For each id of a wanted module the places of the emissions that come from its subtree; those of
/// the others are left out.
pub fn heard_lists(
    alloc: Global,
    wanted: &[bool],
    records: &[Record],
    emissions: &[Emission],
) -> Result<Vec<Vec<usize>>, AllocError>
    requires { length records.now < 2 ^ 32 }
    ensures { IfOk result (λ lists. AreHeard wanted.now records.now emissions.now lists.items) }
{
    let hearers = hearer_lists(alloc, wanted, records)?;
    let lists = lists_heard(alloc, hearers.as_slice(), records.len() + 1, emissions)?;
    Ok(lists)
}

/// For each id of a module the places of the scalars that it recorded.
fn recorded_lists(
    alloc: Global,
    records: &[Record],
    recorded: &[Scalar],
) -> Result<Vec<Vec<usize>>, AllocError>
    requires { length records.now < 2 ^ 32 }
    ensures { IfOk result (λ lists. AreRecorded records.now recorded.now lists.items) }
{
    let mut lists = empty_lists(alloc, records.len() + 1)?;
    note_recorded(&mut lists, recorded)?;
    Ok(lists)
}

/// For each id of a module its places among those that were finished.
fn finished_lists(
    alloc: Global,
    records: &[Record],
    finished: &[u32],
) -> Result<Vec<Vec<usize>>, AllocError>
    requires { length records.now < 2 ^ 32 }
    ensures { IfOk result (λ lists. AreFinished records.now finished.now lists.items) }
{
    let mut lists = empty_lists(alloc, records.len() + 1)?;
    note_finished(&mut lists, finished)?;
    Ok(lists)
}

/// The list for that id.
pub fn places_at(lists: &[Vec<usize>], id: u32) -> &[usize]
    ensures { result.now ≡ places_at lists.now id }
{
    match lists.get(id as usize) {
        Some(list) => list.as_slice(),
        None => &[],
    }
}

/// The places in the lists of a run with the modules of these records, of which these are wanted.
pub fn run_places(
    alloc: Global,
    wanted: Vec<bool>,
    records: &[Record],
    finished: &[u32],
    recorded: &[Scalar],
    emissions: &[Emission],
) -> Result<RunPlaces, AllocError>
    requires { length records.now < 2 ^ 32 }
    ensures are { IfOk result
        (λ places. AreOfRun records.now finished.now recorded.now emissions.now places) }
    ensures wanted { IfOk result (λ places. places.wanted ≡ wanted) }
{
    let heard = heard_lists(alloc, wanted.as_slice(), records, emissions)?;
    let recorded = recorded_lists(alloc, records, recorded)?;
    let finished = finished_lists(alloc, records, finished)?;
    Ok(RunPlaces {
        wanted,
        heard,
        recorded,
        finished,
    })
}
