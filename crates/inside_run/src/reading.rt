//! What is read of submodules.

ghost use Rattle.std.specs.Prelude.{◌≡◌, Some};
ghost use Rattle.std.specs.Option.{option_copied};
ghost use Rattle.inside_wiring.specs.Ends.{natural};
ghost use Rattle.inside_keys.specs.Settings.{ModuleRules};
ghost use Rattle.inside_keys.specs.Values as values;
ghost use Rattle.inside_keys.specs.declared.key.Module.{Module as module_type};
ghost use Rattle.inside_keys.specs.declared.found.Found.TheVariants as found_as;
ghost use Rattle.inside_run.specs.Going as going;
ghost use Rattle.inside_run.specs.Going.{Moves, goes_on};
ghost use Rattle.inside_run.specs.declared.progress.KeyProgress.TheVariants as waits;
ghost use Rattle.inside_run.specs.Weights.{Costs};

use crate::progress::{KeyProgress, Moved, Reading};
use inside_keys::found::Found;
use inside_keys::key::{Module, What};
use inside_parts::fault::InsideError;
use inside_walk::submodules::size;
use ned_trees::declarations::Submodule;
use sim_values::model_fault::ModelFault;
use sim_values::text::Text;
use sim_values::value::Value;
use sim_values::value_fault::ValueFault;
use std::alloc::Global;

/// Of what nothing of that kind is declared.
fn unread<'m>(reading: &Reading) -> Result<Moved<'m>, InsideError>
    ensures moves { (s : ModuleRules) → Moves s result (going.unread reading.now) }
    ensures costs { (s : ModuleRules) → Costs s 3 result }
{
    match reading {
        Reading::Member(_) | Reading::Element(_, _) | Reading::Size => {
            Err(InsideError::Fault(ModelFault::Value(ValueFault::Unassigned)))
        }
        Reading::Exists | Reading::ExistsAt(_) => Ok(Moved::Done(Found::Value(Value::Truth(
            false,
        )))),
    }
}

/// Of one whose condition doesn't hold.
fn absent<'m>(reading: &Reading) -> Result<Moved<'m>, InsideError>
    ensures moves { (s : ModuleRules) → Moves s result (going.absent reading.now) }
    ensures costs { (s : ModuleRules) → Costs s 2 result }
{
    match reading {
        Reading::Member(_) | Reading::Element(_, _) => Err(InsideError::Fault(ModelFault::Value(
            ValueFault::Unassigned,
        ))),
        Reading::Exists | Reading::ExistsAt(_) => Ok(Moved::Done(Found::Value(Value::Truth(
            false,
        )))),
        Reading::Size => Ok(Moved::Done(Found::Value(Value::Whole(0)))),
    }
}

/// Asks for a parameter of a submodule, which is there.
fn of_child<'m>(
    alloc: Global,
    site: &Module,
    name: &Text,
    index: Option<u32>,
    parameter: Text,
) -> Result<Moved<'m>, InsideError>
    ensures moves { (s : ModuleRules)
        → Moves s result (values.of_child site.now name.now index parameter) }
    ensures costs { (s : ModuleRules) → Costs s 1 result }
{
    let child = site.child(alloc, name, index)?;
    let key = child.key(alloc, What::Param(parameter))?;
    Ok(Moved::Asks(key, KeyProgress::Same))
}

/// Asks how many elements a vector has.
fn counting<'m>(
    alloc: Global,
    site: Module,
    name: Text,
    reading: Reading,
) -> Result<Moved<'m>, InsideError>
    ensures moves { (s : ModuleRules) → Moves s result (going.counting site name reading) }
    ensures costs { (s : ModuleRules) → Costs s 2 result }
{
    let key = site.key(alloc, What::VectorSize(name.copy(alloc)?))?;
    Ok(Moved::Asks(key, KeyProgress::VectorSize(site, name, reading)))
}

/// Of one that is there.
fn there<'m>(
    alloc: Global,
    site: Module,
    name: Text,
    reading: Reading,
) -> Result<Moved<'m>, InsideError>
    ensures moves { (s : ModuleRules) → Moves s result (going.there site name reading) }
    ensures costs { (s : ModuleRules) → Costs s 2 result }
{
    match reading {
        Reading::Member(parameter) => of_child(alloc, &site, &name, None, parameter),
        Reading::Exists => Ok(Moved::Done(Found::Value(Value::Truth(true)))),
        Reading::Element(index, parameter) => {
            counting(alloc, site, name, Reading::Element(index, parameter))
        }
        Reading::ExistsAt(index) => counting(alloc, site, name, Reading::ExistsAt(index)),
        Reading::Size => counting(alloc, site, name, Reading::Size),
    }
}

/// The index, where it is one of so many.
fn among(count: u32, index: i64) -> Option<u32>
    ensures { (m : module_type) → result ≡ values.among m count (natural index) }
{
    if index < 0 {
        return None;
    }
    if (index as u64) < u64::from(count) {
        Some(index as u32)
    } else {
        None
    }
}

/// A parameter of an element, where it is there.
fn at_index<'m>(
    alloc: Global,
    site: &Module,
    name: &Text,
    index: Option<u32>,
    parameter: Text,
) -> Result<Moved<'m>, InsideError>
    ensures moves { (s : ModuleRules)
        → Moves s result (values.at_index site.now name.now parameter index) }
    ensures costs { (s : ModuleRules) → Costs s 1 result }
{
    match index {
        Some(index) => of_child(alloc, site, name, Some(index), parameter),
        None => Err(InsideError::Fault(ModelFault::Value(ValueFault::Unassigned))),
    }
}

/// Of a vector of so many elements.
fn counted<'m>(
    alloc: Global,
    site: &Module,
    name: &Text,
    reading: Reading,
    count: u32,
) -> Result<Moved<'m>, InsideError>
    ensures moves { (s : ModuleRules)
        → Moves s result (going.counted site.now name.now reading count) }
    ensures costs { (s : ModuleRules) → Costs s 1 result }
{
    match reading {
        Reading::Member(_) | Reading::Exists => Err(InsideError::Fault(ModelFault::Value(
            ValueFault::Unassigned,
        ))),
        Reading::Element(index, parameter) => {
            at_index(alloc, site, name, among(count, index), parameter)
        }
        Reading::ExistsAt(index) => {
            let is_there = among(count, index).is_some();
            Ok(Moved::Done(Found::Value(Value::Truth(is_there))))
        }
        Reading::Size => Ok(Moved::Done(Found::Value(Value::Whole(i64::from(count))))),
    }
}

/// Whether it is read of what is a vector, or is none.
fn fits(reading: &Reading, is_vector: bool) -> bool
    ensures { result ≡ going.fits reading.now is_vector }
{
    match reading {
        Reading::Member(_) | Reading::Exists => !is_vector,
        Reading::Element(_, _) | Reading::ExistsAt(_) | Reading::Size => is_vector,
    }
}

/// Begins to read what is declared so: its condition comes first.
fn read_declared<'m>(
    alloc: Global,
    site: Module,
    reading: Reading,
    submodule: &Submodule,
) -> Result<Moved<'m>, InsideError>
    ensures moves { (s : ModuleRules)
        → Moves s result (going.read site reading (Some submodule.now)) }
    ensures costs { (s : ModuleRules) → Costs s 3 result }
{
    if !fits(&reading, submodule.size.is_some()) {
        return unread(&reading);
    }
    let name = submodule.name.copy(alloc)?;
    if submodule.condition.is_some() {
        let key = site.key(alloc, What::Condition(submodule.name.copy(alloc)?))?;
        return Ok(Moved::Asks(key, KeyProgress::Condition(site, name, reading)));
    }
    there(alloc, site, name, reading)
}

/// Begins to read of a submodule, where one is declared.
pub fn read<'m>(
    alloc: Global,
    site: Module,
    reading: Reading,
    submodule: Option<&Submodule>,
) -> Result<Moved<'m>, InsideError>
    ensures moves { (s : ModuleRules)
        → Moves s result (going.read site reading (option_copied submodule.entry)) }
    ensures costs { (s : ModuleRules) → Costs s 3 result }
{
    match submodule {
        Some(submodule) => read_declared(alloc, site, reading, submodule),
        None => unread(&reading),
    }
}

/// Goes on with the value of the condition.
pub fn held<'m>(
    alloc: Global,
    site: Module,
    name: Text,
    reading: Reading,
    value: &Value,
) -> Result<Moved<'m>, InsideError>
    ensures moves { (s : ModuleRules) → Moves s result
        (goes_on s (waits.Condition site name reading) (found_as.Value value.now)) }
    ensures costs { (s : ModuleRules) → Costs s 2 result }
{
    match value {
        Value::Truth(true) => there(alloc, site, name, reading),
        Value::Truth(false) => absent(&reading),
        _ => Err(InsideError::Fault(ModelFault::Value(ValueFault::Mismatch))),
    }
}

/// Goes on with the number of elements.
pub fn sized<'m>(
    alloc: Global,
    site: Module,
    name: Text,
    reading: Reading,
    value: &Value,
) -> Result<Moved<'m>, InsideError>
    ensures moves { (s : ModuleRules) → Moves s result
        (goes_on s (waits.VectorSize site name reading) (found_as.Value value.now)) }
    ensures costs { (s : ModuleRules) → Costs s 1 result }
{
    let count = size(value)?;
    counted(alloc, &site, &name, reading, count)
}
