//! Values of keys, read where they stand.

ghost use Rattle.std.specs.Prelude.{◌≡◌, IfOk, Some};
ghost use Rattle.std.specs.Option.{option_copied};
ghost use Rattle.param_engine.specs.Tables.{IsKept};
ghost use Rattle.inside_keys.specs.Keys as keys;
ghost use Rattle.inside_keys.specs.Values.{rules_of, value_at};
ghost use Rattle.model_answers.specs.Keyed as keyed;
ghost use Rattle.model_answers.specs.Reading.{maybe_copied, settings_of, spotted, standing_at};
ghost use Rattle.model_answers.specs.Reading.{IsRight};

use inside_keys::found::Found;
use inside_keys::key::{Key, Module, What};
use inside_run::values;
use model_keeping::values::{ReadValues, ValuePlace, known};
use model_settings::created::RunSetting;
use param_engine::table::Table;
use sim_values::NoMemory;
use sim_values::model_fault::ModelFault;
use sim_values::text::Text;
use std::alloc::Global;

/// What a model says of its modules, with those of a line that were created, and values that are
/// kept of these.
#[derive(Clone, Copy)]
pub struct Sources<'a> {
    pub setting: &'a RunSetting<'a>,
    pub kept: ReadValues<'a>,
}

/// Where a value stands: at a place among those that are kept, or of the table that was filled for a
/// question.
#[derive(Clone, Copy)]
pub enum Spot {
    Kept(ValuePlace),
    Own(usize),
}

/// A table of which nothing is known.
pub fn own_table(alloc: Global, from: Sources<'_>) -> Table<Key, Found>
    ensures { IsKept (rules_of (settings_of from.entry)) result.entries }
{
    values::empty_table(alloc, from.setting)
}

/// Where the value of a key stands, or its fault. One that isn't kept is found, and noted in the
/// other table.
pub fn find(
    alloc: Global,
    from: Sources<'_>,
    own: &mut Table<Key, Found>,
    key: Key,
) -> Result<Result<Spot, ModelFault>, NoMemory>
    requires right { IsRight from }
    requires own { IsKept (rules_of (settings_of from)) own.old.entries }
    ensures value { IfOk result (λ found. spotted from.entry own.new.entries found
        ≡ Some (value_at (settings_of from.entry) key)) }
    ensures kept { IsKept (rules_of (settings_of from.entry)) own.new.entries }
{
    if let Some(place) = known(from.setting, from.kept, &key) {
        return Ok(Ok(Spot::Kept(place)));
    }
    match values::value_of(alloc, from.setting, own, key)? {
        Ok(place) => Ok(Ok(Spot::Own(place))),
        Err(fault) => Ok(Err(fault)),
    }
}

/// What stands there.
fn read<'a>(from: Sources<'a>, own: &'a Table<Key, Found>, spot: Spot) -> Option<&'a Found>
    ensures { option_copied result ≡ standing_at from.entry own.now.entries spot }
{
    match spot {
        Spot::Kept(place) => from.kept.value(place),
        Spot::Own(place) => own.value(place),
    }
}

/// What was found, where it stands; none where nothing stands there.
pub fn said<'a>(
    from: Sources<'a>,
    own: &'a Table<Key, Found>,
    found: Result<Spot, ModelFault>,
) -> Option<Result<&'a Found, ModelFault>>
    ensures { maybe_copied result ≡ spotted from.entry own.now.entries found }
{
    match found {
        Ok(spot) => match read(from, own, spot) {
            Some(value) => Some(Ok(value)),
            None => None,
        },
        Err(fault) => Some(Err(fault)),
    }
}

/// The module of that path, where none was created while the model ran.
pub fn module_of(alloc: Global, path: &[u8]) -> Result<Module, NoMemory>
    ensures { IfOk result (λ m. m ≡ keyed.module_at path.now) }
{
    Ok(Module {
        created: 0,
        path: Text::from_bytes(alloc, path)?,
    })
}

/// Where the value of something of a module stands, or its fault.
pub fn value_of(
    alloc: Global,
    from: Sources<'_>,
    own: &mut Table<Key, Found>,
    site: &Module,
    what: What,
) -> Result<Result<Spot, ModelFault>, NoMemory>
    requires right { IsRight from }
    requires own { IsKept (rules_of (settings_of from)) own.old.entries }
    ensures value { IfOk result (λ found. spotted from.entry own.new.entries found
        ≡ Some (keyed.value_of (settings_of from.entry) site.now what)) }
    ensures kept { IsKept (rules_of (settings_of from.entry)) own.new.entries }
{
    let key = site.key(alloc, what)?;
    find(alloc, from, own, key)
}
