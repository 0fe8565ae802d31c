//! The inside of a module, or its first fault with the path with which it is told.

ghost use Rattle.std.specs.Prelude.{◌≡◌, IfOk, not};
ghost use Rattle.std.specs.Option.{option_copied};
ghost use Rattle.param_engine.specs.Tables.{IsKept, Begins};
ghost use Rattle.inside_keys.specs.Blamed as blame;
ghost use Rattle.inside_keys.specs.Keys as keys;
ghost use Rattle.inside_keys.specs.Values.{asking_of, rules_of, value_at};
ghost use Rattle.inside_keys.specs.declared.key.What.TheVariants as of;

use crate::asker::Keys;
use crate::scene::ModuleSource;
use crate::values::value_of;
use inside_keys::found::Found;
use inside_keys::key::{Key, Module, What};
use param_engine::asker::Asker;
use param_engine::table::Table;
use param_engine::turn::EngineStep;
use sim_values::NoMemory;
use sim_values::model_fault::ModelFault;
use sim_values::text::Text;
use std::alloc::Global;

/// The path of a submodule, without an index.
fn line_path(alloc: Global, site: &Module, name: &Text) -> Result<Text, NoMemory>
    ensures { IfOk result
        (λ path. path ≡ blame.blamed_for site.now site.now (of.Condition name.now)) }
{
    let mut path = Vec::from_slice(alloc, site.path.as_bytes())?;
    path.push(b'.')?;
    path.extend_from_slice(name.as_bytes())?;
    Ok(Text::from_vec(path))
}

/// Whose path the fault of a key has that is no parameter of a submodule.
fn blamed_for(alloc: Global, site: &Module, key: &Key) -> Result<Text, NoMemory>
    ensures { IfOk result (λ path. path ≡ blame.blamed_for site.now key.now.site key.now.what) }
{
    match &key.what {
        What::Condition(sub) | What::VectorSize(sub) => line_path(alloc, site, sub),
        What::Declared(_) | What::Type => Ok(key.site.path.copy(alloc)?),
        _ => Ok(site.path.copy(alloc)?),
    }
}

/// Whether it is a parameter.
fn is_param(what: &What) -> bool
    ensures { result ≡ blame.is_param what.now }
{
    matches!(what, What::Param(_))
}

/// Whether it is that module.
fn is_at(module_there: Option<&Module>, site: &Module) -> bool
    ensures { result ≡ blame.is_at (option_copied module_there.entry) site.now }
{
    match module_there {
        Some(there) => there.created == site.created && there.path.is(site.path.as_bytes()),
        None => false,
    }
}

/// The path with which the fault of a key is told that the building of the inside asked for.
fn blamed(
    alloc: Global,
    site: &Module,
    around: Option<&Module>,
    key: &Key,
) -> Result<Text, NoMemory>
    ensures { IfOk result
        (λ path. path ≡ blame.blamed site.now (option_copied around.entry) key.now) }
{
    if !is_param(&key.what) || is_at(Some(site), &key.site) || is_at(around, &key.site) {
        blamed_for(alloc, site, key)
    } else {
        Ok(key.site.path.copy(alloc)?)
    }
}

/// What comes of the inside of a module, or the first fault with its path. Values are looked for in
/// the table, and noted there.
pub fn placed<S: ModuleSource>(
    alloc: Global,
    scene: &S,
    table: &mut Table<Key, Found>,
    site: &Module,
    around: Option<&Module>,
) -> Result<Result<Found, (Text, ModelFault)>, NoMemory>
    requires { IsKept (rules_of (S.setting scene.now)) table.old.entries }
    ensures placed { IfOk result (λ found. found
        ≡ blame.placed (value_at (S.setting scene.now)) site.now (option_copied around.entry)
        (asking_of (S.setting scene.now) (keys.key site.now of.Inside))) }
    ensures kept { IsKept (rules_of (S.setting scene.now)) table.new.entries }
{
    let asker = Keys { scene };
    let key = site.key(alloc, What::Inside)?;
    let (mut progress, mut turn) = asker.start(alloc, &key)?;
    loop {
        turn = match turn {
            EngineStep::Done(found) => return Ok(Ok(found)),
            EngineStep::Fault(fault) => return Ok(Err((site.path.copy(alloc)?, fault))),
            EngineStep::Ask(key) => {
                let path = blamed(alloc, site, around, &key)?;
                match value_of(alloc, scene, table, key)? {
                    Ok(place) => {
                        let value = table.value(place).unwrap();
                        asker.go_on(alloc, &mut progress, value)?
                    }
                    Err(fault) => return Ok(Err((path, fault))),
                }
            }
        };
    }
}
