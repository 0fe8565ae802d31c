//! What an edit gave up of the values of a model, and what of it is known again.

ghost use Rattle.std.specs.Prelude.{◌≡◌, true, Some, Ok, slice_get};
ghost use Rattle.std.specs.Option.{option_copied};
ghost use Rattle.inside_edits.specs.Standing.{ServesStill};
ghost use Rattle.inside_keys.specs.Keys.{key, same_key};
ghost use Rattle.inside_keys.specs.Values.{rules_of, value_at};
ghost use Rattle.inside_keys.specs.declared.found.Found.{Found as FoundValue};
ghost use Rattle.inside_keys.specs.declared.key.What.TheVariants as what;
ghost use Rattle.inside_uses.specs.Uses.{is_of_inner, HasValue};
ghost use Rattle.model_keeping.specs.Held.{known_now, AllServeStill, AreFoundFor, AreValuesOf};
ghost use Rattle.model_settings.specs.Standings.{setting_of};
ghost use Rattle.param_engine.specs.Tables.{known, IsKept};
ghost use Rattle.param_keeping.specs.Stores.{store_of, IsShaped};
ghost use Rattle.param_keeping.specs.Stores.{value_at as value_stored};

use crate::store::ValueStore;
use inside_keys::found::Found;
use inside_keys::key::{Key, Module, What};
use inside_run::values::value_of;
use model_settings::setting::ModelSetting;
use param_engine::table::Table;
use rest_index::giving_up::{asked_of, is_live};
use sim_values::NoMemory;
use sqlite_items::Items;
use std::alloc::Global;

/// How many values are found anew at most, beside those that are kept.
const MOST_SINCE: usize = 4096;

// ---- parameters

/// Finds the value of a key anew, where it is a parameter.
fn find_parameter(
    alloc: Global,
    after: &ModelSetting<'_>,
    key: &Key,
    since: &mut Table<Key, Found>,
) -> Result<(), NoMemory>
    requires { IsKept (rules_of (setting_of after.now)) since.old.entries }
    ensures { IsKept (rules_of (setting_of after.now)) since.new.entries }
{
    if let What::Param(name) = &key.what {
        let name = name.copy(alloc)?;
        let key = key.site.key(alloc, What::Param(name))?;
        let _found = value_of(alloc, after, since, key)?;
    }
    Ok(())
}

/// Finds the value at a place anew, where it counts no more and is that of a parameter.
fn find_again(
    alloc: Global,
    after: &ModelSetting<'_>,
    store: &ValueStore,
    closed: &[bool],
    place: usize,
    since: &mut Table<Key, Found>,
) -> Result<(), NoMemory>
    requires { IsKept (rules_of (setting_of after.now)) since.old.entries }
    ensures { IsKept (rules_of (setting_of after.now)) since.new.entries }
{
    if is_live(closed, place) {
        return Ok(());
    }
    match store.kept.key(place) {
        Some(key) => find_parameter(alloc, after, key, since),
        None => Ok(()),
    }
}

/// Finds the values of all parameters anew that count no more by these flags. Whether they were not
/// too many.
pub(crate) fn are_found_again(
    alloc: Global,
    after: &ModelSetting<'_>,
    store: &ValueStore,
    closed: &[bool],
    since: &mut Table<Key, Found>,
) -> Result<bool, NoMemory>
    requires { IsKept (rules_of (setting_of after.now)) since.old.entries }
    ensures { IsKept (rules_of (setting_of after.now)) since.new.entries }
{
    for place in 0..store.kept.len() {
        find_again(alloc, after, store, closed, place, since)?;
        if since.len() > MOST_SINCE {
            return Ok(false);
        }
    }
    Ok(true)
}

// ---- insides

/// Whether a key is a parameter of a module whose path is longer than that of this one.
fn is_of_inner(site: &Module, key: &Key) -> bool
    ensures { result ≡ is_of_inner site.now key.now }
{
    matches!(&key.what, What::Param(_))
        && site.path.as_bytes().len() < key.site.path.as_bytes().len()
}

/// Whether there is the value of an expression.
fn has_value(found: Option<&Found>) -> bool
    ensures { result ≡ true → HasValue (option_copied found.entry) }
{
    matches!(found, Some(Found::Value(_)))
}

/// The value of a key among those that were found since.
fn value_since<'a>(since: &'a Table<Key, Found>, key: &Key) -> Option<&'a Found>
    ensures { option_copied result ≡ known same_key since.now.entries key.now }
{
    match since.find(key) {
        Some((_, found)) => Some(found),
        None => None,
    }
}

/// Whether a key is a parameter of an inner module, and both what stands at its place and what was
/// found since are values.
fn has_others(
    store: &ValueStore,
    since: &Table<Key, Found>,
    site: &Module,
    place: usize,
    key: &Key,
) -> bool
    ensures { result ≡ true → (is_of_inner site.now key.now ≡ true)
        × (HasValue (value_stored store.now.kept.entries place)
        × HasValue (known same_key since.now.entries key.now)) }
{
    is_of_inner(site, key)
        && has_value(store.kept.value(place))
        && has_value(value_since(since, key))
}

/// Whether it is seen that another value of a key at a place, which counts no more, serves as well for
/// the inside of that module.
fn other_serves(
    store: &ValueStore,
    closed: &[bool],
    since: &Table<Key, Found>,
    site: &Module,
    place: usize,
) -> bool
    requires { IsShaped same_key (store_of store.now.kept closed.now) }
    ensures { result ≡ true → ServesStill site.now (store_of store.now.kept store.now.live)
        (known_now store.now.kept closed.now since.now.entries) place }
{
    let Some(key) = store.kept.key(place) else {
        return false;
    };
    match store.kept.find(key, closed) {
        Some(_) => false,
        None => has_others(store, since, site, place, key),
    }
}

/// Whether it is seen that what is known now of the key at a place serves for the inside of that
/// module.
fn serves(
    store: &ValueStore,
    closed: &[bool],
    since: &Table<Key, Found>,
    site: &Module,
    place: usize,
) -> bool
    requires { IsShaped same_key (store_of store.now.kept closed.now) }
    ensures { result ≡ true → ServesStill site.now (store_of store.now.kept store.now.live)
        (known_now store.now.kept closed.now since.now.entries) place }
{
    is_live(closed, place) || other_serves(store, closed, since, site, place)
}

/// Whether it is seen of all these places.
fn all_serve(
    store: &ValueStore,
    closed: &[bool],
    since: &Table<Key, Found>,
    site: &Module,
    places: &[usize],
) -> bool
    requires { IsShaped same_key (store_of store.now.kept closed.now) }
    ensures { result ≡ true → AllServeStill site.now (store_of store.now.kept store.now.live)
        (known_now store.now.kept closed.now since.now.entries) places.now }
{
    for place in places {
        if !serves(store, closed, since, site, *place) {
            return false;
        }
    }
    true
}

/// Whether the inside that stands at a place, that of this module, is seen to be what it was.
fn is_inside_still(
    store: &ValueStore,
    after: &ModelSetting<'_>,
    closed: &[bool],
    since: &Table<Key, Found>,
    site: &Module,
    place: usize,
) -> bool
    requires { AreFoundFor after.now store.now.kept store.now.live closed.now since.now.entries }
    ensures { result ≡ true → (v : FoundValue)
        → slice_get store.now.kept.entries place ≡ Some (key site.now what.Inside, v)
        → value_at (setting_of after.now) (key site.now what.Inside) ≡ Ok v }
{
    let _few = store.kept.len();
    let _found = since.len();
    is_live(store.live.as_slice(), place)
        && all_serve(
            store,
            closed,
            since,
            site,
            asked_of(store.kept.rows(), place),
        )
}

/// Whether something of a module is its inside.
fn is_inside(of: &What) -> bool
    ensures { result ≡ true → of.now ≡ what.Inside }
{
    matches!(of, What::Inside)
}

/// Where an inside stands at a place, which counts no more, it may be read. Whether it is seen to be
/// what it was.
fn is_read_still(
    store: &ValueStore,
    after: &ModelSetting<'_>,
    closed: &[bool],
    since: &Table<Key, Found>,
    place: usize,
    read: &mut Items<bool>,
) -> bool
    requires found { AreFoundFor after.now store.now.kept store.now.live closed.now since.now.entries }
    requires read { AreValuesOf (setting_of after.now) (store_of store.now.kept read.old) }
    ensures { AreValuesOf (setting_of after.now) (store_of store.now.kept read.new) }
{
    let Some(key) = store.kept.key(place) else {
        return true;
    };
    if !is_inside(&key.what) {
        return true;
    }
    if place >= read.len() || !is_inside_still(store, after, closed, since, &key.site, place) {
        return false;
    }
    read.set(place, true);
    true
}

/// All insides may be read that stand in a store. Whether each of those that count no more by these
/// flags is seen to be what it was.
pub(crate) fn are_insides_still(
    store: &ValueStore,
    after: &ModelSetting<'_>,
    closed: &[bool],
    since: &Table<Key, Found>,
    read: &mut Items<bool>,
) -> bool
    requires found { AreFoundFor after.now store.now.kept store.now.live closed.now since.now.entries }
    requires read { AreValuesOf (setting_of after.now) (store_of store.now.kept read.old) }
    ensures { AreValuesOf (setting_of after.now) (store_of store.now.kept read.new) }
{
    for place in 0..store.kept.len() {
        if !is_live(closed, place) && !is_read_still(store, after, closed, since, place, read) {
            return false;
        }
    }
    true
}
