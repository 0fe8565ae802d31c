//! The values of a model, to be read.

ghost use Rattle.std.specs.Prelude.{◌≡◌, Some, None, IfSome};
ghost use Rattle.std.specs.Option.{option_copied};
ghost use Rattle.inside_keys.specs.Values.{value_at};
ghost use Rattle.model_keeping.specs.Held.{standing, stored_at, AreRight, AreRightStored};
ghost use Rattle.param_engine.specs.Tables.{said};
ghost use Rattle.param_keeping.specs.Stores.{value_at as value_stored};

use inside_keys::found::Found;
use inside_keys::key::Key;
use inside_run::scene::ModuleSource;
use param_engine::table::Table;
use param_keeping::table::Kept;

/// Values of a store, of which those may be read that have their flag.
#[derive(Clone, Copy)]
pub struct StoredValues<'a> {
    pub(crate) kept: &'a Kept<Key, Found>,
    pub(crate) read: &'a [bool],
}

/// The values of a model: those of a store, if there is one, and others that were found since.
#[derive(Clone, Copy)]
pub struct ReadValues<'a> {
    pub(crate) stored: Option<StoredValues<'a>>,
    pub(crate) since: &'a Table<Key, Found>,
}

/// Where a value stands.
#[derive(Clone, Copy)]
pub enum ValuePlace {
    /// At this place of the store.
    Stored(usize),
    /// At this place among those that were found since.
    Since(usize),
}

/// The values of a table alone.
pub fn of_table(since: &Table<Key, Found>) -> ReadValues<'_>
    ensures stored { result.stored ≡ None }
    ensures since { result.since ≡ since.entry }
{
    ReadValues {
        stored: None,
        since,
    }
}

/// The place of a key among values of a store, where it may be read.
fn read_place<S: ModuleSource>(_scene: &S, stored: StoredValues<'_>, key: &Key) -> Option<usize>
    requires { AreRightStored (S.setting _scene.now) stored }
    ensures { IfSome result (λ place. said (value_stored stored.entry.kept.now.entries place)
        ≡ Some (value_at (S.setting _scene.now) key.now)) }
{
    match stored.kept.look_up(key, stored.read) {
        Some((place, _)) => Some(place),
        None => None,
    }
}

/// The same, where there is a store.
fn stored_place<S: ModuleSource>(
    _scene: &S,
    stored: Option<StoredValues<'_>>,
    key: &Key,
) -> Option<usize>
    requires { IfSome stored (AreRightStored (S.setting _scene.now)) }
    ensures { IfSome result (λ place. said (stored_at stored.entry place)
        ≡ Some (value_at (S.setting _scene.now) key.now)) }
{
    match stored {
        Some(stored) => read_place(_scene, stored, key),
        None => None,
    }
}

/// The place of the value of a key, where it is known. Nothing is evaluated.
pub fn known<S: ModuleSource>(_scene: &S, values: ReadValues<'_>, key: &Key) -> Option<ValuePlace>
    requires { AreRight (S.setting _scene.now) values }
    ensures { IfSome result (λ place. said (standing values.entry place)
        ≡ Some (value_at (S.setting _scene.now) key.now)) }
{
    if let Some(place) = stored_place(_scene, values.stored, key) {
        return Some(ValuePlace::Stored(place));
    }
    match inside_run::values::known(_scene, values.since, key) {
        Some(place) => Some(ValuePlace::Since(place)),
        None => None,
    }
}

/// What stands at a place of a store, where there is one.
fn stored_at<'a>(stored: Option<StoredValues<'a>>, place: usize) -> Option<&'a Found>
    ensures { option_copied result ≡ stored_at stored.entry place }
{
    match stored {
        Some(stored) => stored.kept.value(place),
        None => None,
    }
}

impl<'a> ReadValues<'a> {
    /// What stands there.
    pub fn value(self, place: ValuePlace) -> Option<&'a Found>
        ensures { option_copied result ≡ standing self.entry place }
    {
        match place {
            ValuePlace::Stored(place) => stored_at(self.stored, place),
            ValuePlace::Since(place) => self.since.value(place),
        }
    }
}
