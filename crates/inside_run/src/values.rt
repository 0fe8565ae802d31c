//! Values of keys.

ghost use Rattle.std.specs.Prelude.{◌≡◌, ◌+◌, [], Ok, Some, IfOk, IfSome, OnOk, length};
ghost use Rattle.param_engine.specs.Tables.{IsFoundAt, IsKept, Begins, found_in};
ghost use Rattle.param_engine.specs.Working.{AreBegunOnce};
ghost use Rattle.inside_keys.specs.Values.{rules_of, value_at};

use crate::asker::Keys;
use crate::scene::ModuleSource;
use inside_keys::found::Found;
use inside_keys::key::Key;
use param_engine::engine;
use param_engine::table::Table;
use sim_values::NoMemory;
use sim_values::model_fault::ModelFault;
use std::alloc::Global;

/// A table of which nothing is known. It may be kept, whatever the model.
pub fn empty_table<S: ModuleSource>(alloc: Global, _scene: &S) -> Table<Key, Found>
    ensures entries { result.entries ≡ [] }
    ensures begun { result.begun ≡ 0 }
    ensures kept { IsKept (rules_of (S.setting _scene.now)) result.entries }
{
    engine::empty_table(alloc, &Keys { scene: _scene })
}

/// The value of a key, as its place in the table, or its fault. The table, of which nothing is
/// asked but that it knows values of this model, has what it had, and after that the values that
/// were found on the way; also after a fault, and after lack of memory.
pub fn value_of<S: ModuleSource>(
    alloc: Global,
    scene: &S,
    table: &mut Table<Key, Found>,
    key: Key,
) -> Result<Result<usize, ModelFault>, NoMemory>
    requires { IsKept (rules_of (S.setting scene.now)) table.old.entries }
    ensures value { IfOk result
        (λ found. found_in table.new.entries found ≡ Some (value_at (S.setting scene.now) key)) }
    // The place is that of the key, and its value there is the one that is known of it.
    ensures there { IfOk result (λ found. IfOk found
        (IsFoundAt (rules_of (S.setting scene.now)).same table.new.entries key)) }
    ensures kept { IsKept (rules_of (S.setting scene.now)) table.new.entries }
    ensures begins { Begins table.old.entries table.new.entries }
    // Each key was evaluated once at most: where there is a value, those that were added.
    ensures once { OnOk result (AreBegunOnce (rules_of (S.setting scene.now)) table.old.entries
        table.new.entries table.new.begun) }
    ensures counted { IfOk result (λ found. OnOk found (table.new.begun + length table.old.entries
        ≡ length table.new.entries)) }
{
    engine::value_of(alloc, &Keys { scene }, table, key)
}

/// The place of the value of a key, where the table knows it. Nothing is evaluated.
pub fn known<S: ModuleSource>(_scene: &S, table: &Table<Key, Found>, key: &Key) -> Option<usize>
    requires { IsKept (rules_of (S.setting _scene.now)) table.now.entries }
    ensures { IfSome result (λ place. found_in table.now.entries (Ok place)
        ≡ Some (value_at (S.setting _scene.now) key.now)) }
{
    let _len = table.len();
    if let Some((place, _)) = table.find(key) {
        return Some(place);
    }
    None
}
