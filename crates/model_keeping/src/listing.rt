//! A store of values that are there.

ghost use Rattle.std.specs.Prelude.{◌≡◌, ◌<◌, Some, ℕ, List, IfOk, OnOk};
ghost use Rattle.model_keeping.specs.Paths.{path_of_place};
ghost use Rattle.place_index.specs.Listed.{under_of};
ghost use Rattle.place_index.specs.Listing.{ListsMore};
ghost use Rattle.place_index.specs.Places.{IsListed};
ghost use Rattle.inside_keys.specs.Values.{rules_of};
ghost use Rattle.model_keeping.specs.Keeping.{AreItsValues};
ghost use Rattle.model_settings.specs.Standings.{setting_of};
ghost use Rattle.param_engine.specs.Tables.{IsKept};
ghost use Rattle.param_keeping.specs.Stores.{store_of};

use crate::paths::path_of;
use crate::store::ValueStore;
use inside_keys::found::Found;
use inside_keys::key::Key;
use inside_run::asker::Keys;
use model_settings::setting::ModelSetting;
use param_base::absorbing::absorb;
use param_engine::table::Table;
use param_keeping::table::Kept;
use place_index::index::PlaceIndex;
use sim_values::NoMemory;
use sqlite_items::Items;
use std::alloc::Global;

/// Lists a place by the path that its key reads, if it reads one.
fn list_place(
    alloc: Global,
    kept: &Kept<Key, Found>,
    index: &mut PlaceIndex,
    place: usize,
) -> Result<(), NoMemory>
    ensures more { ListsMore (under_of index.old) (under_of index.new) }
    ensures own { OnOk result ((path : List ℕ) → path_of_place kept.now.entries place ≡ Some path
        → IsListed place path (under_of index.new)) }
{
    let Some(key) = kept.key(place) else {
        return Ok(());
    };
    match path_of(alloc, key)? {
        Some(path) => index.list(alloc, place, &path),
        None => Ok(()),
    }
}

impl ValueStore {
    /// A store of these values, which count by these flags.
    fn new(alloc: Global, kept: Kept<Key, Found>, live: Items<bool>) -> Result<ValueStore, NoMemory>
        ensures kept { IfOk result (λ store. store.kept ≡ kept) }
        ensures live { IfOk result (λ store. store.live ≡ live) }
    {
        let mut index = PlaceIndex::new(alloc);
        for place in 0..kept.len() {
            list_place(alloc, &kept, &mut index, place)?;
        }
        Ok(ValueStore { kept, index, live })
    }

    /// A store of the values that were found for a model. Answers `NoMemory` if memory runs out.
    pub fn of_values(
        alloc: Global,
        setting: &ModelSetting<'_>,
        found: Table<Key, Found>,
    ) -> Result<ValueStore, NoMemory>
        requires { IsKept (rules_of (setting_of setting.now)) found.entries }
        ensures { IfOk result (λ store. AreItsValues setting.now (store_of store.kept store.live)) }
    {
        let mut kept = Kept::new(alloc);
        let mut live = Items::new(alloc);
        absorb(alloc, &Keys { scene: setting }, &mut kept, &mut live, found)?;
        let _few = kept.len();
        ValueStore::new(alloc, kept, live)
    }
}
