//! The values of a model, which stay over edits of its ini text.

ghost use Rattle.model_keeping.specs.Paths.{path_of_place};
ghost use Rattle.place_index.specs.Listed.{under_of};
ghost use Rattle.place_index.specs.Places.{AreListed};

use inside_keys::found::Found;
use inside_keys::key::Key;
use param_keeping::table::Kept;
use place_index::index::PlaceIndex;
use sqlite_items::Items;

/// Values that are kept, and their places by the paths that their keys read in the ini text. They are
/// those of a model, all of which count by the flags that stand beside them. Which of them count for
/// a model that was edited is said by flags of its own.
pub struct ValueStore {
    pub(crate) kept: Kept<Key, Found>,
    pub(crate) index: PlaceIndex,
    pub(crate) live: Items<bool>,
    ghost listed: { AreListed (path_of_place kept.entries) (under_of index) },
}

// Written out, so that a crate which drops one need not prove what that does.
impl Drop for ValueStore {
    fn drop(self) {
        let ValueStore {
            kept: _,
            index: _,
            live: _,
        } = self;
    }
}
