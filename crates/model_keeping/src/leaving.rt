//! What an edit of the ini text leaves of the values of a model.

ghost use Rattle.std.specs.Prelude.{◌≡◌, [], IfOk};
ghost use Rattle.std.specs.List.{All};
ghost use Rattle.edit_places.specs.Edited.{AreReached, IsRead, NoneIsMissed};
ghost use Rattle.inside_keys.specs.Keys.{same_key};
ghost use Rattle.model_keeping.specs.Paths.{path_of_place};
ghost use Rattle.model_keeping.specs.Storing.{AreValuesOfEdited, IsLeftByEdit};
ghost use Rattle.param_keeping.specs.Stores.{store_of, IsShaped};
ghost use Rattle.rest_index.specs.Rests.{IsLeft};

use crate::laws::kept_is_new;
use crate::paths::KeyPaths;
use crate::store::ValueStore;
use edit_places::places::reached_places;
use ini_index::list::EntryList;
use inside_keys::found::Found;
use inside_keys::key::Key;
use param_keeping::table::Kept;
use rest_index::giving_up::{Flags, copy_flags};
use sim_values::NoMemory;
use sqlite_items::Items;
use std::alloc::Global;

/// Gives up the values at these places, with all that rest on them, by flags of its own.
fn given_up(
    alloc: Global,
    kept: &Kept<Key, Found>,
    live: &[bool],
    seeds: &[usize],
) -> Result<Flags, NoMemory>
    requires shaped { IsShaped same_key (store_of kept.now live.now) }
    ensures { IfOk result (λ flags. IsLeft kept.now.rows seeds.now live.now flags.given flags.live) }
{
    let mut flags = copy_flags(alloc, live)?;
    kept.give_up(alloc, &mut flags, seeds)?;
    Ok(flags)
}

impl ValueStore {
    /// The places of whose paths the entries say something else.
    fn seeds(
        &self,
        alloc: Global,
        before: &EntryList<'_>,
        after: &EntryList<'_>,
    ) -> Result<Items<usize>, NoMemory>
        requires before { All IsRead before.now }
        requires after { All IsRead after.now }
        ensures reached { IfOk result
            (AreReached (path_of_place self.now.kept.entries) before.now after.now) }
        ensures missed { IfOk result
            (NoneIsMissed (path_of_place self.now.kept.entries) before.now after.now) }
    {
        reached_places(
            alloc,
            before,
            after,
            &self.index,
            &KeyPaths { kept: &self.kept },
        )
    }

    /// What an edit of the ini text leaves of the values that count by these flags: other flags. The
    /// entries are those along the chain before the edit and after it, as they were read of texts. It
    /// takes the time of the entries, of a copy of the flags, and of what is given up.
    ///
    /// Answers `NoMemory` if memory runs out.
    pub fn left_by_edit(
        &self,
        alloc: Global,
        live: &[bool],
        before: &EntryList<'_>,
        after: &EntryList<'_>,
    ) -> Result<Flags, NoMemory>
        requires shaped { IsShaped same_key (store_of self.now.kept live.now) }
        requires before { All IsRead before.now }
        requires after { All IsRead after.now }
        ensures left { IfOk result
            (IsLeftByEdit self.now.kept live.now before.now after.now) }
        ensures values { IfOk result (λ flags.
            AreValuesOfEdited self.now.kept live.now before.now after.now flags.live) }
    {
        kept_is_new();
        let seeds = self.seeds(alloc, before, after)?;
        given_up(alloc, &self.kept, live, seeds.as_slice())
    }
}
