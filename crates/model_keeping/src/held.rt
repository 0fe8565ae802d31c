//! The values that a model holds over edits of its ini text.

ghost use Rattle.std.specs.Prelude.{◌≡◌, IfOk, IfSome};
ghost use Rattle.inside_keys.specs.Values.{rules_of};
ghost use Rattle.model_data.specs.declared.model.Model.{Model};
ghost use Rattle.model_keeping.specs.Held.{AreFoundFor, AreRight, HoldsValues};
ghost use Rattle.model_keeping.specs.Keeping.{AreItsValues, IsIniEdited};
ghost use Rattle.model_settings.specs.Standings.{setting_of};
ghost use Rattle.param_engine.specs.Tables.{IsKept};
ghost use Rattle.param_keeping.specs.Stores.{store_of};
ghost use Rattle.same_entries.specs.Counted.{AreSaid};

use crate::again::{are_found_again, are_insides_still};
use crate::store::ValueStore;
use crate::values::{ReadValues, StoredValues};
use inside_keys::found::Found;
use inside_keys::key::Key;
use inside_run::values::empty_table;
use model_settings::setting::ModelSetting;
use param_engine::table::Table;
use sim_values::NoMemory;
use sqlite_items::Items;
use std::alloc::Global;
use std::rc::Rc;

/// The values that a model holds. Those of a first model stand in a store, which the models share that
/// edits of its ini text made of it.
pub struct HeldValues {
    pub(crate) store: Rc<ValueStore>,
    /// For each place of the store whether its value counts: it is that of the model, and so are all
    /// that it asked for.
    pub(crate) closed: Items<bool>,
    /// For each place whether its value may be read: it is that of the model.
    pub(crate) read: Items<bool>,
    /// What was found besides.
    pub(crate) since: Table<Key, Found>,
}

// Written out, so that a crate which drops one need not prove what that does.
impl Drop for HeldValues {
    fn drop(self) {
        let HeldValues {
            store: _,
            closed: _,
            read: _,
            since: _,
        } = self;
    }
}

/// A store in a place that models can share.
fn shared(alloc: Global, store: ValueStore) -> Result<Rc<ValueStore>, NoMemory>
    ensures { IfOk result (λ place. place.value ≡ store) }
{
    match Rc::new(alloc, store) {
        Ok(place) => Ok(place),
        Err(failed) => Err(failed.into()),
    }
}

impl HeldValues {
    /// The values that were found for a model.
    pub fn new(
        alloc: Global,
        setting: &ModelSetting<'_>,
        found: Table<Key, Found>,
    ) -> Result<HeldValues, NoMemory>
        requires { IsKept (rules_of (setting_of setting.now)) found.entries }
        ensures { IfOk result (HoldsValues setting.now) }
    {
        let store = ValueStore::of_values(alloc, setting, found)?;
        let closed = Items::from_slice(alloc, store.live.as_slice())?;
        let read = Items::from_slice(alloc, store.live.as_slice())?;
        Ok(HeldValues {
            store: shared(alloc, store)?,
            closed,
            read,
            since: empty_table(alloc, setting),
        })
    }

    /// All of them, to be read.
    pub fn values(&self) -> ReadValues<'_>
        ensures { (m : Model) → HoldsValues m self.now → AreRight (setting_of m) result }
    {
        ReadValues {
            stored: Some(StoredValues {
                kept: &self.store.kept,
                read: self.read.as_slice(),
            }),
            since: &self.since,
        }
    }

    /// Which of them an edit of the ini text leaves: the flags of those that count.
    fn left(
        &self,
        alloc: Global,
        before: &ModelSetting<'_>,
        after: &ModelSetting<'_>,
    ) -> Result<Items<bool>, NoMemory>
        requires held { HoldsValues before.now self.now }
        requires edited { IsIniEdited before.now after.now }
        requires before { AreSaid before.now.ini }
        requires after { AreSaid after.now.ini }
        ensures { IfOk result
            (λ closed. AreItsValues after.now (store_of self.now.store.value.kept closed)) }
    {
        let closed = self.closed.as_slice();
        let flags = self
            .store
            .left_by_edit(alloc, closed, &before.entries(), &after.entries())?;
        Ok(flags.live)
    }

    /// Of a model the values that count by these flags, those that were found since, and the insides
    /// that are what they were; none where an inside is not seen to be that.
    fn with_insides(
        &self,
        alloc: Global,
        after: &ModelSetting<'_>,
        closed: Items<bool>,
        since: Table<Key, Found>,
    ) -> Result<Option<HeldValues>, NoMemory>
        requires { AreFoundFor after.now self.now.store.value.kept self.now.store.value.live closed
            since.entries }
        ensures { IfOk result (λ held. IfSome held (HoldsValues after.now)) }
    {
        let mut read = Items::from_slice(alloc, closed.as_slice())?;
        if !are_insides_still(&self.store, after, closed.as_slice(), &since, &mut read) {
            return Ok(None);
        }
        let store = self.store.clone()?;
        Ok(Some(HeldValues {
            store,
            closed,
            read,
            since,
        }))
    }

    /// Of a model the values that count by these flags, and all parameters that don't, found anew; none
    /// where these are too many, or an inside is not seen to be what it was.
    fn with_parameters(
        &self,
        alloc: Global,
        after: &ModelSetting<'_>,
        closed: Items<bool>,
    ) -> Result<Option<HeldValues>, NoMemory>
        requires first { (first : Model)
            × AreItsValues first (store_of self.now.store.value.kept self.now.store.value.live)
            × IsIniEdited first after.now }
        requires closed { AreItsValues after.now (store_of self.now.store.value.kept closed) }
        ensures { IfOk result (λ held. IfSome held (HoldsValues after.now)) }
    {
        let mut since = empty_table(alloc, after);
        if !are_found_again(alloc, after, &self.store, closed.as_slice(), &mut since)? {
            return Ok(None);
        }
        self.with_insides(alloc, after, closed, since)
    }

    /// The values of a model that an edit of the ini text made of this one's: those that the edit
    /// leaves, and those of its parameters that are found anew. None where so many parameters have to
    /// be found, or where an inside may be another: then all values are to be found anew. It takes the
    /// time of a pass over the flags, and of what is given up.
    ///
    /// Answers `NoMemory` if memory runs out.
    pub fn edited(
        &self,
        alloc: Global,
        before: &ModelSetting<'_>,
        after: &ModelSetting<'_>,
    ) -> Result<Option<HeldValues>, NoMemory>
        requires held { HoldsValues before.now self.now }
        requires edited { IsIniEdited before.now after.now }
        requires before { AreSaid before.now.ini }
        requires after { AreSaid after.now.ini }
        ensures { IfOk result (λ held. IfSome held (HoldsValues after.now)) }
    {
        let closed = self.left(alloc, before, after)?;
        self.with_parameters(alloc, after, closed)
    }
}
