//! Values that are kept, each in a place that stays.

ghost use Rattle.std.specs.Prelude.{◌≡◌, ℕ, [], None, Some, true, OnOk, OnErr, IfOk, IfSome};
ghost use Rattle.std.specs.Prelude.{◌+◌, ◌<◌, ◌^◌, length, slice_get, slice_set};
ghost use Rattle.std.specs.Option.{option_copied};
ghost use Rattle.rest_index.specs.Rests.{asked_of, is_among, is_live, IsLeft};
ghost use Rattle.param_keeping.specs.Added.{IsAdded, KnowsTheSame};
ghost use Rattle.param_keeping.specs.Stores.{key_at, known_in, one_more, store_of, value_at};
ghost use Rattle.param_keeping.specs.Stores.{AreOne, HasOnePlace, IsShaped, Keeping};

use indexmap::IndexMap;
use rest_index::giving_up::{Flags, give_up, is_live, take_back};
use rest_index::noting::note;
use rest_index::row::Row;
use sim_values::NoMemory;
use sqlite_items::Items;
use std::alloc::Global;
use std::hash::Hash;
use std::marker::Model;

/// Values that are kept, each in a place that stays, with what rests on what. Which of them count
/// is said by flags, one for each place, that a caller has beside it: so a model and an edited one
/// can both read it, each by its own flags.
#[derive(Drop)]
pub struct Kept<K: Eq + Hash, V> {
    entries: IndexMap<K, V>,
    rows: Vec<Row>,
    /// How many values were ever added.
    evaluations: u64,
}

impl<K: Eq + Hash, V> Model for Kept<K, V> {
    ghost Value = { Keeping K V };

    ghost view = { λ t. record {
      entries = t.entries.entries;
      rows = t.rows.items;
      evaluations = t.evaluations;
    } };
}

impl<K: Eq + Hash + Drop, V: Drop> Kept<K, V> {
    /// Nothing is kept.
    pub fn new(alloc: Global) -> Kept<K, V>
        ensures entries { result.entries ≡ [] }
        ensures rows { result.rows ≡ [] }
        ensures evaluations { result.evaluations ≡ 0 }
    {
        Kept {
            entries: IndexMap::new(alloc),
            rows: Vec::new(alloc),
            evaluations: 0,
        }
    }

    /// How many values were ever added, up to 2^64 - 1, where the count stays.
    pub fn evaluations(&self) -> u64
        ensures { result ≡ self.now.evaluations }
    {
        self.evaluations
    }

    /// For each place what it asked for, and which places may have asked for it.
    pub fn rows(&self) -> &[Row]
        ensures { result.now ≡ self.now.rows }
    {
        self.rows.as_slice()
    }

    /// How many places there are.
    pub fn len(&self) -> usize
        ensures len { result ≡ length self.now.entries }
        ensures small { result < 2 ^ 63 }
    {
        self.entries.len()
    }

    /// The key of a place, if there is such a place.
    pub fn key(&self, place: usize) -> Option<&K>
        ensures { option_copied result ≡ key_at self.now.entries place }
    {
        let (key, _) = self.entries.get_index(place)?;
        Some(key)
    }

    /// What stands at a place, whether it counts or not.
    pub fn value(&self, place: usize) -> Option<&V>
        ensures { option_copied result ≡ value_at self.now.entries place }
    {
        let (_, value) = self.entries.get_index(place)?;
        Some(value)
    }

    /// The place and the value of a key, where its place has its flag. Of places with flags nothing is
    /// asked, so they need not be those that count.
    pub fn look_up(&self, key: &K, flags: &[bool]) -> Option<(usize, &V)>
        requires apart { HasOnePlace K.eq self.now.entries }
        requires exact { AreOne K.eq }
        ensures none { result ≡ None → known_in K.eq (store_of self.now flags.now) key.now ≡ None }
        ensures value { IfSome result (λ found.
            known_in K.eq (store_of self.now flags.now) key.now ≡ Some found.1.now) }
        ensures there { IfSome result
            (λ found. slice_get self.now.entries found.0 ≡ Some (key.now, found.1.now)) }
        ensures flagged { IfSome result (λ found. is_live flags.now found.0 ≡ true) }
    {
        let (place, _, value) = self.entries.get_full(key)?;
        if is_live(flags, place) {
            return Some((place, value));
        }
        None
    }

    /// The place and the value of a key, where it counts by these flags.
    pub fn find(&self, key: &K, live: &[bool]) -> Option<(usize, &V)>
        requires shaped { IsShaped K.eq (store_of self.now live.now) }
        requires exact { AreOne K.eq }
        ensures none { result ≡ None → known_in K.eq (store_of self.now live.now) key.now ≡ None }
        ensures value { IfSome result (λ found.
            known_in K.eq (store_of self.now live.now) key.now ≡ Some found.1.now) }
        ensures there { IfSome result
            (λ found. slice_get self.now.entries found.0 ≡ Some (key.now, found.1.now)) }
        ensures counts { IfSome result (λ found. is_live live.now found.0 ≡ true) }
    {
        self.look_up(key, live)
    }

    /// Gives up the values at these places, with all that rest on them and no others. What is kept
    /// stays where it is, as other flags may count it still.
    ///
    /// Answers `NoMemory` if memory runs out: then nothing is given up.
    #[tactic(auto, using(crate::proofs::Kept::left_shaped))]
    pub fn give_up(&self, alloc: Global, flags: &mut Flags, seeds: &[usize]) -> Result<(), NoMemory>
        requires shaped { IsShaped K.eq (store_of self.now flags.old.live) }
        requires nothing { flags.old.given ≡ [] }
        ensures left { OnOk result (IsLeft self.now.rows seeds.now flags.old.live
            flags.new.given flags.new.live) }
        ensures shaped { OnOk result (IsShaped K.eq (store_of self.now flags.new.live)) }
        ensures err { OnErr result (flags.new ≡ flags.old) }
    {
        match give_up(self.rows.as_slice(), flags, seeds) {
            Ok(()) => Ok(()),
            Err(error) => {
                take_back(alloc, flags);
                Err(error.into())
            }
        }
    }

    /// There is room for one place more.
    fn make_room(&mut self, alloc: Global, live: &mut Items<bool>) -> Result<(), NoMemory>
        requires shaped { IsShaped K.eq (store_of self.old live.old) }
        ensures shaped { IsShaped K.eq (store_of self.new live.new) }
        ensures entries { self.new.entries ≡ self.old.entries }
        ensures alike { (p : ℕ) → (asked_of self.new.rows p ≡ asked_of self.old.rows p)
            × (is_live live.new p ≡ is_live live.old p) }
        ensures evaluations { self.new.evaluations ≡ self.old.evaluations }
        ensures room { OnOk result (length self.new.entries < length live.new) }
    {
        if self.rows.len() <= self.entries.len() {
            self.rows.push(Row {
                asked: Items::new(alloc),
                users: Items::new(alloc),
            })?;
        }
        if live.len() <= self.entries.len() {
            live.push(false)?;
        }
        Ok(())
    }

    /// One value more was added.
    fn count(&mut self)
        ensures { self.new ≡ record self.old { evaluations = one_more self.old.evaluations } }
    {
        if self.evaluations < u64::MAX {
            self.evaluations += 1;
        }
    }

    /// Keeps the value of a key of which none is known, which asked for the keys at these places,
    /// and answers its place: it counts by these flags. Other flags over the same table see another
    /// value then, or none, where they count that place: they are to be let go before.
    ///
    /// Answers `NoMemory` if memory runs out: the same values are known then.
    pub fn keep(
        &mut self,
        alloc: Global,
        live: &mut Items<bool>,
        key: K,
        value: V,
        asked: Items<usize>,
    ) -> Result<usize, NoMemory>
        requires shaped { IsShaped K.eq (store_of self.old live.old) }
        requires exact { AreOne K.eq }
        requires unknown { known_in K.eq (store_of self.old live.old) key ≡ None }
        requires counts { (p : ℕ) → is_among p asked ≡ true → is_live live.old p ≡ true }
        ensures added { IfOk result (λ place. IsAdded K.eq (store_of self.old live.old) place key
            value asked (store_of self.new live.new)) }
        ensures counted { OnOk result (self.new.evaluations ≡ one_more self.old.evaluations) }
        ensures known { OnErr result (KnowsTheSame K.eq (store_of self.old live.old)
            (store_of self.new live.new)) }
        ensures same { OnErr result (self.new.evaluations ≡ self.old.evaluations) }
    {
        self.make_room(alloc, live)?;
        let before = self.entries.len();
        let (place, _old) = self.entries.insert_full(key, value)?;
        note(&mut self.rows, live, place, asked, place == before)?;
        self.count();
        Ok(place)
    }
}
