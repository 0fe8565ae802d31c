//! The values that are known.

ghost use Rattle.std.specs.Prelude.{◌≡◌, ◌<◌, ◌+◌, ◌^◌, ◌++◌, ◌∷◌, ℕ, [], None, Some, length};
ghost use Rattle.std.specs.Prelude.{is_none, slice_get, OnOk, OnErr, IfOk, IfSome, MatchOption};
ghost use Rattle.std.specs.Option.{option_copied};
ghost use Rattle.param_engine.specs.Tables.{Known, known, value_at, asked_at, IsAt};

use crate::finished::Finished;
use indexmap::IndexMap;
use sim_values::NoMemory;
use sqlite_items::Items;
use std::alloc::Global;
use std::hash::Hash;
use std::marker::Model;

/// The values that are known, in the order in which they were found.
#[derive(Drop)]
pub struct Table<K: Eq + Hash, V> {
    finished: IndexMap<K, Finished<V>>,
    begun: usize,
}

impl<K: Eq + Hash, V> Model for Table<K, V> {
    ghost Value = { Known K V };

    ghost view = { λ table. record { entries = table.finished.entries; begun = table.begun } };
}

impl<K: Eq + Hash + Drop, V: Drop> Table<K, V> {
    /// Nothing is known.
    pub fn new(alloc: Global) -> Table<K, V>
        ensures entries { result.entries ≡ [] }
        ensures begun { result.begun ≡ 0 }
    {
        Table {
            finished: IndexMap::new(alloc),
            begun: 0,
        }
    }

    /// How many keys have a value.
    pub fn len(&self) -> usize
        ensures len { result ≡ length self.now.entries }
        ensures small { result < 2 ^ 63 }
    {
        self.finished.len()
    }

    /// How many evaluations the last question began.
    pub fn begun(&self) -> usize
        ensures { result ≡ self.now.begun }
    {
        self.begun
    }

    /// The place and the value of a key, if it is known.
    pub fn find(&self, key: &K) -> Option<(usize, &V)>
        ensures none { result ≡ None → known K.eq self.now.entries key.now ≡ None }
        ensures place { IfSome result (λ found. IsAt K.eq self.now.entries key.now found.0) }
        ensures value { IfSome result
            (λ found. known K.eq self.now.entries key.now ≡ Some found.1.now) }
        ensures there { IfSome result
            (λ found. value_at self.now.entries found.0 ≡ Some found.1.now) }
    {
        let (place, _, finished) = self.finished.get_full(key)?;
        Some((place, &finished.value))
    }

    /// The value at a place.
    pub fn value(&self, place: usize) -> Option<&V>
        ensures { option_copied result ≡ value_at self.now.entries place }
    {
        let (_, finished) = self.finished.get_index(place)?;
        Some(&finished.value)
    }

    /// The places of the keys that the key at a place asked for, in order.
    pub fn asked(&self, place: usize) -> Option<&[usize]>
        ensures { option_copied result ≡ asked_at self.now.entries place }
    {
        let (_, finished) = self.finished.get_index(place)?;
        Some(finished.asked.as_slice())
    }

    /// The entries, in the order in which their values were found.
    pub fn into_entries(self) -> IndexMap<K, Finished<V>>
        ensures { result.entries ≡ self.entries }
    {
        let Table { finished, begun: _ } = self;
        finished
    }

    /// Notes the value of a key of which none is known, at the end.
    pub(crate) fn note(&mut self, key: K, value: V, asked: Items<usize>) -> Result<usize, NoMemory>
        requires { known K.eq self.old.entries key ≡ None }
        ensures ok { OnOk result (self.new.entries
            ≡ self.old.entries ++ (key, record { value = value; asked = asked }) ∷ []) }
        ensures place { IfOk result (λ place. place ≡ length self.old.entries) }
        ensures small { OnOk result (length self.new.entries < 2 ^ 63) }
        ensures err { OnErr result (self.new.entries ≡ self.old.entries) }
        ensures begun { self.new.begun ≡ self.old.begun }
    {
        let place = self.finished.len();
        self.finished.insert(key, Finished { value, asked })?;
        let _len = self.finished.len();
        Ok(place)
    }

    /// Counts an evaluation that is begun.
    pub(crate) fn count(&mut self)
        requires { self.old.begun + 1 < 2 ^ 64 }
        ensures entries { self.new.entries ≡ self.old.entries }
        ensures begun { self.new.begun ≡ self.old.begun + 1 }
    {
        self.begun += 1;
    }

    /// Counts from nothing.
    pub(crate) fn count_anew(&mut self)
        ensures entries { self.new.entries ≡ self.old.entries }
        ensures begun { self.new.begun ≡ 0 }
    {
        self.begun = 0;
    }
}
