//! Places that are listed by their paths, and those of whose paths an entry speaks.

ghost use Rattle.std.specs.Prelude.{◌≡◌, ◌≢◌, ◌==◌, ◌&&◌, ◌||◌, ℕ, [], IfOk, OnOk};
ghost use Rattle.ini_index.specs.Keys.{key_of};
ghost use Rattle.ini_trees.specs.Words.{Bytes};
ghost use Rattle.place_index.specs.Listing.{ListsMore};
ghost use Rattle.place_index.specs.Listed.{under_of};
ghost use Rattle.place_index.specs.Places.{reaches, AreListed, IsListed};
ghost use Rattle.rest_index.specs.Rests.{is_among};

use crate::index::PlaceIndex;
use crate::key::key_text;
use crate::listing::{add, listed};
use crate::paths::{PlacePaths, are_ascii, name_of};
use crate::speaks::reaches;
use ini_names::laws::last_name_is_literal;
use ini_trees::lines::IniEntry;
use sim_values::NoMemory;
use sim_values::text::Text;
use sqlite_items::Items;
use std::alloc::Global;
use std::collections::HashMap;

/// Adds a place, if an entry speaks of its path.
fn add_if<P: PlacePaths>(
    alloc: Global,
    at: &P,
    entry: &IniEntry,
    place: usize,
    found: &mut Items<usize>,
) -> Result<(), NoMemory>
    ensures { OnOk result ((p : ℕ) → is_among p found.new
        ≡ (is_among p found.old || (place == p && reaches entry.now (P.paths at.now p)))) }
{
    if reaches_at(alloc, at, entry, place)? {
        found.push(place)?;
    }
    Ok(())
}

/// Whether an entry speaks of the path of a place.
fn reaches_at<P: PlacePaths>(
    alloc: Global,
    at: &P,
    entry: &IniEntry,
    place: usize,
) -> Result<bool, NoMemory>
    ensures { IfOk result (λ is. is ≡ reaches entry.now (P.paths at.now place)) }
{
    match at.path(alloc, place)? {
        Some(path) => Ok(reaches(&path, entry)),
        None => Ok(false),
    }
}

/// Adds those of these places of whose paths an entry speaks.
fn add_of<P: PlacePaths>(
    alloc: Global,
    at: &P,
    entry: &IniEntry,
    places: &[usize],
    found: &mut Items<usize>,
) -> Result<(), NoMemory>
    ensures { OnOk result ((p : ℕ) → is_among p found.new ≡ (is_among p found.old
        || (is_among p places.now && reaches entry.now (P.paths at.now p)))) }
{
    for place in places {
        add_if(alloc, at, entry, *place, found)?;
    }
    Ok(())
}

/// The places of whose paths an entry speaks, by looking at all of them.
fn by_scan<P: PlacePaths>(alloc: Global, at: &P, entry: &IniEntry) -> Result<Items<usize>, NoMemory>
    ensures { IfOk result (λ found. (p : ℕ) → is_among p found
        ≡ reaches entry.now (P.paths at.now p)) }
{
    let mut found = Items::new(alloc);
    for place in 0..at.count() {
        add_if(alloc, at, entry, place, &mut found)?;
    }
    Ok(found)
}

impl PlaceIndex {
    /// Nothing is listed. It takes no memory.
    pub fn new(alloc: Global) -> PlaceIndex
        ensures { (text : Bytes) → under_of result text ≡ [] }
    {
        PlaceIndex {
            numbers: HashMap::new(alloc),
            lists: Vec::new(alloc),
        }
    }

    /// Lists a place by its path: under the last name of that, and under the empty text where it has
    /// other characters than those of ASCII. Whether memory lasts or not, what was listed is listed
    /// still.
    pub fn list(&mut self, alloc: Global, place: usize, path: &Text) -> Result<(), NoMemory>
        ensures more { ListsMore (under_of self.old) (under_of self.new) }
        ensures own { OnOk result (IsListed place path.now (under_of self.new)) }
    {
        let name = name_of(alloc, path)?;
        add(alloc, &mut self.numbers, &mut self.lists, &name, place)?;
        if are_ascii(path) {
            return Ok(());
        }
        add(
            alloc,
            &mut self.numbers,
            &mut self.lists,
            &Text::empty(alloc),
            place,
        )
    }

    /// What is listed under a text.
    fn under(&self, text: &Text) -> &[usize]
        ensures { result.now ≡ under_of self.now text.now }
    {
        listed(&self.numbers, self.lists.as_slice(), text)
    }

    /// The places of whose paths an entry speaks, by the last name of its pattern.
    fn by_name<P: PlacePaths>(
        &self,
        alloc: Global,
        at: &P,
        entry: &IniEntry,
        key: &Text,
    ) -> Result<Items<usize>, NoMemory>
        requires listed { AreListed (P.paths at.now) (under_of self.now) }
        requires key { key.now ≡ key_of entry.now.meaning }
        requires some { key.now ≢ [] }
        ensures { IfOk result (λ found. (p : ℕ) → is_among p found
            ≡ reaches entry.now (P.paths at.now p)) }
    {
        last_name_is_literal();
        let mut found = Items::new(alloc);
        let name = name_of(alloc, key)?;
        let odd = Text::empty(alloc);
        add_of(alloc, at, entry, self.under(&name), &mut found)?;
        add_of(alloc, at, entry, self.under(&odd), &mut found)?;
        Ok(found)
    }

    /// The places of whose paths an entry speaks, all of them and no others, where each is listed by
    /// its path. Where the last name of the entry's pattern has a wildcard, all places are looked at.
    pub fn reached_by<P: PlacePaths>(
        &self,
        alloc: Global,
        at: &P,
        entry: &IniEntry,
    ) -> Result<Items<usize>, NoMemory>
        requires { AreListed (P.paths at.now) (under_of self.now) }
        ensures { IfOk result (λ found. (p : ℕ) → is_among p found
            ≡ reaches entry.now (P.paths at.now p)) }
    {
        let key = key_text(alloc, &entry.meaning)?;
        if key.as_bytes().is_empty() {
            by_scan(alloc, at, entry)
        } else {
            self.by_name(alloc, at, entry, &key)
        }
    }
}
