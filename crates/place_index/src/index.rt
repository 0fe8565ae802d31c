//! From last names to the places whose paths have them.

ghost use Rattle.std.specs.HashMap.{get};
ghost use Rattle.std.specs.Str.{bytes_eq};
ghost use Rattle.place_index.specs.Listing.{AreApart};

use sim_values::text::Text;
use sqlite_items::Items;
use std::collections::HashMap;

/// Places by the last names of their paths. The places of whose paths an entry speaks are found without looking at all of them, where the
/// last name of the entry's pattern has no wildcard. The paths themselves are the caller's.
pub struct PlaceIndex {
    /// For each text the number of its list.
    pub(crate) numbers: HashMap<Text, usize>,
    /// The places that are listed under one text each.
    pub(crate) lists: Vec<Items<usize>>,
    ghost apart: { AreApart (get bytes_eq numbers) lists.items },
}

// Written out, so that a crate which drops one need not prove what that does.
impl Drop for PlaceIndex {
    fn drop(self) {
        let PlaceIndex {
            numbers: _,
            lists: _,
        } = self;
    }
}
