//! The places of whose paths an edit of the ini text may say something else.

ghost use Rattle.std.specs.Prelude.{◌≡◌, ◌≤◌, ◌++◌, ◌||◌, ℕ, IfOk, OnOk, length};
ghost use Rattle.std.specs.List.{All};
ghost use Rattle.edit_places.specs.Edited.{between, is_reached, AreReached, IsRead, NoneIsMissed};
ghost use Rattle.place_index.specs.Listed.{under_of};
ghost use Rattle.place_index.specs.Places.{AreListed};
ghost use Rattle.rest_index.specs.Rests.{is_among};

use crate::ends::common_ends;
use ini_index::list::EntryList;
use inside_edits::laws::only_first_matches_change;
use place_index::index::PlaceIndex;
use place_index::paths::PlacePaths;
use sim_values::NoMemory;
use sqlite_items::Items;
use std::alloc::Global;

/// Adds places after others.
fn append(places: &mut Items<usize>, more: &[usize]) -> Result<(), NoMemory>
    ensures { OnOk result (places.new ≡ places.old ++ more.now) }
{
    for place in more {
        places.push(*place)?;
    }
    Ok(())
}

/// Adds the places of whose paths one of the entries speaks that stand from that number on, before
/// another number.
fn add_reached<P: PlacePaths>(
    alloc: Global,
    index: &PlaceIndex,
    at: &P,
    entries: &EntryList<'_>,
    from: usize,
    to: usize,
    places: &mut Items<usize>,
) -> Result<(), NoMemory>
    requires listed { AreListed (P.paths at.now) (under_of index.now) }
    requires rising { from ≤ to }
    requires within { to ≤ length entries.now }
    ensures { OnOk result ((p : ℕ) → is_among p places.new ≡ (is_among p places.old
        || is_reached (P.paths at.now) (between from to entries.now) p)) }
{
    let mut number = from;
    'entries: while number < to {
        let reached = index.reached_by(alloc, at, entries.at(number))?;
        append(places, reached.as_slice())?;
        number += 1;
    }
    Ok(())
}

/// The places of whose paths entries speak that an edit took out or put in: of the path of any other
/// place the entries say what they said before. The entries are such that were read of texts, and each place is listed by
/// its path.
pub fn reached_places<P: PlacePaths>(
    alloc: Global,
    before: &EntryList<'_>,
    after: &EntryList<'_>,
    index: &PlaceIndex,
    at: &P,
) -> Result<Items<usize>, NoMemory>
    requires before { All IsRead before.now }
    requires after { All IsRead after.now }
    requires listed { AreListed (P.paths at.now) (under_of index.now) }
    ensures reached { IfOk result (AreReached (P.paths at.now) before.now after.now) }
    ensures missed { IfOk result (NoneIsMissed (P.paths at.now) before.now after.now) }
{
    only_first_matches_change();
    let ends = common_ends(before, after);
    let mut places = Items::new(alloc);
    let last = before.len() - ends.back;
    add_reached(alloc, index, at, before, ends.front, last, &mut places)?;
    let last = after.len() - ends.back;
    add_reached(alloc, index, at, after, ends.front, last, &mut places)?;
    Ok(places)
}
