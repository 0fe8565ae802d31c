//! What two lists of entries have in common at their front and at their back.

ghost use Rattle.std.specs.Prelude.{◌≡◌, ◌≤◌, ◌+◌, ◌-◌, true, length, take, drop};
ghost use Rattle.std.specs.List.{All};
ghost use Rattle.edit_places.specs.Edited.{HaveEnds, IsRead};

use ini_index::list::EntryList;
use ini_trees::lines::IniEntry;

/// How many entries two lists have in common, at their front and behind these at their back.
#[derive(Clone, Copy, Debug)]
pub struct Ends {
    pub front: usize,
    pub back: usize,
}

/// Whether two entries have the same key and the same value.
fn are_same(one: &IniEntry, other: &IniEntry) -> bool
    requires one { IsRead one.now }
    requires other { IsRead other.now }
    ensures { result ≡ true → one.now ≡ other.now }
{
    one.key.is(other.key.as_bytes()) && one.value.is(other.value.as_bytes())
}

/// How many entries two lists have in common at their front.
fn common_front(one: &EntryList<'_>, other: &EntryList<'_>) -> usize
    requires one { All IsRead one.now }
    requires other { All IsRead other.now }
    ensures within { result ≤ length one.now }
    ensures within_other { result ≤ length other.now }
    ensures same { take result one.now ≡ take result other.now }
{
    let mut front = 0usize;
    'entries: while front < one.len() && front < other.len() {
        if !are_same(one.at(front), other.at(front)) {
            return front;
        }
        front += 1;
    }
    front
}

/// How many entries two lists have in common at their back, behind so many at their front.
fn common_back(one: &EntryList<'_>, other: &EntryList<'_>, front: usize) -> usize
    requires one { All IsRead one.now }
    requires other { All IsRead other.now }
    requires within { front ≤ length one.now }
    requires within_other { front ≤ length other.now }
    ensures within { front + result ≤ length one.now }
    ensures within_other { front + result ≤ length other.now }
    ensures same { drop (length one.now - result) one.now
        ≡ drop (length other.now - result) other.now }
{
    let mut back = 0usize;
    'entries: while back < one.len() - front && back < other.len() - front {
        if !are_same(
            one.at(one.len() - back - 1),
            other.at(other.len() - back - 1),
        ) {
            return back;
        }
        back += 1;
    }
    back
}

/// How many entries two lists have in common, at their front and behind these at their back.
pub fn common_ends(one: &EntryList<'_>, other: &EntryList<'_>) -> Ends
    requires one { All IsRead one.now }
    requires other { All IsRead other.now }
    ensures { HaveEnds one.now other.now result.front result.back }
{
    let front = common_front(one, other);
    let back = common_back(one, other, front);
    Ends { front, back }
}
