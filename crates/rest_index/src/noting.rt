//! Places that are noted, with what they asked for.

ghost use Rattle.std.specs.Prelude.{◌≡◌, ◌<◌, ◌≤◌, ℕ, true, false, [], ◌∷◌, length};
ghost use Rattle.std.specs.Prelude.{slice_set, IsOk, OnOk, OnErr};
ghost use Rattle.rest_index.specs.Noting.{AllKnow, HaveMoreUsers, IsLastAlone, IsNotedAt};
ghost use Rattle.rest_index.specs.Rests.{asked_of, is_among, is_live, users_of, AreClosed};
ghost use Rattle.rest_index.specs.Rests.{AreIndexed};

use crate::giving_up::{asked_of, is_among, users_of};
use crate::row::Row;
use sqlite_items::Items;
use std::alloc::AllocError;

/// Whether a place asked for just these.
fn asks_for(rows: &[Row], place: usize, asked: &[usize]) -> bool
    ensures same { result ≡ true → asked_of rows.now place ≡ asked.now }
    ensures other { asked_of rows.now place ≡ asked.now → result ≡ true }
{
    asked_of(rows, place) == asked
}

/// Whether a place is among these; one that is new can only be the last.
fn is_user(users: &[usize], user: usize, is_new: bool) -> bool
    requires { is_new ≡ true → IsLastAlone user users.now }
    ensures { result ≡ is_among user users.now }
{
    if is_new {
        return match users.last() {
            Some(last) => *last == user,
            None => false,
        };
    }
    is_among(user, users)
}

/// A place knows one more that asked for it, if it didn't know that one yet.
fn add_user(rows: &mut Vec<Row>, place: usize, user: usize, is_new: bool) -> Result<(), AllocError>
    requires there { place < length rows.old.items }
    requires new { is_new ≡ true → IsLastAlone user (users_of rows.old.items place) }
    ensures grown { HaveMoreUsers user (place ∷ []) rows.old.items rows.new.items }
    ensures known { OnOk result (is_among user (users_of rows.new.items place) ≡ true) }
{
    if is_user(users_of(rows.as_slice(), place), user, is_new) {
        return Ok(());
    }
    rows[place].users.push(user)
}

/// Each of these knows one more that asked for it, if it didn't know that one yet.
fn add_users(
    rows: &mut Vec<Row>,
    places: &[usize],
    user: usize,
    is_new: bool,
) -> Result<(), AllocError>
    requires there { (p : ℕ) → is_among p places.now ≡ true → p < length rows.old.items }
    requires new { is_new ≡ true
        → (p : ℕ) → is_among user (users_of rows.old.items p) ≡ false }
    ensures grown { HaveMoreUsers user places.now rows.old.items rows.new.items }
    ensures known { OnOk result (AllKnow rows.new.items user places.now) }
{
    for place in places {
        add_user(rows, *place, user, is_new)?;
    }
    Ok(())
}

/// Notes that a place asked for these, and that what stands there counts. `is_new` says that the
/// place was never noted before: then no list of users is looked through. Else the users of each
/// place that it asks for are, unless it asked for just these before, which takes no memory.
///
/// Answers `AllocError` if memory runs out: some of these places may know of it then, and all else
/// is as it was.
pub fn note(
    rows: &mut Vec<Row>,
    live: &mut Items<bool>,
    place: usize,
    asked: Items<usize>,
    is_new: bool,
) -> Result<(), AllocError>
    requires there { place < length live.old }
    requires as_long { length live.old ≤ length rows.old.items }
    requires indexed { AreIndexed rows.old.items }
    requires closed { AreClosed rows.old.items live.old }
    requires free { is_live live.old place ≡ false }
    requires known { (p : ℕ) → is_among p asked ≡ true → is_live live.old p ≡ true }
    requires new { is_new ≡ true
        → (p : ℕ) → is_among place (users_of rows.old.items p) ≡ false }
    ensures live { OnOk result (live.new ≡ slice_set live.old place true) }
    ensures noted { OnOk result (IsNotedAt place asked rows.old.items rows.new.items live.new) }
    ensures dead { OnErr result (live.new ≡ live.old) }
    ensures grown { OnErr result (HaveMoreUsers place asked rows.old.items rows.new.items) }
    ensures again { asked_of rows.old.items place ≡ asked → IsOk result }
{
    if !asks_for(rows.as_slice(), place, asked.as_slice()) {
        add_users(rows, asked.as_slice(), place, is_new)?;
    }
    rows[place].asked = asked;
    live.set(place, true);
    Ok(())
}
