//! Places that are given up, with all that rest on them.

ghost use Rattle.std.specs.Prelude.{◌≡◌, ◌≤◌, ℕ, Bool, List, [], IfOk, OnOk, length};
ghost use Rattle.rest_index.specs.declared.row.Row.{Row};
ghost use Rattle.rest_index.specs.Rests.{asked_of, is_among, is_live, users_of, AreClosed};
ghost use Rattle.rest_index.specs.Rests.{AreIndexed, IsLeft};
ghost use Rattle.rest_index.specs.Following.{with_all, without, without_all, without_askers};
ghost use Rattle.rest_index.specs.Following.{without_user};

use crate::row::Row;
use sqlite_items::Items;
use std::alloc::{AllocError, Global};

/// Which places count, and which of them were given up. Several of these can stand over the same
/// rows: what one counts is nothing to the others.
#[derive(Drop)]
pub struct Flags {
    /// For each place whether what stands there counts.
    pub live: Items<bool>,
    /// The places that were given up, in their order.
    pub given: Items<usize>,
}

/// A copy of these flags, where nothing is given up yet. Answers `AllocError` if memory runs out.
pub fn copy_flags(alloc: Global, live: &[bool]) -> Result<Flags, AllocError>
    ensures live { IfOk result (λ flags. flags.live ≡ live.now) }
    ensures given { IfOk result (λ flags. flags.given ≡ []) }
{
    Ok(Flags {
        live: Items::from_slice(alloc, live)?,
        given: Items::new(alloc),
    })
}

/// Whether a place is among these.
pub(crate) fn is_among(place: usize, places: &[usize]) -> bool
    ensures { result ≡ is_among place places.now }
{
    for other in places {
        if *other == place {
            return true;
        }
    }
    false
}

/// The places that a place asked for.
pub fn asked_of(rows: &[Row], place: usize) -> &[usize]
    ensures { result.now ≡ asked_of rows.now place }
{
    match rows.get(place) {
        Some(row) => row.asked.as_slice(),
        None => &[],
    }
}

/// The places that may have asked for a place.
pub(crate) fn users_of(rows: &[Row], place: usize) -> &[usize]
    ensures { result.now ≡ users_of rows.now place }
{
    match rows.get(place) {
        Some(row) => row.users.as_slice(),
        None => &[],
    }
}

/// Whether what stands at a place counts; where there is no such place it doesn't.
pub fn is_live(live: &[bool], place: usize) -> bool
    ensures { result ≡ is_live live.now place }
{
    match live.get(place) {
        Some(counts) => *counts,
        None => false,
    }
}

/// Gives up a place, where it counts.
fn give_up_one(flags: &mut Flags, place: usize) -> Result<(), AllocError>
    ensures ok { OnOk result (flags.new ≡ without flags.old place) }
    ensures back { with_all flags.new.live flags.new.given ≡ with_all flags.old.live flags.old.given }
{
    if is_live(flags.live.as_slice(), place) {
        flags.given.push(place)?;
        flags.live.set(place, false);
    }
    Ok(())
}

/// Gives up these.
fn give_up_all(flags: &mut Flags, places: &[usize]) -> Result<(), AllocError>
    ensures ok { OnOk result (flags.new ≡ without_all flags.old places.now) }
    ensures back { with_all flags.new.live flags.new.given ≡ with_all flags.old.live flags.old.given }
{
    for place in places {
        give_up_one(flags, *place)?;
    }
    Ok(())
}

/// Gives up one that may have asked for a place, where it did. What it asked for is not looked
/// through where it counts no more.
fn give_up_user(
    rows: &[Row],
    place: usize,
    flags: &mut Flags,
    user: usize,
) -> Result<(), AllocError>
    ensures ok { OnOk result (flags.new ≡ without_user rows.now place flags.old user) }
    ensures back { with_all flags.new.live flags.new.given ≡ with_all flags.old.live flags.old.given }
{
    if !is_live(flags.live.as_slice(), user) {
        return Ok(());
    }
    if is_among(place, asked_of(rows, user)) {
        give_up_one(flags, user)?;
    }
    Ok(())
}

/// Gives up all that asked for a place.
fn give_up_askers(rows: &[Row], flags: &mut Flags, place: usize) -> Result<(), AllocError>
    ensures ok { OnOk result (flags.new ≡ without_askers rows.now flags.old place) }
    ensures back { with_all flags.new.live flags.new.given ≡ with_all flags.old.live flags.old.given }
{
    for user in users_of(rows, place) {
        give_up_user(rows, place, flags, *user)?;
    }
    Ok(())
}

/// Gives up these places, with all that rest on them and no others. It looks at no other place than
/// those that are given up and their users.
///
/// Answers `AllocError` if memory runs out: some were given up then, and `take_back` makes all as it
/// was.
pub fn give_up(rows: &[Row], flags: &mut Flags, seeds: &[usize]) -> Result<(), AllocError>
    requires indexed { AreIndexed rows.now }
    requires closed { AreClosed rows.now flags.old.live }
    requires as_long { length flags.old.live ≤ length rows.now }
    requires nothing { flags.old.given ≡ [] }
    ensures left { OnOk result (IsLeft rows.now seeds.now flags.old.live flags.new.given
        flags.new.live) }
    // Whether memory lasted or not: `take_back` makes all as it was.
    ensures back { with_all flags.new.live flags.new.given ≡ with_all flags.old.live flags.old.given }
{
    give_up_all(flags, seeds)?;
    for next in 0..rows.len() {
        let Some(place) = flags.given.get(next) else {
            return Ok(());
        };
        let place = *place;
        give_up_askers(rows, flags, place)?;
    }
    Ok(())
}

/// These count again.
fn count_again(live: &mut Items<bool>, places: &[usize])
    ensures { live.new ≡ with_all live.old places.now }
{
    for place in places {
        if *place < live.len() {
            live.set(*place, true);
        }
    }
}

/// What was given up counts again: all is as it was before `give_up`, whether that had memory enough
/// or not. It takes no memory.
pub fn take_back(alloc: Global, flags: &mut Flags)
    ensures live { flags.new.live ≡ with_all flags.old.live flags.old.given }
    ensures given { flags.new.given ≡ [] }
    ensures before { (rows : List Row) (seeds : List ℕ) (before : List Bool)
        → IsLeft rows seeds before flags.old.given flags.old.live → flags.new.live ≡ before }
{
    count_again(&mut flags.live, flags.given.as_slice());
    flags.given = Items::new(alloc);
}
