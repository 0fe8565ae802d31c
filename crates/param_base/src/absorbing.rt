//! What was found over a base is put into it.

ghost use Rattle.std.specs.Prelude.{◌≡◌, ℕ, map, true, OnOk, OnErr, IfOk};
ghost use Rattle.param_base.specs.Absorbing.{counted_with, more_if_unknown, moved_to, IsOneOf};
ghost use Rattle.param_base.specs.Absorbing.{IsPut, LeavesAlone};
ghost use Rattle.param_base.specs.Asking.{known_by};
ghost use Rattle.param_base.specs.Spots.{over_base, IsBase};
ghost use Rattle.param_engine.specs.Tables.{known, IsKept};
ghost use Rattle.param_engine.specs.Working.{ruled, Grows};
ghost use Rattle.param_keeping.specs.Added.{KnowsTheSame};
ghost use Rattle.param_keeping.specs.Stores.{store_of, AreOne, IsShaped};
ghost use Rattle.rest_index.specs.Rests.{is_among, is_live};

use param_engine::asker::Asker;
use param_engine::finished::Finished;
use param_engine::table::Table;
use param_keeping::laws::{same_is_kept, steps_are_places};
use param_keeping::table::Kept;
use sim_values::NoMemory;
use sqlite_items::Items;
use std::alloc::Global;
use std::hash::Hash;

/// Where what stood at a place stands now, by a list of these.
fn moved_to(places: &[usize], own: usize) -> usize
    ensures { result ≡ moved_to places.now own }
{
    match places.get(own) {
        Some(place) => *place,
        None => 0,
    }
}

/// Where what stood at these places stands now.
fn all_moved(alloc: Global, places: &[usize], own: &[usize]) -> Result<Items<usize>, NoMemory>
    ensures { IfOk result (λ moved. moved ≡ map (moved_to places.now) own.now) }
{
    let mut moved = Items::new(alloc);
    for place in own {
        moved.push(moved_to(places, *place))?;
    }
    Ok(moved)
}

/// Puts one entry into the base, unless its key is known there, and answers its place there. The
/// keys that it asked for stand at these places.
fn put<K: Eq + Hash + Drop, V: Drop>(
    alloc: Global,
    kept: &mut Kept<K, V>,
    live: &mut Items<bool>,
    places: &[usize],
    key: K,
    finished: Finished<V>,
) -> Result<usize, NoMemory>
    requires shaped { IsShaped K.eq (store_of kept.old live.old) }
    requires exact { AreOne K.eq }
    requires counts { (p : ℕ) → is_among p (map (moved_to places.now) finished.asked) ≡ true
        → is_live live.old p ≡ true }
    ensures put { IfOk result (λ place. IsPut K.eq (store_of kept.old live.old) key finished.value
        (map (moved_to places.now) finished.asked) place (store_of kept.new live.new)) }
    ensures counted { OnOk result (kept.new.evaluations
        ≡ more_if_unknown (known_by K.eq kept.old live.old key) kept.old.evaluations) }
    ensures same { OnErr result (KnowsTheSame K.eq (store_of kept.old live.old)
        (store_of kept.new live.new)) }
{
    if let Some((place, _)) = kept.find(&key, live.as_slice()) {
        return Ok(place);
    }
    let Finished { value, asked } = finished;
    let asked = all_moved(alloc, places, asked.as_slice())?;
    kept.keep(alloc, live, key, value, asked)
}

/// Puts what was found over a base into the base, in the order in which it was found, and says by
/// the flags that it counts. What the base knows already, as the copies of its values, is let go.
/// Other flags over the same base are to be let go before, as `keep` says.
///
/// Answers `NoMemory` if memory runs out: the base has what it had then, and perhaps some of what
/// was found; the rest is let go.
pub fn absorb<A: Asker>(
    alloc: Global,
    _asker: &A,
    kept: &mut Kept<A::Key, A::Value>,
    live: &mut Items<bool>,
    found: Table<A::Key, A::Value>,
) -> Result<(), NoMemory>
    requires base { IsBase (ruled A.Key.eq (A.asking _asker.now) (A.circle _asker.now))
        kept.old live.old }
    requires found { IsKept (over_base (ruled A.Key.eq (A.asking _asker.now) (A.circle _asker.now))
        kept.old live.old) found.entries }
    ensures base { IsBase (ruled A.Key.eq (A.asking _asker.now) (A.circle _asker.now))
        kept.new live.new }
    ensures before { Grows (known_by A.Key.eq kept.old live.old)
        (known_by A.Key.eq kept.new live.new) }
    ensures found { OnOk result (Grows (known A.Key.eq found.entries)
        (known_by A.Key.eq kept.new live.new)) }
    // Other places stay as they were.
    ensures alone { OnOk result (LeavesAlone A.Key.eq found.entries
        (store_of kept.old live.old) (store_of kept.new live.new)) }
    ensures only { IsOneOf (known_by A.Key.eq kept.old live.old) (known A.Key.eq found.entries)
        (known_by A.Key.eq kept.new live.new) }
    ensures counted { OnOk result (kept.new.evaluations
        ≡ counted_with (known_by A.Key.eq kept.old live.old) found.entries kept.old.evaluations) }
{
    steps_are_places::<A::Key, A::Value, A::Fault>();
    same_is_kept::<A::Key, A::Value, A::Fault>();
    let mut places = Items::new(alloc);
    let mut rest = found.into_entries().into_iter();
    'entries: while let Some((key, finished)) = rest.next() {
        let place = put(alloc, kept, live, places.as_slice(), key, finished)?;
        places.push(place)?;
    }
    Ok(())
}
