//! The value of a key, found over a base of values that are known.

ghost use Rattle.std.specs.Prelude.{◌≡◌, Some, [], IfOk};
ghost use Rattle.param_base.specs.Spots.{over_base, found_at, IsBase, IsValueOver, IsFromBase};
ghost use Rattle.param_base.specs.Spots.{IsFoundOnce};
ghost use Rattle.param_engine.specs.Tables.{Begins, IsKept};
ghost use Rattle.param_engine.specs.Working.{ruled};
ghost use Rattle.param_following.specs.Following.{value_of};

use crate::asker::{CopyingAsker, OverBase};
use crate::spot::Spot;
use param_engine::engine::value_of;
use param_engine::table::Table;
use param_keeping::table::Kept;
use sim_values::NoMemory;
use std::alloc::Global;

/// A table for what is found over a base: nothing is found yet.
pub fn own_table<A: CopyingAsker>(
    alloc: Global,
    _asker: &A,
    _kept: &Kept<A::Key, A::Value>,
    _live: &[bool],
) -> Table<A::Key, A::Value>
    ensures entries { result.entries ≡ [] }
    ensures begun { result.begun ≡ 0 }
    ensures kept { IsKept (over_base
        (ruled A.Key.eq (A.asking _asker.now) (A.circle _asker.now)) _kept.now _live.now)
        result.entries }
{
    Table::new(alloc)
}

/// The value of a key, as the spot where it stands, or its fault: from the base where that knows
/// it by these flags, else from the table of what was found since, which gets what is found on the
/// way. Values of the base that are asked for on the way are copied into that table, each once.
///
/// Answers `NoMemory` if memory runs out: the table has what it had, and what was found on the way.
pub fn value_over<A: CopyingAsker>(
    alloc: Global,
    asker: &A,
    kept: &Kept<A::Key, A::Value>,
    live: &[bool],
    table: &mut Table<A::Key, A::Value>,
    key: A::Key,
) -> Result<Result<Spot, A::Fault>, NoMemory>
    requires base { IsBase (ruled A.Key.eq (A.asking asker.now) (A.circle asker.now))
        kept.now live.now }
    requires kept { IsKept (over_base (ruled A.Key.eq (A.asking asker.now) (A.circle asker.now))
        kept.now live.now) table.old.entries }
    ensures value { IfOk result (IsValueOver
        (ruled A.Key.eq (A.asking asker.now) (A.circle asker.now)) kept.now table.new.entries key) }
    // And always what the rules over the base say.
    ensures over { IfOk result (λ found. found_at kept.now table.new.entries found
        ≡ Some (value_of (over_base (ruled A.Key.eq (A.asking asker.now) (A.circle asker.now))
        kept.now live.now) key)) }
    ensures first { IfOk result (IsFromBase A.Key.eq kept.now live.now key) }
    ensures kept { IsKept (over_base (ruled A.Key.eq (A.asking asker.now) (A.circle asker.now))
        kept.now live.now) table.new.entries }
    ensures begins { Begins table.old.entries table.new.entries }
    ensures once { IfOk result (IsFoundOnce (over_base
        (ruled A.Key.eq (A.asking asker.now) (A.circle asker.now)) kept.now live.now)
        table.old table.new) }
{
    let _count = live.len();
    if let Some((place, _)) = kept.find(&key, live) {
        return Ok(Ok(Spot::Kept(place)));
    }
    let over = OverBase { asker, kept, live };
    match value_of(alloc, &over, table, key)? {
        Ok(place) => {
            let _len = table.len();
            Ok(Ok(Spot::Own(place)))
        }
        Err(fault) => Ok(Err(fault)),
    }
}
