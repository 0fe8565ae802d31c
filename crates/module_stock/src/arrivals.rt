//! Messages that have come to their end.

ghost use Rattle.std.specs.Prelude.{◌≡◌, IfOk};
ghost use Rattle.module_stock.specs.Arrivals.{received};

use module_api::reply::Action;
use module_parts::replies::{emit, fail};
use sim_values::NoMemory;
use sqlite_items::Items;
use std::alloc::Global;

/// Emits a message's length as `rx`.
pub fn received(alloc: Global, bits: u64) -> Result<Items<Action>, NoMemory>
    ensures { IfOk result (λ actions. actions ≡ received bits) }
{
    let mut actions = Items::new(alloc);
    if bits <= i64::MAX as u64 {
        emit(&mut actions, "rx", bits as i64)?;
    } else {
        fail(&mut actions, alloc, "bits")?;
    }
    Ok(actions)
}
