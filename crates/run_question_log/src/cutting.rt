//! Lists that grow while a run goes on, cut back to what they were.

ghost use Rattle.std.specs.Prelude.{◌≡◌, take};

use sqlite_items::Items;

/// Drops the last items, so that as many are left, the first ones. A list that has no more stays as
/// it is.
pub fn cut_items<T: Drop>(items: &mut Items<T>, left: usize)
    ensures { items.new ≡ take left items.old }
{
    while items.len() > left {
        items.pop();
    }
}
