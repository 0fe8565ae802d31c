//! What is kept of a key.

use sqlite_items::Items;

/// What is kept of a key that has a value.
#[derive(Drop)]
pub struct Finished<V> {
    pub value: V,
    /// The places in the table of the keys that it asked for, in order.
    pub asked: Items<usize>,
}
