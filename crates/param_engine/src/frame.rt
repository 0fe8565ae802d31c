//! A key that is being evaluated.

use sqlite_items::Items;

/// How a key that is being evaluated goes on, and the places in the table of the keys that it has
/// asked for.
#[derive(Drop)]
pub struct Frame<E> {
    pub evaluation: E,
    pub asked: Items<usize>,
}
