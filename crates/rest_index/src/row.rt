//! What is known of a place.

use sqlite_items::Items;

/// What is known of a place: its edges to other places, in both directions.
#[derive(Drop)]
pub struct Row {
    /// The places that it asked for.
    pub asked: Items<usize>,
    /// The places that asked for it, and maybe others that did before.
    pub users: Items<usize>,
}
