//! Where a value stands.

/// Where a value stands that was found over a base.
#[derive(Clone, Copy, Debug)]
pub enum Spot {
    /// At this place of the base.
    Kept(usize),
    /// At this place of the table of what was found since.
    Own(usize),
}
