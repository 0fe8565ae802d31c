//! How values are recorded.

/// How the values of a signal are recorded.
#[derive(Clone, Copy, Debug, PartialEq, Eq)]
pub enum Mode {
    Count,
    Sum,
    Min,
    Max,
    Last,
    Vector,
}
