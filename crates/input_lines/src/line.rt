//! Lines.

use sim_values::text::Text;

/// The longest line, in bytes: 64 KiB.
pub const LONGEST: usize = 65_536;

/// How many lines are handed out.
pub const MOST_LINES: u64 = 1_000_000;

/// What is read next.
#[derive(Drop)]
pub enum NextLine {
    /// A line, without the line feed at its end.
    Line(Text),
    /// A line of more than `LONGEST` bytes, which was thrown away.
    TooLong,
    /// No line: the source is at its end, and nothing is left.
    End,
    /// No line: `MOST_LINES` lines are counted.
    Spent,
}
