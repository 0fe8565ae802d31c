//! What is asked.

use sim_values::text::Text;

/// What is asked.
#[derive(Drop)]
pub enum AskedLine {
    /// A command line, without its end.
    Line(Text),
    /// A line that is too long to be kept.
    TooLong,
}
