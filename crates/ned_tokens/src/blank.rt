//! Lines that say nothing.

ghost use Rattle.ned_tokens.specs.Blank.{SaysNothing};

/// A line of blanks, or of blanks and a comment, may be left out outside a text in quotes: the
/// tokens stay the same.
pub fn blank_line(front: &[u8], line: &[u8], back: &[u8])
    ensures { SaysNothing front.now line.now back.now }
{}
