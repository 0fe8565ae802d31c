//! The bytes that wait in a reader of lines.

ghost use Rattle.std.specs.Prelude.{◌≡◌, ◌↔◌, ℕ, ◌+◌, ◌<◌, ◌≤◌, IsTrue, false, length, take, drop};
ghost use Rattle.std.specs.Prelude.{IfOk, IfErr, OnOk, OnErr, MatchOption};
ghost use Rattle.sim_values.specs.Memory.{no_memory};
ghost use Rattle.input_lines.specs.Feeds.{has_feed, IsFirstFeed};
ghost use Rattle.input_lines.specs.Limits.{longest};
ghost use Rattle.input_lines.specs.Lines.{Tells, lines_of};
ghost use Rattle.input_lines.specs.Parts.{IsPart};
ghost use Rattle.input_lines.specs.Waits.{nothing, thrown_of, IsSpent, IsSound};
ghost use Rattle.input_texts.specs.Whole.{Explains};

use crate::line::{LONGEST, MOST_LINES, NextLine};
use crate::part::{first_feed, read_part};
use input_texts::reading::ReadFault;
use input_texts::source::Source;
use sim_values::text::Text;
use std::alloc::Global;
use std::marker::Model;
use text_writer::noted::GhostBytes;

/// What was read and not handed out yet.
#[derive(Drop)]
pub struct LineBuffer {
    alloc: Global,
    thrown: GhostBytes,
    thrown_length: usize,
    held: Vec<u8>,
    counted: u64,
}

impl Model for LineBuffer {
    ghost use Rattle.std.specs.Prelude.{◌++◌};
    ghost use Rattle.input_lines.specs.Waits.{Waiting, IsKept};

    ghost Value = { Waiting };

    ghost view = { λ b. record {
      bytes = b.thrown.bytes ++ b.held.items;
      thrown = b.thrown_length;
      counted = b.counted;
    } };

    ghost invariant = { λ b. IsKept b.thrown.bytes b.thrown_length b.held.items b.counted };
}

impl LineBuffer {
    /// Nothing was read yet.
    pub(crate) fn new(alloc: Global) -> LineBuffer
        ensures { result ≡ nothing }
    {
        LineBuffer {
            alloc,
            thrown: GhostBytes::new(),
            thrown_length: 0,
            held: Vec::new(alloc),
            counted: 0,
        }
    }

    /// Whether no line is handed out any more.
    pub(crate) fn is_spent(&self) -> bool
        ensures { IsTrue result ↔ IsSpent self.now }
    {
        self.counted + (self.thrown_length / LONGEST) as u64 >= MOST_LINES
    }

    /// How many bytes wait.
    pub(crate) fn len(&self) -> usize
        ensures { result ≡ length self.now.bytes }
    {
        self.thrown_length + self.held.len()
    }

    /// Where the first line feed stands, if it isn't one of the first `searched` bytes.
    pub(crate) fn find(&self, searched: usize) -> Option<usize>
        requires within { searched ≤ length self.now.bytes }
        requires clear { has_feed (take searched self.now.bytes) ≡ false }
        ensures { MatchOption result (has_feed self.now.bytes ≡ false)
            (λ place. IsFirstFeed self.now.bytes place × (self.now.thrown ≤ place)) }
    {
        let from = searched.saturating_sub(self.thrown_length);
        match first_feed(&self.held[from..]) {
            Some(at) => Some(self.thrown_length + from + at),
            None => None,
        }
    }

    /// Throws away what waits, where it is of one line that is too long.
    pub(crate) fn shorten(&mut self)
        requires one { has_feed self.old.bytes ≡ false }
        requires unspent { IsSpent self.old → ⊥ }
        ensures bytes { self.new.bytes ≡ self.old.bytes }
        ensures counted { self.new.counted ≡ self.old.counted }
        ensures thrown { self.new.thrown ≡ thrown_of self.old.bytes }
        ensures sound { IsSound self.old }
    {
        let length = self.thrown_length + self.held.len();
        if length > LONGEST {
            self.thrown.note(self.held.as_slice());
            self.thrown_length = length;
            self.held.clear();
        }
    }

    /// Reads once, and adds what the source gives at the end. Answers how many bytes that was.
    pub(crate) fn read_from<S: Source>(&mut self, source: &mut S) -> Result<usize, ReadFault>
        requires { length self.old.bytes ≤ self.old.thrown + longest }
        ensures part { IfOk result
            (λ n. IsPart (S.given source.old) (S.ends source.old) self.old.bytes
            (S.given source.new) (S.ends source.new) self.new.bytes n) }
        ensures healthy { OnOk result (S.failures source.new ≡ S.failures source.old) }
        ensures same { (self.new.thrown ≡ self.old.thrown) × (self.new.counted ≡ self.old.counted) }
        ensures kept { OnErr result ((S.given source.new ≡ S.given source.old)
            × (S.ends source.new ≡ S.ends source.old)
            × (self.new.bytes ≡ self.old.bytes)) }
        ensures refused { IfErr result
            (λ fault. Explains (S.failures source.old) (S.failures source.new) fault) }
    {
        read_part(source, &mut self.held)
    }

    /// The answer to the line that ends before that place, and begins with the first byte that
    /// waits.
    fn answer(&self, end: usize) -> Result<NextLine, ReadFault>
        requires front { self.now.thrown ≤ end }
        requires within { end ≤ length self.now.bytes }
        ensures tells { IfOk result (λ answer. Tells answer (take end self.now.bytes)) }
        ensures refused { IfErr result
            (λ fault. (fault ≡ ReadFault.NoMemory no_memory) × (self.now.thrown ≡ 0)) }
    {
        if end > LONGEST {
            return Ok(NextLine::TooLong);
        }
        match Text::from_bytes(self.alloc, &self.held[..end - self.thrown_length]) {
            Ok(text) => Ok(NextLine::Line(text)),
            Err(error) => Err(ReadFault::NoMemory(error.into())),
        }
    }

    /// Takes away the line that ends before that place, and so many bytes after it.
    fn cut(&mut self, end: usize, behind: usize)
        requires front { self.old.thrown ≤ end }
        requires within { end + behind ≤ length self.old.bytes }
        ensures bytes { self.new.bytes ≡ drop (end + behind) self.old.bytes }
        ensures thrown { self.new.thrown ≡ 0 }
        ensures counted { self.new.counted ≡ self.old.counted }
    {
        let front = end - self.thrown_length + behind;
        self.held.drain(..front);
        self.thrown = GhostBytes::new();
        self.thrown_length = 0;
    }

    /// Counts the line that ends before that place.
    fn count(&mut self, end: usize)
        requires unspent { IsSpent self.old → ⊥ }
        requires within { end ≤ length self.old.bytes }
        ensures bytes { self.new.bytes ≡ self.old.bytes }
        ensures thrown { self.new.thrown ≡ self.old.thrown }
        ensures counted { self.new.counted ≡ self.old.counted + lines_of end }
    {
        self.counted += if end > LONGEST {
            1 + (end / LONGEST) as u64
        } else {
            1
        };
    }

    /// Tells the line that ends before that place, and takes it away, with so many bytes after it.
    pub(crate) fn tell(&mut self, end: usize, behind: usize) -> Result<NextLine, ReadFault>
        requires unspent { IsSpent self.old → ⊥ }
        requires front { self.old.thrown ≤ end }
        requires within { end + behind ≤ length self.old.bytes }
        ensures tells { IfOk result (λ answer. Tells answer (take end self.old.bytes)) }
        ensures bytes { OnOk result (self.new.bytes ≡ drop (end + behind) self.old.bytes) }
        ensures thrown { OnOk result (self.new.thrown ≡ 0) }
        ensures counted { OnOk result (self.new.counted ≡ self.old.counted + lines_of end) }
        ensures kept { OnErr result ((self.new ≡ self.old) × (self.old.thrown ≡ 0)) }
        ensures refused { IfErr result (λ fault. fault ≡ ReadFault.NoMemory no_memory) }
    {
        let answer = self.answer(end)?;
        self.count(end);
        self.cut(end, behind);
        Ok(answer)
    }
}
