//! Readers of lines.

ghost use Rattle.std.specs.Prelude.{◌≡◌, false, true, IfOk, IfErr, OnOk, OnErr};
ghost use Rattle.input_lines.specs.Answers.{IsNext, IsLeft};
ghost use Rattle.input_lines.specs.Feeds.{has_feed};
ghost use Rattle.input_lines.specs.Waits.{nothing, IsSpent};
ghost use Rattle.input_texts.specs.Whole.{Explains};

use crate::buffer::LineBuffer;
use crate::line::NextLine;
use input_texts::reading::ReadFault;
use input_texts::source::Source;
use std::alloc::Global;

/// A source, and what was read of it and not handed out yet.
#[derive(Drop)]
pub struct LineReader<S> {
    source: S,
    buffer: LineBuffer,
}

impl<S: Source> LineReader<S> {
    /// A reader of a source of which nothing was read yet.
    pub fn new(alloc: Global, source: S) -> LineReader<S>
        ensures source { result.source ≡ source }
        ensures buffer { result.buffer ≡ nothing }
    {
        LineReader {
            source,
            buffer: LineBuffer::new(alloc),
        }
    }

    /// Reads on until a line has ended, where none has yet.
    fn read_line(&mut self) -> Result<NextLine, ReadFault>
        requires unspent { IsSpent self.old.buffer → ⊥ }
        requires clear { has_feed self.old.buffer.bytes ≡ false }
        ensures answers { IfOk result (λ answer.
            IsNext (S.given self.old.source) (S.ends self.old.source) self.old.buffer answer
            (S.given self.new.source) (S.ends self.new.source) self.new.buffer) }
        ensures healthy { OnOk result (S.failures self.new.source ≡ S.failures self.old.source) }
        ensures left { OnErr result
            (IsLeft (S.given self.old.source) (S.ends self.old.source) self.old.buffer
            (S.given self.new.source) (S.ends self.new.source) self.new.buffer) }
        ensures refused { IfErr result
            (λ fault. Explains (S.failures self.old.source) (S.failures self.new.source) fault) }
    {
        self.buffer.shorten();
        while !self.buffer.is_spent() {
            let searched = self.buffer.len();
            if self.buffer.read_from(&mut self.source)? == 0 {
                return match self.buffer.len() {
                    0 => Ok(NextLine::End),
                    end => Ok(self.buffer.tell(end, 0)?),
                };
            }
            if let Some(place) = self.buffer.find(searched) {
                return Ok(self.buffer.tell(place, 1)?);
            }
            self.buffer.shorten();
        }
        Ok(NextLine::Spent)
    }

    /// The next line.
    pub fn next(&mut self) -> Result<NextLine, ReadFault>
        // The line that is handed out is the next one of the bytes that the source gave.
        ensures answers { IfOk result (λ answer.
            IsNext (S.given self.old.source) (S.ends self.old.source) self.old.buffer answer
            (S.given self.new.source) (S.ends self.new.source) self.new.buffer) }
        ensures healthy { OnOk result (S.failures self.new.source ≡ S.failures self.old.source) }

        // A fault is explained, and takes nothing of what was given.
        ensures left { OnErr result
            (IsLeft (S.given self.old.source) (S.ends self.old.source) self.old.buffer
            (S.given self.new.source) (S.ends self.new.source) self.new.buffer) }
        ensures refused { IfErr result
            (λ fault. Explains (S.failures self.old.source) (S.failures self.new.source) fault) }

        // The source is not asked where a whole line waits, nor once as many lines are counted as
        // are told.
        ensures unasked { has_feed self.old.buffer.bytes ≡ true
            → self.new.source ≡ self.old.source }
        ensures spent { IsSpent self.old.buffer
            → (result ≡ Ok NextLine.Spent) × (self.new ≡ self.old) }
    {
        if self.buffer.is_spent() {
            return Ok(NextLine::Spent);
        }
        match self.buffer.find(0) {
            Some(place) => Ok(self.buffer.tell(place, 1)?),
            None => self.read_line(),
        }
    }
}
