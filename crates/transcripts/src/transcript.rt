//! What was asked and heard.

ghost use Rattle.std.specs.Prelude.{◌≡◌, List, [], ◌∷◌, ◌++◌};
ghost use Rattle.std.specs.Borrow.{ftrue};
ghost use Rattle.std.specs.Coded.{coded_list};
ghost use Rattle.transcripts.specs.Asks.{asked_code};
ghost use Rattle.transcripts.specs.Heard.{Heard, Answer, Files, OutOfMemory, Read, heard_code};
ghost use Rattle.transcripts.specs.declared.asked.AskedLine.{AskedLine as AskedValue};
ghost use Rattle.transcripts.specs.declared.asked.AskedLine.TheVariants as asks;

use sim_values::NoMemory;
use std::marker::{Model, PhantomData};
use text_writer::noted::GhostBytes;

/// What was asked and heard, one after the other. It takes no memory, and only clauses can read it.
#[derive(Drop)]
pub struct Transcript {
    marker: PhantomData<u8>,
    /// What was asked.
    pub ghost asked: { List AskedValue } by { coded_list asked_code },
    /// What was heard.
    pub ghost heard: { List Heard } by { coded_list heard_code },
}

impl Model for Transcript {
    ghost also_owns = { λ _. ftrue };
}

impl Transcript {
    /// Nothing was asked or heard.
    pub fn new() -> Transcript
        ensures asked { result.asked ≡ [] }
        ensures heard { result.heard ≡ [] }
    {
        Transcript {
            marker: PhantomData,
        }
    }

    /// This line was asked.
    pub fn asks_line(&mut self, _line: &[u8])
        ensures asked { self.new.asked ≡ self.old.asked ++ asks.Line _line.now ∷ [] }
        ensures heard { self.new.heard ≡ self.old.heard }
    {}

    /// A line was asked that is too long to be kept.
    pub fn asks_too_long(&mut self)
        ensures asked { self.new.asked ≡ self.old.asked ++ asks.TooLong ∷ [] }
        ensures heard { self.new.heard ≡ self.old.heard }
    {}

    /// This answer was heard.
    pub fn hears(&mut self, _answer: &[u8])
        ensures heard { self.new.heard ≡ self.old.heard ++ Answer _answer.now ∷ [] }
        ensures asked { self.new.asked ≡ self.old.asked }
    {}

    /// Both files of a run of the configuration of that name were kept, of these bytes.
    pub fn hears_files(
        &mut self,
        _config: &GhostBytes,
        _scalars: &GhostBytes,
        _vectors: &GhostBytes,
    )
        ensures heard { self.new.heard ≡ self.old.heard
            ++ Files _config.now.bytes _scalars.now.bytes _vectors.now.bytes ∷ [] }
        ensures asked { self.new.asked ≡ self.old.asked }
    {}

    /// The file of that path was read, and holds these bytes.
    pub fn hears_read(&mut self, _path: &[u8], _text: &[u8])
        ensures heard { self.new.heard ≡ self.old.heard ++ Read _path.now _text.now ∷ [] }
        ensures asked { self.new.asked ≡ self.old.asked }
    {}

    /// Memory ran out, with that error. No other call notes this, so who notes it has met one.
    pub fn hears_no_memory(&mut self, _error: &NoMemory)
        ensures heard { self.new.heard ≡ self.old.heard ++ OutOfMemory ∷ [] }
        ensures asked { self.new.asked ≡ self.old.asked }
    {}
}
