//! What is told of a row.

use sim_values::NoMemory;
use sim_values::text::Text;
use std::alloc::{AllocError, Global};
use std::fmt::{Debug, Display};
use text_writer::writer::TextWriter;

/// What is told of a row, as long as memory suffices: it is asked for that once, at the end.
#[derive(Drop)]
pub struct Telling {
    told: TextWriter,
    alloc: Global,
}

impl Telling {
    /// Nothing is told yet.
    pub fn new(alloc: Global) -> Telling {
        Telling {
            told: TextWriter::new(alloc),
            alloc,
        }
    }

    /// Memory ran out.
    pub fn fail(&mut self, error: AllocError) {
        self.told.refuse(NoMemory::from(error));
    }

    /// Tells a text, by its bytes.
    pub fn bytes(&mut self, text: &[u8]) {
        self.told.push(text);
    }

    /// Tells a text.
    pub fn text(&mut self, text: &str) {
        self.bytes(text.as_bytes());
    }

    /// Tells a text, where there was room for it.
    fn made(&mut self, text: Result<String, AllocError>) {
        match text {
            Ok(text) => self.text(text.as_str()),
            Err(error) => self.fail(error),
        }
    }

    /// Tells a value as a person reads it.
    pub fn shown<T: Display>(&mut self, value: &T) {
        self.made(format!(in self.alloc; "{value}"));
    }

    /// Tells a value as a programmer reads it.
    pub fn raw<T: Debug>(&mut self, value: &T) {
        self.made(format!(in self.alloc; "{value:?}"));
    }

    /// All that was told.
    pub fn end(self) -> Result<Text, NoMemory> {
        let Telling { told, alloc: _ } = self;
        told.finish()
    }
}
