//! A text as it grows.

ghost use Rattle.std.specs.Prelude.{◌≡◌, ◌++◌, ◌∷◌, [], IfOk};
ghost use Rattle.std.specs.Fmt.{decimal};

use crate::noted::GhostBytes;
use itoa::Buffer as Digits;
use sim_values::NoMemory;
use sim_values::text::Text;
use std::alloc::Global;
use std::marker::Model;

/// A text as it grows. A call that adds to it never fails: the writer keeps for itself whether
/// memory ran out, and whoever takes the text is told. Contracts see it as the list of all bytes
/// that were to be added.
#[derive(Drop)]
pub struct TextWriter {
    bytes: Vec<u8>,
    /// Why a part is missing, where one is.
    refused: Option<NoMemory>,
    /// All that was to be added.
    added: GhostBytes,
}

impl Model for TextWriter {
    ghost use Rattle.std.specs.Prelude.{◌≡◌, List, ℕ, None};

    ghost Value = { List ℕ };

    ghost view = { λ w. w.added.bytes };

    ghost invariant = { λ w. w.refused ≡ None → w.bytes.items ≡ w.added.bytes };
}

impl TextWriter {
    /// A text of no bytes yet, which takes no memory.
    pub fn new(alloc: Global) -> TextWriter
        ensures { result ≡ [] }
    {
        TextWriter {
            bytes: Vec::new(alloc),
            refused: None,
            added: GhostBytes::new(),
        }
    }

    /// Adds these bytes.
    pub fn push(&mut self, bytes: &[u8])
        ensures { self.new ≡ self.old ++ bytes.now }
    {
        if let Err(error) = self.bytes.extend_from_slice(bytes) {
            self.refused = Some(NoMemory::from(error));
        }
        self.added.note(bytes);
    }

    /// Adds a byte.
    pub fn push_byte(&mut self, byte: u8)
        ensures { self.new ≡ self.old ++ byte ∷ [] }
    {
        self.push(&[byte]);
    }

    /// Adds the decimal digits of a number.
    pub fn push_number(&mut self, number: u64)
        ensures { self.new ≡ self.old ++ decimal number }
    {
        self.push_wide(u128::from(number));
    }

    /// Adds the decimal digits of a number of more bits.
    pub fn push_wide(&mut self, number: u128)
        ensures { self.new ≡ self.old ++ decimal number }
    {
        let mut digits = Digits::new();
        self.push(digits.format(number).as_bytes());
    }

    /// Notes that memory ran out where something was made that was to be added.
    pub fn refuse(&mut self, error: NoMemory)
        ensures { self.new ≡ self.old }
    {
        self.refused = Some(error);
    }

    /// The text; or that memory ran out meanwhile.
    pub fn finish(self) -> Result<Text, NoMemory>
        ensures { IfOk result (λ text. text ≡ self) }
    {
        let TextWriter {
            bytes,
            refused,
            added: _,
        } = self;
        match refused {
            None => Ok(Text::from_vec(bytes)),
            Some(error) => Err(error),
        }
    }
}
