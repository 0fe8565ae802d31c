//! Names that modules give, which take no memory where they are words of the module's code.

ghost use Rattle.std.specs.Prelude.{◌≡◌, IfOk};
ghost use Rattle.std.specs.Str.{bytes_eq};

use crate::names::are_same;
use sim_values::text::Text;
use std::alloc::{AllocError, Global};
use std::marker::Model;

/// Where the bytes of a name stand.
#[derive(Drop)]
enum Bytes {
    /// In the program itself.
    Word(&'static str),
    /// In memory of their own.
    Owned(Text),
}

/// A name that a module gives, which contracts see as the list of its bytes.
#[derive(Drop)]
pub struct Name {
    bytes: Bytes,
}

impl Model for Name {
    ghost use Rattle.std.specs.Prelude.{List, ℕ};
    ghost use Rattle.module_api.specs.Spelling.{spelled};

    ghost Value = { List ℕ };

    ghost view = { λ n. spelled n.bytes };
}

impl Name {
    /// A word of the program's own, which takes no memory.
    pub fn word(word: &'static str) -> Name
        ensures { result ≡ word.now }
    {
        Name {
            bytes: Bytes::Word(word),
        }
    }

    /// The name of these bytes.
    pub fn of_text(text: Text) -> Name
        ensures { result ≡ text }
    {
        Name {
            bytes: Bytes::Owned(text),
        }
    }

    /// Its bytes.
    pub fn as_bytes(&self) -> &[u8]
        ensures { result.now ≡ self.now }
    {
        match &self.bytes {
            Bytes::Word(word) => word.as_bytes(),
            Bytes::Owned(text) => text.as_bytes(),
        }
    }

    /// A text of its bytes.
    pub fn text(&self, alloc: Global) -> Result<Text, AllocError>
        ensures { IfOk result (λ text. text ≡ self.now) }
    {
        Text::from_bytes(alloc, self.as_bytes())
    }

    /// An equal name, which takes no memory where it is a word of the program's own.
    pub fn copy(&self, alloc: Global) -> Result<Name, AllocError>
        ensures { IfOk result (λ name. name ≡ self.now) }
    {
        match &self.bytes {
            Bytes::Word(word) => Ok(Name::word(word)),
            Bytes::Owned(text) => Ok(Name::of_text(text.copy(alloc)?)),
        }
    }

    /// Whether these are its bytes.
    pub fn is(&self, bytes: &[u8]) -> bool
        ensures { result ≡ bytes_eq self.now bytes.now }
    {
        are_same(self.as_bytes(), bytes)
    }
}
