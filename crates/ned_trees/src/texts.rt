//! The NED texts of a model.

ghost use Rattle.std.specs.Prelude.{◌≡◌, [], ◌∷◌, ◌++◌, length, slice_get, option_map, OnOk, OnErr};
ghost use Rattle.std.specs.Prelude.{IsTrue, ◌↔◌};

use sim_values::NoMemory;
use sim_values::text::Text;
use sqlite_items::Items;
use std::alloc::Global;
use std::marker::Model;

/// The texts of a model's NED files, in order.
#[derive(Drop)]
pub struct NedTexts {
    alloc: Global,
    texts: Items<Text>,
}

impl Model for NedTexts {
    ghost use Rattle.std.specs.Prelude.{List, ℕ};

    ghost Value = { List (List ℕ) };

    ghost view = { λ t. t.texts };
}

impl NedTexts {
    /// No files.
    pub fn new(alloc: Global) -> NedTexts
        ensures { result ≡ [] }
    {
        NedTexts {
            alloc,
            texts: Items::new(alloc),
        }
    }

    /// Adds the text of a file at the end. Where memory runs out, nothing changes.
    pub fn push(&mut self, bytes: &[u8]) -> Result<(), NoMemory>
        ensures ok { OnOk result (self.new ≡ self.old ++ bytes.now ∷ []) }
        ensures err { OnErr result (self.new ≡ self.old) }
    {
        let text = Text::from_bytes(self.alloc, bytes)?;
        self.texts.push(text)?;
        Ok(())
    }

    /// How many files there are.
    pub fn len(&self) -> usize
        ensures { result ≡ length self.now }
    {
        self.texts.len()
    }

    /// Whether there are none.
    pub fn is_empty(&self) -> bool
        ensures { IsTrue result ↔ (self.now ≡ []) }
    {
        self.texts.is_empty()
    }

    /// The text of a file.
    pub fn get(&self, at: usize) -> Option<&[u8]>
        ensures { option_map (λ b. b.now) result ≡ slice_get self.now at }
    {
        match self.texts.get(at) {
            Some(text) => Some(text.as_bytes()),
            None => None,
        }
    }

    /// The texts, in order.
    pub fn as_slice(&self) -> &[Text]
        ensures { result.now ≡ self.now }
    {
        self.texts.as_slice()
    }
}
