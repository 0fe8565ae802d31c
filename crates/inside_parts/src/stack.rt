//! A stack.

ghost use Rattle.std.specs.Prelude.{◌≡◌, ◌∷◌, [], OnOk, OnErr, MatchOption, slice_get, length};
ghost use Rattle.std.specs.Option.{option_copied};

use std::alloc::{AllocFailed, Global};
use std::marker::Model;

/// A stack, which contracts see from its top downwards.
#[derive(Drop)]
pub struct Stack<T> {
    items: Vec<T>,
}

impl<T> Model for Stack<T> {
    ghost use Rattle.std.specs.Prelude.{List, reverse};
    ghost use Rattle.std.specs.Coded.{coded_list};

    ghost Value = { List T };

    ghost coded = { coded_list T.code };

    ghost view = { λ s. reverse s.items.items };
}

impl<T: Drop> Stack<T> {
    /// Nothing is on it.
    pub fn new(alloc: Global) -> Stack<T>
        ensures { result ≡ [] }
    {
        Stack {
            items: Vec::new(alloc),
        }
    }

    /// Puts an item on top.
    pub fn push(&mut self, item: T) -> Result<(), AllocFailed<T>>
        ensures ok { OnOk result (self.new ≡ item ∷ self.old) }
        ensures err { OnErr result (self.new ≡ self.old) }
    {
        self.items.push(item)?;
        Ok(())
    }

    /// Takes the top item.
    pub fn pop(&mut self) -> Option<T>
        ensures { MatchOption result ((self.old ≡ [])
            × (self.new ≡ [])) (λ top. self.old ≡ top ∷ self.new) }
    {
        self.items.pop()
    }

    /// How many items it has.
    pub fn len(&self) -> usize
        ensures { result ≡ length self.now }
    {
        self.items.len()
    }

    /// The item that is `depth` below the top.
    pub fn at(&self, depth: usize) -> Option<&T>
        ensures { option_copied result ≡ slice_get self.now depth }
    {
        let length = self.items.len();
        if depth < length {
            self.items.get(length - 1 - depth)
        } else {
            None
        }
    }
}
