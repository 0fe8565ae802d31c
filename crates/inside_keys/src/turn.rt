//! The numbers that loop variables have.

ghost use Rattle.std.specs.Prelude.{◌≡◌, ◌++◌, ◌∷◌, [], IfOk, OnOk};
ghost use Rattle.std.proofs.Common.{rules};
ghost use Rattle.std.proofs.lemmas.Cmp.{int_eq_equiv, lists_equiv};
ghost use Rattle.std.specs.Cmp.{partial_equiv_from_equiv};
ghost use Rattle.std.specs.Cmp.Lexicographic.{pointwise};
ghost use Rattle.std.specs.Cmp.Rules.{hashing};
ghost use Rattle.std.specs.Hash as fed;
ghost use Rattle.std.specs.Ordering.{int_eq};

use std::alloc::{AllocError, Global};
use std::hash::{Hash, Hasher};
use std::marker::Model;

/// The values of the loop variables in scope, the innermost first, which contracts see as their
/// list.
pub struct LoopTurn {
    numbers: Vec<i64>,
}

impl Drop for LoopTurn {
    fn drop(self) {
        let LoopTurn { numbers: _ } = self;
    }
}

impl Model for LoopTurn {
    ghost use Rattle.std.specs.Prelude.{List, ℤ};

    ghost Value = { List ℤ };

    ghost view = { λ t. t.numbers.items };
}

impl PartialEq for LoopTurn {
    ghost eq = { λ a b. pointwise int_eq a b };

    ghost laws = { partial_equiv_from_equiv (lists_equiv int_eq_equiv) };

    fn eq(&self, other: &LoopTurn) -> bool {
        self.as_slice() == other.as_slice()
    }
}

impl Eq for LoopTurn {
    ghost laws = { lists_equiv int_eq_equiv };
}

impl Hash for LoopTurn {
    ghost hash_input = { λ t. fed.slice fed.i64 t };

    ghost respects_eq = { Prim.search (hashing, rules) };

    fn hash<H: Hasher>(&self, state: &mut H) {
        self.as_slice().hash(state);
    }
}

impl LoopTurn {
    /// No loop variables.
    pub fn new(alloc: Global) -> LoopTurn
        ensures { result ≡ [] }
    {
        LoopTurn {
            numbers: Vec::new(alloc),
        }
    }

    /// One more, outside of the others.
    pub fn push(&mut self, number: i64) -> Result<(), AllocError>
        ensures { OnOk result (self.new ≡ self.old ++ number ∷ []) }
    {
        self.numbers.push(number)?;
        Ok(())
    }

    /// All of them.
    pub fn as_slice(&self) -> &[i64]
        ensures { result.now ≡ self.now }
    {
        self.numbers.as_slice()
    }

    /// The same.
    pub fn copy(&self, alloc: Global) -> Result<LoopTurn, AllocError>
        ensures { IfOk result (λ t. t ≡ self.now) }
    {
        Ok(LoopTurn {
            numbers: Vec::from_slice(alloc, self.as_slice())?,
        })
    }
}
