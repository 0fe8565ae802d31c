//! What references are, and who knows their values.

ghost use Rattle.std.specs.Prelude.{◌≡◌, Err, IfOk};
ghost use Rattle.sim_values.specs.declared.value_fault.ValueFault.TheVariants.{Unassigned};
ghost use Rattle.param_eval.specs.Operators.{Evaluated};
ghost use Rattle.param_eval.specs.References.{Reference, reference_of};

use ned_trees::expressions::Scope;
use sim_values::NoMemory;
use sim_values::text::Text;
use sim_values::value::Value;
use sim_values::value_fault::ValueFault;
use std::alloc::Global;

/// A reference, as written; an index in it is the number that it is.
#[derive(Clone, Copy)]
pub enum Name<'m> {
    /// `x`.
    Own(&'m Text),
    /// `this.x`, `parent.x`.
    Scoped(Scope, &'m Text),
    /// `sub.x`.
    Member(&'m Text, &'m Text),
    /// `sub[e].x`.
    Element(&'m Text, i64, &'m Text),
    /// `index`, `index()`.
    Index,
    /// `parentIndex()`.
    ParentIndex,
    /// `sizeof(g)`.
    Sizeof(&'m Text),
    /// `exists(sub)`.
    Exists(&'m Text),
    /// `exists(sub[e])`.
    ExistsAt(&'m Text, i64),
}

/// Who knows what references mean where an expression stands.
pub trait Names {
    /// The value of a reference, or why it has none.
    ghost meaning: { Self → Reference → Evaluated };

    /// The value of a reference, or why it has none.
    fn value_of(&self, alloc: Global, name: Name<'_>) -> Result<Result<Value, ValueFault>, NoMemory>
        ensures { IfOk result (λ found. found ≡ meaning self.now (reference_of name.entry)) };
}

/// Where no reference means anything: each is [`ValueFault::Unassigned`].
#[derive(Clone, Copy)]
pub struct NoNames;

impl Names for NoNames {
    ghost meaning = { λ _ _. Err Unassigned };

    fn value_of(
        &self,
        _alloc: Global,
        _name: Name<'_>,
    ) -> Result<Result<Value, ValueFault>, NoMemory> {
        Ok(Err(ValueFault::Unassigned))
    }
}
