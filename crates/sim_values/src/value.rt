//! Values of parameters.

ghost use Rattle.std.specs.Prelude.{◌≡◌, IfOk};

use crate::text::Text;
use std::alloc::{AllocError, Global};

/// What a quantity measures.
#[derive(Clone, Copy, Debug, PartialEq, Eq)]
pub enum Dimension {
    /// In whole picoseconds.
    Time,
    /// In whole bits per second.
    Rate,
    /// In whole bits.
    Length,
}

/// A value of a parameter, or of an expression.
#[derive(Debug, Drop)]
pub enum Value {
    Whole(i64),
    Truth(bool),
    Text(Text),
    /// An amount in ps, bps or b.
    Quantity(Dimension, i64),
}

impl Value {
    /// An equal value.
    pub fn copy(&self, alloc: Global) -> Result<Value, AllocError>
        ensures { IfOk result (λ v. v ≡ self.now) }
    {
        match self {
            Value::Whole(n) => Ok(Value::Whole(*n)),
            Value::Truth(b) => Ok(Value::Truth(*b)),
            Value::Text(text) => Ok(Value::Text(text.copy(alloc)?)),
            Value::Quantity(dimension, amount) => Ok(Value::Quantity(*dimension, *amount)),
        }
    }
}
