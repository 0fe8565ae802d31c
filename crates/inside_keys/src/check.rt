//! What values have to be.

ghost use Rattle.std.specs.Prelude.{◌≡◌};
ghost use Rattle.inside_keys.specs.Checks.{amount, checked, not_negative, told};
ghost use Rattle.param_values.specs.Kinds.{of_kind};

use param_values::kind::{Kind, of_kind};
use sim_values::model_fault::ModelFault;
use sim_values::value::Value;
use sim_values::value_fault::ValueFault;

/// What the value of an expression has to be.
#[derive(Clone, Copy, PartialEq, Eq)]
pub enum Check {
    /// The value of a parameter of that kind.
    Parameter(Kind),
    /// The same, and not below zero.
    Amount(Kind),
    /// The whole number 0.
    Zero,
    /// A truth value.
    Condition,
    /// 0 to 65,536: less is a mismatch, and more would be too many modules.
    VectorSize,
    /// 0 to 65,536.
    GateSize,
}

/// The value, where it isn't a negative amount.
fn not_negative(value: Value) -> Result<Value, ModelFault>
    ensures { result ≡ not_negative value }
{
    match value {
        Value::Quantity(dimension, amount) => {
            if amount < 0 {
                Err(ModelFault::Value(ValueFault::Mismatch))
            } else {
                Ok(Value::Quantity(dimension, amount))
            }
        }
        _ => Err(ModelFault::Value(ValueFault::Mismatch)),
    }
}

/// The value of a parameter of that kind.
fn parameter(kind: Kind, value: Value) -> Result<Value, ModelFault>
    ensures { result ≡ told (of_kind kind value) }
{
    match of_kind(kind, value) {
        Ok(value) => Ok(value),
        Err(fault) => Err(ModelFault::Value(fault)),
    }
}

/// The value of a parameter of that kind, which isn't negative.
fn amount(kind: Kind, value: Value) -> Result<Value, ModelFault>
    ensures { result ≡ amount kind value }
{
    match parameter(kind, value) {
        Ok(value) => not_negative(value),
        Err(fault) => Err(fault),
    }
}

/// The value, where it is what it has to be.
pub fn checked(check: Check, value: Value) -> Result<Value, ModelFault>
    ensures { result ≡ checked check value }
{
    match (check, value) {
        (Check::Parameter(kind), value) => parameter(kind, value),
        (Check::Amount(kind), value) => amount(kind, value),
        (Check::Zero, Value::Whole(0)) => Ok(Value::Whole(0)),
        (Check::Condition, Value::Truth(holds)) => Ok(Value::Truth(holds)),
        (Check::VectorSize, Value::Whole(size)) => {
            if size < 0 {
                Err(ModelFault::Value(ValueFault::Mismatch))
            } else if size > 65536 {
                Err(ModelFault::TooManyModules)
            } else {
                Ok(Value::Whole(size))
            }
        }
        (Check::GateSize, Value::Whole(size)) => {
            if size < 0 || size > 65536 {
                Err(ModelFault::GateSize)
            } else {
                Ok(Value::Whole(size))
            }
        }
        _ => Err(ModelFault::Value(ValueFault::Mismatch)),
    }
}
