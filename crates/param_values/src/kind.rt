//! Of what kind a parameter is.

ghost use Rattle.std.specs.Prelude.{◌≡◌};
ghost use Rattle.param_values.specs.Kinds as kinds;

use sim_values::value::{Dimension, Value};
use sim_values::value_fault::ValueFault;

/// Of what kind the values of a parameter are, as it is declared; of a number with the dimension of
/// its unit.
#[derive(Clone, Copy, PartialEq, Eq)]
pub enum Kind {
    /// `bool`.
    Truth,
    /// `string`.
    Text,
    /// `int`: a whole number, or with a unit a quantity of its dimension.
    Int(Option<Dimension>),
    /// `double`: a quantity of the dimension of its unit. Without a unit it has no values.
    Double(Option<Dimension>),
}

/// Whether a parameter of that kind may have the value.
pub fn is_of_kind(kind: Kind, value: &Value) -> bool
    ensures { result ≡ kinds.is_of_kind kind value.now }
{
    match (kind, value) {
        (Kind::Truth, Value::Truth(_)) => true,
        (Kind::Text, Value::Text(_)) => true,
        (Kind::Int(None), Value::Whole(_)) => true,
        (Kind::Int(Some(unit)), Value::Quantity(dimension, _)) => unit == *dimension,
        (Kind::Double(Some(unit)), Value::Quantity(dimension, _)) => unit == *dimension,
        _ => false,
    }
}

/// The value, where it is of that kind.
pub fn of_kind(kind: Kind, value: Value) -> Result<Value, ValueFault>
    ensures { result ≡ kinds.of_kind kind value }
{
    if is_of_kind(kind, &value) {
        Ok(value)
    } else {
        Err(ValueFault::Mismatch)
    }
}
