//! Values of expressions.

ghost use Rattle.std.specs.Prelude.{◌≡◌, ◌++◌, IfOk};
ghost use Rattle.check_rows.specs.Example as example;

use crate::escapes::unescaped;
use crate::telling::Telling;
use crate::tree_rows::tell_literal;
use ned_expressions::parse::parse_expression;
use ned_trees::expressions::{Expression, Scope};
use param_eval::evaluation::evaluate;
use param_eval::names::{Name, Names};
use sim_values::NoMemory;
use sim_values::text::Text;
use sim_values::value::{Dimension, Value};
use sim_values::value_fault::ValueFault;
use std::alloc::Global;

/// What references mean in these rows.
struct Example;

/// A parameter of a bare name.
fn own(name: &[u8]) -> Result<Value, ValueFault>
    ensures { result ≡ example.own name.now }
{
    if name == b"count".as_slice() {
        Ok(Value::Whole(3))
    } else if name == b"gap".as_slice() {
        Ok(Value::Quantity(Dimension::Time, 2_000_000_000_000))
    } else if name == b"polite".as_slice() {
        Ok(Value::Truth(true))
    } else if name == b"least".as_slice() {
        Ok(Value::Whole(i64::MIN))
    } else if name == b"round".as_slice() {
        Err(ValueFault::Circle)
    } else {
        Err(ValueFault::Unassigned)
    }
}

/// One text after the other.
fn joined(alloc: Global, first: &[u8], second: &[u8]) -> Result<Text, NoMemory>
    ensures { IfOk result (λ text. text ≡ first.now ++ second.now) }
{
    let mut bytes = Vec::from_slice(alloc, first)?;
    bytes.extend_from_slice(second)?;
    Ok(Text::from_vec(bytes))
}

impl Names for Example {
    ghost meaning = { λ _ r. example.meaning r };

    fn value_of(
        &self,
        alloc: Global,
        name: Name<'_>,
    ) -> Result<Result<Value, ValueFault>, NoMemory> {
        Ok(match name {
            Name::Own(x) => own(x.as_bytes()),
            Name::Scoped(Scope::This, x) => Ok(Value::Text(joined(alloc, b"this", x.as_bytes())?)),
            Name::Scoped(Scope::Parent, x) => {
                Ok(Value::Text(joined(alloc, b"parent", x.as_bytes())?))
            }
            Name::Member(sub, x) => {
                Ok(Value::Text(joined(alloc, sub.as_bytes(), x.as_bytes())?))
            }
            Name::Element(_, index, _) => Ok(Value::Whole(index)),
            Name::Index => Ok(Value::Whole(5)),
            Name::ParentIndex => Ok(Value::Whole(7)),
            Name::Sizeof(_) => Err(ValueFault::Unassigned),
            Name::Exists(sub) => Ok(Value::Truth(sub.is(b"sub"))),
            Name::ExistsAt(_, index) => Ok(Value::Truth(index < 3)),
        })
    }
}

/// Tells the value of an expression, or why it has none.
fn tell_value(alloc: Global, told: &mut Telling, expression: &Expression) {
    match evaluate(alloc, expression, &Example) {
        Ok(Ok(value)) => tell_literal(told, &value),
        Ok(Err(fault)) => told.bytes(fault.name()),
        Err(error) => told.fail(error.error()),
    }
}

/// Tells the value of a text that is an expression, or why it has none.
pub fn tell_expression(alloc: Global, told: &mut Telling, row: &str) {
    let text = unescaped(alloc, told, row);
    match parse_expression(alloc, text.as_slice()) {
        Ok(read) => tell_value(alloc, told, &read),
        Err(refusal) => told.raw(&refusal),
    }
}
