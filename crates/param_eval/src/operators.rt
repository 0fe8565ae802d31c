//! What operators make of values.

ghost use Rattle.std.specs.Prelude.{◌≡◌, ◌++◌, IfOk};
ghost use Rattle.param_eval.specs.Combinations as combinations;
ghost use Rattle.param_eval.specs.Operators as operators;

use crate::wholes::{
    complement, difference, negation, power, product, quotient, remainder, shift_left, shift_right,
    sum,
};
use ned_trees::expressions::{Choice, Operator, Sign};
use sim_values::NoMemory;
use sim_values::text::Text;
use sim_values::value::{Dimension, Value};
use sim_values::value_fault::ValueFault;
use std::alloc::Global;
use std::cmp::Ordering;

/// A whole number, where there is one.
fn whole(number: Result<i64, ValueFault>) -> Result<Value, ValueFault>
    ensures { result ≡ operators.made Value.Whole number }
{
    match number {
        Ok(number) => Ok(Value::Whole(number)),
        Err(fault) => Err(fault),
    }
}

/// A quantity of this number, where there is one.
fn quantity(dimension: Dimension, number: Result<i64, ValueFault>) -> Result<Value, ValueFault>
    ensures { result ≡ operators.made (Value.Quantity dimension) number }
{
    match number {
        Ok(number) => Ok(Value::Quantity(dimension, number)),
        Err(fault) => Err(fault),
    }
}

/// What an operator that compares says of what stands in this order.
fn compared(operator: Operator, order: Ordering) -> Result<Value, ValueFault>
    ensures { result ≡ operators.compared operator order }
{
    match operator {
        Operator::Equal => Ok(Value::Truth(order.is_eq())),
        Operator::NotEqual => Ok(Value::Truth(order.is_ne())),
        Operator::Less => Ok(Value::Truth(order.is_lt())),
        Operator::AtMost => Ok(Value::Truth(order.is_le())),
        Operator::Greater => Ok(Value::Truth(order.is_gt())),
        Operator::AtLeast => Ok(Value::Truth(order.is_ge())),
        _ => Err(ValueFault::Mismatch),
    }
}

/// Two whole numbers.
fn of_wholes(operator: Operator, left: i64, right: i64) -> Result<Value, ValueFault>
    ensures { result ≡ operators.of_wholes operator left right }
{
    match operator {
        Operator::BitOr => Ok(Value::Whole(left | right)),
        Operator::BitXor => Ok(Value::Whole(left ^ right)),
        Operator::BitAnd => Ok(Value::Whole(left & right)),
        Operator::ShiftLeft => whole(shift_left(left, right)),
        Operator::ShiftRight => whole(shift_right(left, right)),
        Operator::Add => whole(sum(left, right)),
        Operator::Subtract => whole(difference(left, right)),
        Operator::Multiply => whole(product(left, right)),
        Operator::Divide => whole(quotient(left, right)),
        Operator::Remainder => whole(remainder(left, right)),
        Operator::Power => whole(power(left, right)),
        _ => compared(operator, left.cmp(&right)),
    }
}

/// Two amounts of one dimension.
fn of_amounts(
    dimension: Dimension,
    operator: Operator,
    left: i64,
    right: i64,
) -> Result<Value, ValueFault>
    ensures { result ≡ operators.of_amounts dimension operator left right }
{
    match operator {
        Operator::Add => quantity(dimension, sum(left, right)),
        Operator::Subtract => quantity(dimension, difference(left, right)),
        Operator::Remainder => quantity(dimension, remainder(left, right)),
        Operator::Divide => whole(quotient(left, right)),
        _ => compared(operator, left.cmp(&right)),
    }
}

/// A quantity and a whole number.
fn of_amount(
    dimension: Dimension,
    operator: Operator,
    amount: i64,
    number: i64,
) -> Result<Value, ValueFault>
    ensures { result ≡ operators.of_amount dimension operator amount number }
{
    match operator {
        Operator::Multiply => quantity(dimension, product(amount, number)),
        Operator::Divide => quantity(dimension, quotient(amount, number)),
        _ => Err(ValueFault::Mismatch),
    }
}

/// A whole number and a quantity.
fn of_number(
    dimension: Dimension,
    operator: Operator,
    number: i64,
    amount: i64,
) -> Result<Value, ValueFault>
    ensures { result ≡ operators.of_number dimension operator number amount }
{
    match operator {
        Operator::Multiply => quantity(dimension, product(number, amount)),
        _ => Err(ValueFault::Mismatch),
    }
}

/// Two quantities.
fn of_quantities(
    operator: Operator,
    left: (Dimension, i64),
    right: (Dimension, i64),
) -> Result<Value, ValueFault>
    ensures { result ≡ operators.of_quantities operator left.0 left.1 right.0 right.1 }
{
    if left.0 == right.0 {
        of_amounts(left.0, operator, left.1, right.1)
    } else {
        Err(ValueFault::Mismatch)
    }
}

/// The one text, and after it the other.
fn joined(alloc: Global, left: &Text, right: &Text) -> Result<Text, NoMemory>
    ensures { IfOk result (λ text. text ≡ left.now ++ right.now) }
{
    let mut bytes = Vec::from_slice(alloc, left.as_bytes())?;
    bytes.extend_from_slice(right.as_bytes())?;
    Ok(Text::from_vec(bytes))
}

/// Two texts.
fn of_texts(
    alloc: Global,
    operator: Operator,
    left: &Text,
    right: &Text,
) -> Result<Result<Value, ValueFault>, NoMemory>
    ensures { IfOk result (λ found. found ≡ operators.of_texts operator left.now right.now) }
{
    match operator {
        Operator::Add => Ok(Ok(Value::Text(joined(alloc, left, right)?))),
        _ => Ok(compared(operator, left.as_bytes().cmp(right.as_bytes()))),
    }
}

/// Two truth values.
fn of_truths(operator: Operator, left: bool, right: bool) -> Result<Value, ValueFault>
    ensures { result ≡ operators.of_truths operator left right }
{
    match operator {
        Operator::Or => Ok(Value::Truth(left || right)),
        Operator::And => Ok(Value::Truth(left && right)),
        Operator::Xor | Operator::NotEqual => Ok(Value::Truth(left != right)),
        Operator::Equal => Ok(Value::Truth(left == right)),
        _ => Err(ValueFault::Mismatch),
    }
}

/// What an operator makes of two values. `&&` and `||` take both here: see [`decided`].
///
/// The fault is the first in this order: what is no kind of value for the operator is `Mismatch`,
/// then as each rule has it.
pub fn applied(
    alloc: Global,
    operator: Operator,
    left: &Value,
    right: &Value,
) -> Result<Result<Value, ValueFault>, NoMemory>
    ensures { IfOk result (λ found. found ≡ operators.applied operator left.now right.now) }
{
    match (left, right) {
        (Value::Whole(a), Value::Whole(b)) => Ok(of_wholes(operator, *a, *b)),
        (Value::Quantity(d, a), Value::Quantity(e, b)) => {
            Ok(of_quantities(operator, (*d, *a), (*e, *b)))
        }
        (Value::Quantity(d, a), Value::Whole(n)) => Ok(of_amount(*d, operator, *a, *n)),
        (Value::Whole(n), Value::Quantity(d, a)) => Ok(of_number(*d, operator, *n, *a)),
        (Value::Text(a), Value::Text(b)) => of_texts(alloc, operator, a, b),
        (Value::Truth(a), Value::Truth(b)) => Ok(of_truths(operator, *a, *b)),
        _ => Ok(Err(ValueFault::Mismatch)),
    }
}

/// What the left side alone decides, for `&&` and `||`.
pub fn decided(operator: Operator, left: &Value) -> Option<Result<Value, ValueFault>>
    ensures { result ≡ operators.decided operator left.now }
{
    match (operator, left) {
        (Operator::And, Value::Truth(true)) | (Operator::Or, Value::Truth(false)) => None,
        (Operator::And, Value::Truth(false)) => Some(Ok(Value::Truth(false))),
        (Operator::Or, Value::Truth(true)) => Some(Ok(Value::Truth(true))),
        (Operator::And | Operator::Or, _) => Some(Err(ValueFault::Mismatch)),
        _ => None,
    }
}

/// What a sign before a value makes of it.
pub fn signed(sign: Sign, operand: &Value) -> Result<Value, ValueFault>
    ensures { result ≡ operators.signed sign operand.now }
{
    match (sign, operand) {
        (Sign::Minus, Value::Whole(n)) => whole(negation(*n)),
        (Sign::Minus, Value::Quantity(d, n)) => quantity(*d, negation(*n)),
        (Sign::Not, Value::Truth(b)) => Ok(Value::Truth(!*b)),
        (Sign::Complement, Value::Whole(n)) => Ok(Value::Whole(complement(*n))),
        _ => Err(ValueFault::Mismatch),
    }
}

/// The lesser or the greater of two numbers.
fn chosen_number(choice: Choice, left: i64, right: i64) -> i64
    ensures { result ≡ operators.chosen_number choice left right }
{
    match choice {
        Choice::Min => left.min(right),
        Choice::Max => left.max(right),
    }
}

/// The lesser or the greater of two values, `min` or `max`.
pub fn chosen(choice: Choice, left: &Value, right: &Value) -> Result<Value, ValueFault>
    ensures { result ≡ operators.chosen choice left.now right.now }
{
    match (left, right) {
        (Value::Whole(a), Value::Whole(b)) => Ok(Value::Whole(chosen_number(choice, *a, *b))),
        (Value::Quantity(d, a), Value::Quantity(e, b)) => {
            if *d == *e {
                Ok(Value::Quantity(*d, chosen_number(choice, *a, *b)))
            } else {
                Err(ValueFault::Mismatch)
            }
        }
        _ => Err(ValueFault::Mismatch),
    }
}

/// What makes a value of two.
#[derive(Clone, Copy)]
pub enum Combination {
    Operator(Operator),
    Choice(Choice),
}

/// What is made of two values.
pub(crate) fn combined(
    alloc: Global,
    combination: Combination,
    left: &Value,
    right: &Value,
) -> Result<Result<Value, ValueFault>, NoMemory>
    ensures { IfOk result (λ found. found ≡ combinations.combined combination left.now right.now) }
{
    match combination {
        Combination::Operator(operator) => applied(alloc, operator, left, right),
        Combination::Choice(choice) => Ok(chosen(choice, left, right)),
    }
}

/// What the left side alone decides.
pub(crate) fn settled(combination: Combination, left: &Value) -> Option<Result<Value, ValueFault>>
    ensures { result ≡ combinations.settled combination left.now }
{
    match combination {
        Combination::Operator(operator) => decided(operator, left),
        Combination::Choice(_) => None,
    }
}
