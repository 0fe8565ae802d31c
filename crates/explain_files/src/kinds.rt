//! Kinds of values, as they are said.

use explain_types::explanation::Explanation;
use ned_trees::declarations::{Declaration, ParameterWord};
use ned_trees::expressions::{Expression, Sign};
use sim_values::value::{Dimension, Value};

/// What values a parameter takes.
pub fn kind_of(declaration: &Declaration) -> &'static str {
    match (declaration.word, declaration.unit) {
        (ParameterWord::Bool, _) => "true or false",
        (ParameterWord::Text, _) => "a text in quotes",
        (_, Some(Dimension::Time)) => "a time, as 5s",
        (_, Some(Dimension::Rate)) => "a rate, as 10Mbps",
        (_, Some(Dimension::Length)) => "a length, as 100B",
        (_, None) => "a whole number",
    }
}

/// What a value is.
pub fn kind_of_value(value: &Value) -> &'static str {
    match value {
        Value::Whole(_) => "a whole number",
        Value::Truth(_) => "a truth value",
        Value::Text(_) => "a text",
        Value::Quantity(Dimension::Time, _) => "a time",
        Value::Quantity(Dimension::Rate, _) => "a rate",
        Value::Quantity(Dimension::Length, _) => "a length",
    }
}

/// The unit that stands for those of a dimension.
fn unit_of(dimension: Dimension) -> &'static str {
    match dimension {
        Dimension::Time => "s",
        Dimension::Rate => "bps",
        Dimension::Length => "B",
    }
}

/// The literal that an expression is, with whether a minus stands before it.
pub fn literal_in(expression: &Expression) -> Option<(bool, &Value)> {
    match expression {
        Expression::Literal(value) => Some((false, value)),
        Expression::Signed(Sign::Minus, part) => match part.get() {
            Expression::Literal(value) if !matches!(value, Value::Truth(_) | Value::Text(_)) => {
                Some((true, value))
            }
            _ => None,
        },
        _ => None,
    }
}

/// Says that a whole number wants a unit, where the parameter takes a quantity.
pub fn say_unit(
    told: &mut Explanation,
    declaration: &Declaration,
    is_negative: bool,
    value: &Value,
) {
    let (Some(dimension), Value::Whole(number)) = (declaration.unit, value) else {
        return;
    };
    if matches!(declaration.word, ParameterWord::Bool | ParameterWord::Text) {
        return;
    }
    told.say(": write it with a unit, as ");
    if is_negative || *number < 0 {
        told.say("-");
    }
    told.say_number(number.unsigned_abs() as usize);
    told.say(unit_of(dimension));
}
