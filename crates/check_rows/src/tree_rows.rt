//! What becomes of expressions.

use crate::escapes::unescaped;
use crate::telling::Telling;
use crate::words::written;
use ned_expressions::chains::angled;
use ned_expressions::parse::parse_expression;
use ned_tokens::lines::tokenize;
use ned_tokens::refusal::Refusal;
use ned_tokens::token::Token;
use ned_trees::expressions::{Choice, Expression, Operator, Scope, Sign};
use sim_values::value::{Dimension, Value};
use std::alloc::Global;

/// The unit that amounts of a dimension are told in.
fn unit_of(dimension: Dimension) -> &'static str {
    match dimension {
        Dimension::Time => "ps",
        Dimension::Rate => "bps",
        Dimension::Length => "b",
    }
}

/// Tells a value.
pub fn tell_literal(told: &mut Telling, value: &Value) {
    match value {
        Value::Whole(number) => told.shown(number),
        Value::Truth(truth) => told.shown(truth),
        Value::Text(text) => {
            told.text("\"");
            told.text(written(text));
            told.text("\"");
        }
        Value::Quantity(dimension, amount) => {
            told.shown(amount);
            told.text(unit_of(*dimension));
        }
    }
}

fn scope_word(scope: Scope) -> &'static str {
    match scope {
        Scope::This => "this",
        Scope::Parent => "parent",
    }
}

fn choice_word(choice: Choice) -> &'static str {
    match choice {
        Choice::Min => "min",
        Choice::Max => "max",
    }
}

fn sign_mark(sign: Sign) -> &'static str {
    match sign {
        Sign::Minus => "-",
        Sign::Not => "!",
        Sign::Complement => "~",
    }
}

fn operator_mark(operator: Operator) -> &'static str {
    match operator {
        Operator::Or => "||",
        Operator::Xor => "##",
        Operator::And => "&&",
        Operator::Equal => "==",
        Operator::NotEqual => "!=",
        Operator::Less => "<",
        Operator::AtMost => "<=",
        Operator::Greater => ">",
        Operator::AtLeast => ">=",
        Operator::BitOr => "|",
        Operator::BitXor => "#",
        Operator::BitAnd => "&",
        Operator::ShiftLeft => "<<",
        Operator::ShiftRight => ">>",
        Operator::Add => "+",
        Operator::Subtract => "-",
        Operator::Multiply => "*",
        Operator::Divide => "/",
        Operator::Remainder => "%",
        Operator::Power => "^",
    }
}

/// Tells two names with a point between them.
fn tell_pair(told: &mut Telling, first: &str, second: &str) {
    told.text(first);
    told.text(".");
    told.text(second);
}

/// Tells a text between two others.
fn tell_within(told: &mut Telling, before: &str, text: &str, behind: &str) {
    told.text(before);
    told.text(text);
    told.text(behind);
}

/// Tells the tree of an expression: each operator with its operands in parentheses, the text's own
/// parentheses as braces.
pub fn tell_tree(told: &mut Telling, expression: &Expression) {
    match expression {
        Expression::Literal(value) => tell_literal(told, value),
        Expression::Name(x) => told.text(written(x)),
        Expression::Scoped(scope, x) => tell_pair(told, scope_word(*scope), written(x)),
        Expression::Member(x, y) => tell_pair(told, written(x), written(y)),
        Expression::Element(x, at, y) => {
            tell_within(told, "", written(x), "[");
            tell_tree(told, at.get());
            tell_within(told, "]", ".", written(y));
        }
        Expression::Index => told.text("index"),
        Expression::IndexCall => told.text("index()"),
        Expression::ParentIndex => told.text("parentIndex()"),
        Expression::Sizeof(x) => tell_within(told, "sizeof(", written(x), ")"),
        Expression::Exists(x) => tell_within(told, "exists(", written(x), ")"),
        Expression::ExistsAt(x, at) => {
            tell_within(told, "exists(", written(x), "[");
            tell_tree(told, at.get());
            told.text("])");
        }
        Expression::Chosen(choice, a, b) => {
            tell_within(told, "", choice_word(*choice), "(");
            tell_tree(told, a.get());
            told.text(", ");
            tell_tree(told, b.get());
            told.text(")");
        }
        Expression::Group(part) => {
            told.text("{");
            tell_tree(told, part.get());
            told.text("}");
        }
        Expression::Signed(sign, part) => {
            tell_within(told, "(", sign_mark(*sign), "");
            tell_tree(told, part.get());
            told.text(")");
        }
        Expression::Binary(operator, a, b) => {
            told.text("(");
            tell_tree(told, a.get());
            tell_within(told, " ", operator_mark(*operator), " ");
            tell_tree(told, b.get());
            told.text(")");
        }
        Expression::Conditional(condition, a, b) => {
            told.text("(");
            tell_tree(told, condition.get());
            told.text(" ? ");
            tell_tree(told, a.get());
            told.text(" : ");
            tell_tree(told, b.get());
            told.text(")");
        }
    }
}

/// Tells the tree of a text that is an expression, or why it is none.
pub fn tell_expression(alloc: Global, told: &mut Telling, row: &str) {
    let text = unescaped(alloc, told, row);
    match parse_expression(alloc, text.as_slice()) {
        Ok(read) => tell_tree(told, &read),
        Err(refusal) => told.raw(&refusal),
    }
}

/// Tells whether a text is an expression, or why it is none.
pub fn tell_whether(alloc: Global, told: &mut Telling, row: &str) {
    let text = unescaped(alloc, told, row);
    match parse_expression(alloc, text.as_slice()) {
        Ok(_) => told.text("read"),
        Err(refusal) => told.raw(&refusal),
    }
}

/// Tells how many tokens are left after something.
fn tell_left(told: &mut Telling, left: usize) {
    told.text(", ");
    told.shown(&left);
    told.text(" left");
}

/// Tells what `angled` makes of tokens.
fn tell_tokens(alloc: Global, told: &mut Telling, tokens: &[Token]) {
    match angled(alloc, tokens) {
        Ok((read, rest)) => {
            tell_tree(told, &read);
            tell_left(told, rest.len());
        }
        Err(Refusal::At(left)) => {
            told.text("no");
            tell_left(told, left);
        }
        Err(Refusal::Memory(_)) => told.text("no memory"),
    }
}

/// Tells the tree of an expression between `<` and `>` and how many tokens are left after it, or
/// how many are left at the first that can't go on.
pub fn tell_angled(alloc: Global, told: &mut Telling, row: &str) {
    let text = unescaped(alloc, told, row);
    match tokenize(alloc, text.as_slice()) {
        Ok(list) => tell_tokens(alloc, told, list.tokens.as_slice()),
        Err(error) => told.fail(error),
    }
}
