//! Constant expressions: those that say their value wherever they stand.

ghost use Rattle.std.specs.Prelude.{◌≡◌};
ghost use Rattle.ini_entries.specs.Constants as constants;

use ned_trees::expressions::Expression;

/// Whether an expression is constant: of literals, operators, `?:`, parentheses, `min` and `max`
/// alone, with nothing that refers to a parameter, an index, a size or a submodule.
///
/// It goes down the tree natively, which is at most 64 deep where it was read of a text.
pub fn is_constant(expression: &Expression) -> bool
    ensures { result ≡ constants.is_constant expression.now }
{
    match expression {
        Expression::Literal(_) => true,
        Expression::Group(part) | Expression::Signed(_, part) => is_constant(part.get()),
        Expression::Chosen(_, a, b) | Expression::Binary(_, a, b) => {
            is_constant(a.get()) && is_constant(b.get())
        }
        Expression::Conditional(condition, a, b) => {
            is_constant(condition.get()) && is_constant(a.get()) && is_constant(b.get())
        }
        Expression::Name(_)
        | Expression::Scoped(..)
        | Expression::Member(..)
        | Expression::Element(..)
        | Expression::Index
        | Expression::IndexCall
        | Expression::ParentIndex
        | Expression::Sizeof(_)
        | Expression::Exists(_)
        | Expression::ExistsAt(..) => false,
    }
}
