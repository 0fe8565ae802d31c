//! Expressions, as written.

ghost use Rattle.std.specs.Prelude.{◌≡◌, IfOk};

use sim_values::dropping::err_dropping;
use sim_values::text::Text;
use sim_values::value::Value;
use sqlite_items::Boxed;
use std::alloc::{AllocError, Global};

/// An operator between two operands.
#[derive(Clone, Copy, PartialEq, Eq)]
pub enum Operator {
    Or,
    Xor,
    And,
    Equal,
    NotEqual,
    Less,
    AtMost,
    Greater,
    AtLeast,
    BitOr,
    BitXor,
    BitAnd,
    ShiftLeft,
    ShiftRight,
    Add,
    Subtract,
    Multiply,
    Divide,
    Remainder,
    Power,
}

/// An operator before its operand.
#[derive(Clone, Copy, PartialEq, Eq)]
pub enum Sign {
    Minus,
    Not,
    Complement,
}

/// A function of two arguments.
#[derive(Clone, Copy, PartialEq, Eq)]
pub enum Choice {
    Min,
    Max,
}

/// The module whose parameter is meant.
#[derive(Clone, Copy, PartialEq, Eq)]
pub enum Scope {
    This,
    Parent,
}

/// An expression, as written.
#[derive(Drop)]
pub enum Expression {
    Literal(Value),
    /// `x`.
    Name(Text),
    /// `this.x`, `parent.x`.
    Scoped(Scope, Text),
    /// `sub.x`.
    Member(Text, Text),
    /// `sub[e].x`.
    Element(Text, Boxed<Expression>, Text),
    /// `index`.
    Index,
    /// `index()`.
    IndexCall,
    /// `parentIndex()`.
    ParentIndex,
    /// `sizeof(g)`.
    Sizeof(Text),
    /// `exists(sub)`.
    Exists(Text),
    /// `exists(sub[e])`.
    ExistsAt(Text, Boxed<Expression>),
    /// `min(a, b)`, `max(a, b)`.
    Chosen(Choice, Boxed<Expression>, Boxed<Expression>),
    /// `(e)`.
    Group(Boxed<Expression>),
    Signed(Sign, Boxed<Expression>),
    Binary(Operator, Boxed<Expression>, Boxed<Expression>),
    /// `c ? a : b`.
    Conditional(Boxed<Expression>, Boxed<Expression>, Boxed<Expression>),
}

#[cycle(copies)]
fn copied(alloc: Global, part: &Boxed<Expression>) -> Result<Boxed<Expression>, AllocError>
    ensures { IfOk result (λ e. e ≡ part.now) }
{
    Boxed::new(alloc, part.get().copy(alloc)?)
}

impl Expression {
    /// An equal expression.
    #[cycle(copies)]
    pub fn copy(&self, alloc: Global) -> Result<Expression, AllocError>
        ensures { IfOk result (λ e. e ≡ self.now) }
    {
        match self {
            Expression::Literal(v) => Ok(Expression::Literal(copied!(v.copy(alloc)))),
            Expression::Name(x) => Ok(Expression::Name(copied!(x.copy(alloc)))),
            Expression::Scoped(s, x) => Ok(Expression::Scoped(*s, copied!(x.copy(alloc)))),
            Expression::Member(x, y) => {
                let x = copied!(x.copy(alloc));
                let y = copied_behind!(x, y.copy(alloc));
                Ok(Expression::Member(x, y))
            }
            Expression::Element(x, e, y) => {
                let x = copied!(x.copy(alloc));
                let e = copied_behind!(x, copied(alloc, e));
                let y = copied_behind!(x, e, y.copy(alloc));
                Ok(Expression::Element(x, e, y))
            }
            Expression::Index => Ok(Expression::Index),
            Expression::IndexCall => Ok(Expression::IndexCall),
            Expression::ParentIndex => Ok(Expression::ParentIndex),
            Expression::Sizeof(x) => Ok(Expression::Sizeof(copied!(x.copy(alloc)))),
            Expression::Exists(x) => Ok(Expression::Exists(copied!(x.copy(alloc)))),
            Expression::ExistsAt(x, e) => {
                let x = copied!(x.copy(alloc));
                let e = copied_behind!(x, copied(alloc, e));
                Ok(Expression::ExistsAt(x, e))
            }
            Expression::Chosen(c, a, b) => {
                let a = copied!(copied(alloc, a));
                let b = copied_behind!(a, copied(alloc, b));
                Ok(Expression::Chosen(*c, a, b))
            }
            Expression::Group(e) => Ok(Expression::Group(copied!(copied(alloc, e)))),
            Expression::Signed(s, e) => Ok(Expression::Signed(*s, copied!(copied(alloc, e)))),
            Expression::Binary(o, a, b) => {
                let a = copied!(copied(alloc, a));
                let b = copied_behind!(a, copied(alloc, b));
                Ok(Expression::Binary(*o, a, b))
            }
            Expression::Conditional(c, a, b) => {
                let c = copied!(copied(alloc, c));
                let a = copied_behind!(c, copied(alloc, a));
                let b = copied_behind!(c, a, copied(alloc, b));
                Ok(Expression::Conditional(c, a, b))
            }
        }
    }
}
