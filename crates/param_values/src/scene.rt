//! What gives a parameter its value.

use ned_trees::expressions::Expression;

/// The section in which an expression stands.
#[derive(Clone, Copy, PartialEq, Eq)]
pub enum Section {
    /// One of the module's type.
    OfType,
    /// The body of the submodule that the module is.
    OfBody,
}

/// An expression, and where it stands.
#[derive(Clone, Copy)]
pub struct Written<'m> {
    pub section: Section,
    pub expression: &'m Expression,
}

/// What the NED text gives a parameter.
#[derive(Clone, Copy)]
pub enum Given<'m> {
    /// `= e`: it can't be changed by the ini text.
    Fixed(Written<'m>),
    /// `= default(e)`: it counts where the ini text gives none.
    Default(Written<'m>),
}
