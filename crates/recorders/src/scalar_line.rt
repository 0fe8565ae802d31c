//! Scalars.

use sim_values::text::Text;

/// A line of the scalar file: a value that a module recorded, or what a statistic of it makes of
/// the values that it hears.
#[derive(Drop)]
pub struct ScalarLine {
    /// The full path of the module.
    pub path: Text,
    /// The scalar's own name, or `statistic:mode`.
    pub name: Text,
    pub value: i128,
}
