//! Vectors.

use sim_values::text::Text;

/// A vector: the values that a statistic of a module hears, in the order of their emission.
#[derive(Drop)]
pub struct VectorLine {
    /// The id of the module.
    pub id: u32,
    /// The full path of the module.
    pub path: Text,
    /// The name of the statistic.
    pub statistic: Text,
    /// The signal that it hears.
    pub source: Text,
}
