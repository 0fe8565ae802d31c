//! What a run asks its caller for.

use sim_values::text::Text;

/// A simple module that needs a box.
#[derive(Drop)]
pub struct Request {
    /// The class that the box is to be of.
    pub kind: Text,
    /// The module's full path.
    pub path: Text,
    pub id: u32,
}
