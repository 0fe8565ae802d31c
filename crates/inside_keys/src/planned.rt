//! What modules were created as, while a model ran.

use ned_trees::declarations::SubmoduleBody;
use sim_values::text::Text;

/// What a module was created as, while the model ran.
#[derive(Drop)]
pub struct Planned {
    /// The name of its type, which means what it means in the text of the type of the module
    /// around it.
    pub type_name: Text,
    /// The values that it was given and the sizes of its gates, as the body of a submodule has
    /// them.
    pub body: SubmoduleBody,
}
