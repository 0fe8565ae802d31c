//! Classes and ids of modules.

ghost use Rattle.std.specs.Prelude.{◌≡◌, ◌==◌, IfOk};
ghost use Rattle.std.specs.List.{list_any};

use sim_values::text::Text;
use std::alloc::{AllocError, Global};

/// An equal class, where there is one.
pub fn copy_class(alloc: Global, class: &Option<Text>) -> Result<Option<Text>, AllocError>
    ensures { IfOk result (λ copy. copy ≡ class.now) }
{
    match class {
        Some(name) => Ok(Some(name.copy(alloc)?)),
        None => Ok(None),
    }
}

/// Whether an id is one of these.
pub fn is_among(ids: &[u32], id: u32) -> bool
    ensures { result ≡ list_any (λ n. n == id) ids.now }
{
    ids.iter().any(|other| *other == id)
}
