//! Paths of modules.

ghost use Rattle.std.specs.Prelude.{◌≡◌, IfOk};
ghost use Rattle.module_parts.specs.Paths.{parent_path, path_in};

use sim_values::NoMemory;
use sim_values::text::Text;
use std::alloc::Global;

/// The path of the module around the one of that full path; nothing of that of the network.
#[tactic(auto, using(crate::specs::PathLaws::parent_past, crate::specs::PathLaws::parent_before))]
pub fn parent_path(path: &[u8]) -> &[u8]
    ensures { result.now ≡ parent_path path.now }
{
    let mut left = path;
    'bytes: while let Some((last, before)) = left.split_last() {
        if *last == b'.' {
            return before;
        }
        left = before;
    }
    left
}

/// The path of what has that name in the module of that full path.
pub fn path_in(alloc: Global, path: &[u8], name: &str) -> Result<Text, NoMemory>
    ensures { IfOk result (λ inner. inner ≡ path_in path.now name.now) }
{
    let mut inner = Vec::from_slice(alloc, path)?;
    inner.push(b'.')?;
    inner.extend_from_slice(name.as_bytes())?;
    Ok(Text::from_vec(inner))
}
