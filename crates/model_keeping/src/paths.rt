//! Paths of the ini text that kept keys read.

ghost use Rattle.std.specs.Prelude.{◌≡◌, ◌++◌, ◌∷◌, IfOk};
ghost use Rattle.inside_edits.specs.Reads.{path_read};
ghost use Rattle.model_keeping.specs.Paths.{path_of_place};

use inside_keys::found::Found;
use inside_keys::key::{Key, What};
use param_keeping::table::Kept;
use place_index::paths::PlacePaths;
use sim_values::NoMemory;
use sim_values::text::Text;
use std::alloc::Global;

/// A text and more behind it.
fn joined(alloc: Global, front: &[u8], more: &[u8]) -> Result<Text, NoMemory>
    ensures { IfOk result (λ path. path ≡ front.now ++ more.now) }
{
    let mut path = Vec::from_slice(alloc, front)?;
    path.extend_from_slice(more)?;
    Ok(Text::from_vec(path))
}

/// A text, a dot, and a name.
fn dotted(alloc: Global, front: &[u8], name: &[u8]) -> Result<Text, NoMemory>
    ensures { IfOk result (λ path. path ≡ front.now ++ 46 ∷ name.now) }
{
    let mut path = Vec::from_slice(alloc, front)?;
    path.push(b'.')?;
    path.extend_from_slice(name)?;
    Ok(Text::from_vec(path))
}

/// The path of the ini text that a key reads, if it reads one.
pub(crate) fn path_of(alloc: Global, key: &Key) -> Result<Option<Text>, NoMemory>
    ensures { IfOk result (λ path. path ≡ path_read key.now) }
{
    match &key.what {
        What::Type => Ok(Some(joined(alloc, key.site.path.as_bytes(), b".typename")?)),
        What::Param(name) => { Ok(Some(dotted(alloc, key.site.path.as_bytes(), name.as_bytes())?)) }
        What::Channel(channel, name) => {
            Ok(Some(dotted(alloc, channel.path.as_bytes(), name.as_bytes())?))
        }
        _ => Ok(None),
    }
}

/// Kept values as places, each with the path of the ini text that its key reads.
pub struct KeyPaths<'a> {
    pub(crate) kept: &'a Kept<Key, Found>,
}

// Written out, so that a crate which drops one need not prove what that does.
impl<'a> Drop for KeyPaths<'a> {
    fn drop(self) {
        let KeyPaths { kept: _ } = self;
    }
}

impl<'a> PlacePaths for KeyPaths<'a> {
    ghost paths = { λ k. path_of_place k.kept.now.entries };

    fn count(&self) -> usize {
        self.kept.len()
    }

    fn path(&self, alloc: Global, place: usize) -> Result<Option<Text>, NoMemory> {
        match self.kept.key(place) {
            Some(key) => path_of(alloc, key),
            None => Ok(None),
        }
    }
}
