//! Paths of places: their last names, and whether these are of ASCII characters.

ghost use Rattle.std.specs.Prelude.{◌≡◌, ◌≤◌, ℕ, None, Option, IfOk};
ghost use Rattle.std.specs.Char.{is_ascii};
ghost use Rattle.ini_trees.specs.Entries.{last_name};
ghost use Rattle.ini_trees.specs.Words.{Bytes};
ghost use Rattle.place_index.specs.Places.{are_ascii};

use ini_trees::speaks::last_name;
use sim_values::NoMemory;
use sim_values::text::Text;
use std::alloc::Global;

/// Who knows the path of each place.
pub trait PlacePaths {
    /// The path of each place that has one.
    ghost paths: { Self → ℕ → Option Bytes };

    /// How many places there are; none behind these has a path.
    fn count(&self) -> usize
        ensures { (p : ℕ) → result ≤ p → paths self.now p ≡ None };

    /// The path of a place, if it has one. Answers `NoMemory` if memory runs out.
    fn path(&self, alloc: Global, place: usize) -> Result<Option<Text>, NoMemory>
        ensures { IfOk result (λ path. path ≡ paths self.now place) };
}

/// The last name of a path.
pub(crate) fn name_of(alloc: Global, path: &Text) -> Result<Text, NoMemory>
    ensures { IfOk result (λ name. name ≡ last_name path.now) }
{
    Ok(Text::from_bytes(alloc, last_name(path.as_bytes()))?)
}

/// Whether a byte is an ASCII character.
fn is_ascii(byte: &u8) -> bool
    ensures { result ≡ is_ascii byte.now }
{
    byte.is_ascii()
}

/// Whether all bytes of a path are.
pub(crate) fn are_ascii(path: &Text) -> bool
    ensures { result ≡ are_ascii path.now }
{
    path.as_bytes().iter().all(is_ascii)
}
