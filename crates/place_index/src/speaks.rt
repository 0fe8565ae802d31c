//! Which entries count for a path.

ghost use Rattle.std.specs.Prelude.{◌≡◌, Some};
ghost use Rattle.place_index.specs.Places.{reaches};

use ini_index::speaks::speaks;
use ini_trees::lines::IniEntry;
use sim_values::text::Text;

/// Whether an entry speaks of a path, which is a text.
pub(crate) fn reaches(path: &Text, entry: &IniEntry) -> bool
    ensures { result ≡ reaches entry.now (Some path.now) }
{
    match std::str::from_utf8(path.as_bytes()) {
        Ok(text) => speaks(text, &entry.meaning),
        Err(_) => false,
    }
}
