//! The key of an entry, as a text.

ghost use Rattle.std.specs.Prelude.{◌≡◌, IfOk};
ghost use Rattle.ini_index.specs.Keys.{key_of};

use ini_index::key::key_of;
use ini_trees::entry::EntryMeaning;
use sim_values::NoMemory;
use sim_values::text::Text;
use std::alloc::Global;

/// The key of an entry that says this.
pub(crate) fn key_text(alloc: Global, meaning: &EntryMeaning) -> Result<Text, NoMemory>
    ensures { IfOk result (λ key. key ≡ key_of meaning.now) }
{
    let key = key_of(alloc, meaning)?;
    Ok(Text::from_str(alloc, key.as_str())?)
}
