//! Names of recording modes.

ghost use Rattle.std.specs.Prelude.{◌≡◌};
ghost use Rattle.ned_leaves.specs.Grammar as grammar;

use ned_trees::modes::Mode;
use sim_values::text::spells;

/// The mode of that name.
pub fn mode_named(text: &[u8]) -> Option<Mode>
    ensures { result ≡ grammar.mode_named text.now }
{
    if spells(text, b"count") {
        Some(Mode::Count)
    } else if spells(text, b"sum") {
        Some(Mode::Sum)
    } else if spells(text, b"min") {
        Some(Mode::Min)
    } else if spells(text, b"max") {
        Some(Mode::Max)
    } else if spells(text, b"last") {
        Some(Mode::Last)
    } else if spells(text, b"vector") {
        Some(Mode::Vector)
    } else {
        None
    }
}
