//! The units of time.

ghost use Rattle.std.specs.Prelude.{◌≡◌, ◌≤◌, IfSome};
ghost use Rattle.sim_values.specs.Units as units;

use crate::text::spells;

/// How many picoseconds the unit of time of this name is: `d`, `h`, `min`, `s`, `ms`, `us`, `ns` or
/// `ps`, and no other (OMNeT++ Simulation Manual, "Measurement Units").
#[tactic(auto, unfolding(crate::specs::Units::time_unit))]
pub fn time_unit(word: &[u8]) -> Option<u64>
    ensures value { result ≡ units.time_unit word.now }
    ensures bounds { IfSome result (λ ps. (1 ≤ ps) × (ps ≤ 86400000000000000)) }
{
    if spells(word, b"d") {
        Some(86_400_000_000_000_000)
    } else if spells(word, b"h") {
        Some(3_600_000_000_000_000)
    } else if spells(word, b"min") {
        Some(60_000_000_000_000)
    } else if spells(word, b"s") {
        Some(1_000_000_000_000)
    } else if spells(word, b"ms") {
        Some(1_000_000_000)
    } else if spells(word, b"us") {
        Some(1_000_000)
    } else if spells(word, b"ns") {
        Some(1_000)
    } else if spells(word, b"ps") {
        Some(1)
    } else {
        None
    }
}
