//! The units of quantities.

ghost use Rattle.std.specs.Prelude.{◌≡◌, ◌<◌, ◌≤◌, ◌*◌, ◌^◌, IfSome};
ghost use Rattle.ned_tokens.specs.Units as units;

use sim_values::text::spells;
use sim_values::units::time_unit;
use sim_values::value::Dimension;

#[tactic(auto, unfolding(crate::specs::Units::rate_unit))]
fn rate_unit(word: &[u8]) -> Option<u64>
    ensures value { result ≡ units.rate_unit word.now }
    ensures bounds { IfSome result (λ n. (0 < n) × (n ≤ 9 * 10 ^ 16)) }
{
    if spells(word, b"bps") {
        Some(1)
    } else if spells(word, b"kbps") {
        Some(1_000)
    } else if spells(word, b"Mbps") {
        Some(1_000_000)
    } else if spells(word, b"Gbps") {
        Some(1_000_000_000)
    } else {
        None
    }
}

#[tactic(auto, unfolding(crate::specs::Units::length_unit))]
fn length_unit(word: &[u8]) -> Option<u64>
    ensures value { result ≡ units.length_unit word.now }
    ensures bounds { IfSome result (λ n. (0 < n) × (n ≤ 9 * 10 ^ 16)) }
{
    if spells(word, b"b") {
        Some(1)
    } else if spells(word, b"B") {
        Some(8)
    } else if spells(word, b"KiB") {
        Some(8_192)
    } else if spells(word, b"MiB") {
        Some(8_388_608)
    } else {
        None
    }
}

/// What the unit of this name measures, and how many ps, bps or b it is (OMNeT++ Simulation Manual,
/// "Measurement Units").
#[tactic(auto, unfolding(crate::specs::Units::unit_of))]
pub fn unit_of(word: &[u8]) -> Option<(Dimension, u64)>
    ensures value { result ≡ units.unit_of word.now }
    ensures bounds { IfSome result (λ unit. (0 < unit.1) × (unit.1 ≤ 9 * 10 ^ 16)) }
{
    if let Some(factor) = time_unit(word) {
        return Some((Dimension::Time, factor));
    }
    if let Some(factor) = rate_unit(word) {
        return Some((Dimension::Rate, factor));
    }
    match length_unit(word) {
        Some(factor) => Some((Dimension::Length, factor)),
        None => None,
    }
}
