//! Values that are found over a base of values that are known.
#![tactic(auto)]

pub mod absorbing;
pub mod asker;
pub mod finding;
pub mod laws;
pub mod spot;
