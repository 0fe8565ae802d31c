//! The connections of a compound module while they are made, and what their ends name.
#![tactic(auto)]

pub mod ends;
pub mod wiring;
