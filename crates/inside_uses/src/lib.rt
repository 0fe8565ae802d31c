//! Laws of what the inside of a compound module uses of the values that it asks for.
#![tactic(auto)]

pub mod laws;
