//! Who asks at a desk, what it is told, and why it is served no more.
#![tactic(auto)]

pub mod clients;
pub mod told;
