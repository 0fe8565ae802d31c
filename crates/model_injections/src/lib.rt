//! Messages from outside, and the order in which they go.
#![tactic(auto)]

pub mod injection;
pub mod laws;
