//! What gives a parameter its value, and of what kind its values are.
#![tactic(auto)]

pub mod kind;
pub mod scene;
