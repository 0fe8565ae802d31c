//! Why the program ends early.
#![tactic(auto)]

pub mod stops;
