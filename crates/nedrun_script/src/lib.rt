//! What the program asks at its desk, and what it hears.
#![tactic(auto)]

pub mod dialogue;
