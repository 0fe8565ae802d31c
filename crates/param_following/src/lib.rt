//! Answers that rest on other answers: the definitions, and what holds of them.
#![tactic(auto)]

pub mod laws;
