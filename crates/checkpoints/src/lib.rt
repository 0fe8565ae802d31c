//! Stored positions of a run.
#![tactic(auto)]

pub mod positions;
