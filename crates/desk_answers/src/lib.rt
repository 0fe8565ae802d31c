//! The desk: commands as lines of text, and their answers.
#![tactic(auto)]

pub mod answers;
pub mod desk;
