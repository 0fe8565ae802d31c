//! The result files of a run.
#![tactic(auto)]

pub mod files;
