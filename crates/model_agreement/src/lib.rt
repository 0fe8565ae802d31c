//! Up to which event two models agree on a run.
#![tactic(auto)]

pub mod agreement;
pub mod changes;
pub mod common;
pub mod known;
pub mod laws;
pub mod models;
pub mod same;
