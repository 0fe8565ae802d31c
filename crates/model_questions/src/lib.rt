//! What a run asks of its model, and the modules that were created.
#![tactic(auto)]

pub mod answer;
pub mod hops;
pub mod record;
