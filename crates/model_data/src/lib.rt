//! The model of a run: what its texts make, before anything is asked of it.
#![tactic(auto)]

pub mod faults;
pub mod model;
