//! Runs of a model that begin with setup or at a stored position, and leave positions.
#![tactic(auto)]

pub mod laws;
pub mod observer;
pub mod phases;
pub mod running;
