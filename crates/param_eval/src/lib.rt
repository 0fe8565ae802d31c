//! Values of NED expressions: what operators make of values, and evaluations, which ask for what
//! references mean.
#![tactic(auto)]

pub mod evaluation;
pub mod laws;
pub mod names;
pub mod operators;
pub mod wholes;
