//! The definitions of a run, and the small types that a world is made of.
#![tactic(auto)]

pub mod laws;
pub mod occasions;
pub mod outcome;
pub mod routes;
pub mod signals;
pub mod traces;
