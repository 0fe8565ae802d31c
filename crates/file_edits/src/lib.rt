//! Changes of the NED files of a model, and the types that come of them.
#![tactic(auto)]

pub mod changes;
pub mod copies;
pub mod error;
mod items;
pub mod tables;
