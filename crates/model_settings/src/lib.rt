//! What the values of a model rest on: where its modules stand, by their paths or as they were
//! created, and its types.
#![tactic(auto)]

pub mod created;
pub mod laws;
pub mod setting;
pub mod standings;
pub mod tables;
