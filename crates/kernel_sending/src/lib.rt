//! What is done of which the model is asked: messages that modules send, gates that they join and
//! free, and modules that are built and created.
#![tactic(auto)]

pub mod building;
pub mod creating;
pub mod joining;
pub mod sending;
