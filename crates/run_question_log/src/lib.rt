//! What a run has asked of its model.
#![tactic(auto)]

pub mod asked_list;
pub mod cutting;
pub mod entry;
pub mod known_reads;
pub mod log;
pub mod noted_questions;
pub mod reads;
