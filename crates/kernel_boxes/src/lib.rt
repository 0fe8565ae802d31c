//! The boxes of modules as the kinds and states of these: saved, and loaded again.
#![tactic(auto)]

pub mod boxes_saved;
pub mod dropping;
pub mod going_back;
