//! Texts as they grow.
#![tactic(auto)]

pub mod noted;
pub mod writer;
