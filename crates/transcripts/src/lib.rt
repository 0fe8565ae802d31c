//! What is asked at a desk, and what is heard.
#![tactic(auto)]

pub mod asked;
pub mod transcript;
