//! Laws of payloads, and of how many injections there are.
#![tactic(auto)]

pub mod laws;
