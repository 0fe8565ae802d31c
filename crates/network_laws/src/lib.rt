//! Laws of modules that networks are built of, over any list of calls.
#![tactic(auto)]

pub mod examples;
pub mod laws;
