//! Laws of the insides of compound modules.
#![tactic(auto)]

pub mod laws;
