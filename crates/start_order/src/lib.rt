//! Laws of the starts of modules that are created while a run goes on.
#![tactic(auto)]

pub mod laws;
