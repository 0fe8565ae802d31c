//! What NED texts and ini texts share: single tokens, literals, and names of recording modes.
#![tactic(auto)]

pub mod error;
pub mod leaves;
pub mod literals;
pub mod modes;
