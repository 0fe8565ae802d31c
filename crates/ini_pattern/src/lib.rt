//! Wildcard patterns: which ini line speaks of which module.
//!
//! OMNeT++ Simulation Manual, "Using Wildcard Patterns".
#![tactic(auto)]

pub mod laws;
pub mod matching;
pub mod parse;
pub mod pattern;
pub mod piece;
pub mod places;
pub mod reading;

pub use pattern::{Pattern, PatternFault};
