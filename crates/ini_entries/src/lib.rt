//! What the entries of an ini text say, by their keys and values.
//!
//! OMNeT++ Simulation Manual, "Configuring Simulations".
#![tactic(auto)]

pub mod blanks;
pub mod constants;
pub mod keys;
pub mod meaning;
pub mod names;
pub mod options;
pub mod reason;
