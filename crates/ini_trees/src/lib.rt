//! Ini texts as values: their lines and entries, the sections that make a configuration, and the
//! first entry that counts for a path. How they are read, `ini_entries` and `ini_config` say.
//!
//! OMNeT++ Simulation Manual, "Configuring Simulations".
#![tactic(auto)]

pub mod bases;
pub mod chain;
pub mod copies;
pub mod entries;
pub mod entry;
pub mod error;
pub mod laws;
pub mod lines;
pub mod merge;
pub mod names;
pub mod order;
pub mod parts;
pub mod scan;
pub mod speaks;
