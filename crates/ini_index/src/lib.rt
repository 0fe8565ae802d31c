//! The entries of a configuration, with an index that finds the first match for a path by the names
//! that keys end with.
#![tactic(auto)]

pub mod along;
pub mod index;
pub mod key;
pub mod list;
pub mod speaks;
