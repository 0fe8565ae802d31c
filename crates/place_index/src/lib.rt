//! Places, each with a path of the ini text or none, found by the entries that speak of these.
#![tactic(auto)]

pub mod index;
mod key;
mod listing;
pub mod paths;
pub mod reached;
mod speaks;
