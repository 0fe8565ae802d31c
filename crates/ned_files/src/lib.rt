//! NED files that models share.
#![tactic(auto)]

pub mod shared;
