//! The desk with the modules that come with the program, and who asks at it.
#![tactic(auto)]

pub mod serving;
