//! Who asks by lines of standard input, and hears by lines of standard output.
#![tactic(auto)]

mod advice;
pub mod user;
