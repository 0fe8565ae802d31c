//! Command lines: what a line of text asks of a session.
#![tactic(auto)]

pub mod commands;
mod injections;
pub mod numbers;
mod words;
