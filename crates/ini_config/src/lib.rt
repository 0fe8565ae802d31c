//! Ini texts: how they are read, and how a text with an edited line is.
#![tactic(auto)]

pub mod edits;
pub mod error;
pub mod laws;
pub mod parse;
mod pieces;
