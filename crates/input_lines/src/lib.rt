//! Reading lines, one at a time: each is handed out as soon as its end was read.
#![tactic(auto)]

pub mod buffer;
pub mod line;
mod part;
pub mod reader;
