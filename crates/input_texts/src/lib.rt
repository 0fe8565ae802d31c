//! Reading texts: all the bytes that a file gives, up to one more than a text may have.
#![tactic(auto)]

pub mod folder;
pub mod reader;
pub mod reading;
pub mod source;
pub mod system;
