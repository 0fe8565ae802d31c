//! What the program reads of files, writes to files and prints, and what ends it where one of these
//! fails.
#![tactic(auto)]

pub mod devices;
pub mod endings;
pub mod files;
pub mod folders;
pub mod output;
pub mod progress;
