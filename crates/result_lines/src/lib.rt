//! The lines of result files, and what takes their bytes.
#![tactic(auto)]

pub mod buffer;
pub mod header;
mod line_bytes;
pub mod lines;
mod next_vector;
pub mod progress;
mod sections;
pub mod writer;
