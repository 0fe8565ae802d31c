//! What is wrong with a text among the files of a run, and what would be right, in words for a
//! person.
//!
//! Everything here looks at the texts once more, after they were refused. It decides nothing.
#![tactic(auto)]

pub mod bases;
pub mod connections;
pub mod explanation;
pub mod foreign;
mod heads;
mod interfaces;
mod members;
pub mod names;
pub mod ned_files;
mod origins;
pub mod places;
pub mod sources;
pub mod tokens;
mod twice;
pub mod types;
pub mod values;
