//! Types within others: all types of files by their full names, and which type a name means.
#![tactic(auto)]

pub mod connections;
pub mod copies;
pub mod known;
pub mod laws;
mod names;
mod plain;
pub mod scopes;
