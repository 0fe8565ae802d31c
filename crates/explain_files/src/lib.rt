//! What is wrong with the files of a run, and what would be right: diagnostics, `path:line: ..`.
//!
//! Everything here looks at the files once more, after they were refused or run. It decides
//! nothing.
#![tactic(auto)]

mod built;
mod configurations;
mod created;
mod creators;
mod ends;
mod foreign;
mod given;
mod ini_lines;
mod insides;
mod items;
mod kinds;
mod lacking;
pub mod messages;
mod modules;
mod options;
mod paths;
mod plain;
mod reading;
pub mod refusals;
pub mod runs;
mod sections;
mod sites;
mod syntax;
mod unassigned;
pub mod warnings;
