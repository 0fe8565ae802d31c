//! Entries on which values of modules may rest, and whether two ini texts have the same of them.
#![tactic(auto)]

pub mod entries;
