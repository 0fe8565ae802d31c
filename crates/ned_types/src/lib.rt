//! The types of a model: the table of flat types, and what each says of parameters, submodules and
//! statistics.
#![tactic(auto)]

pub mod flat;
pub mod given;
pub mod table;
