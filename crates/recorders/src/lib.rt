//! What a run records.
#![tactic(auto)]

pub mod hearing;
mod member;
pub mod modes;
pub mod places;
pub mod recorded_model;
pub mod run_results;
pub mod scalar_line;
pub mod scalars;
pub mod selection;
pub mod statistics;
pub mod vector_line;
pub mod vectors;
pub mod wanted;
