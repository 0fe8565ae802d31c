//! The model that an edit makes of a model.
#![tactic(auto)]

pub mod edit;
