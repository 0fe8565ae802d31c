//! One run, event by event.
#![tactic(auto)]

mod finishing;
pub mod from_model;
pub mod kernel;
pub mod request;
