//! A session: one model, its edits and its runs.
#![tactic(auto)]

mod phases;
mod replies;
pub mod session;
mod values;
