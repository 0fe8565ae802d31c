//! Finds answers that rest on other answers, and keeps them.
#![tactic(auto)]

pub mod asker;
pub mod engine;
pub mod finished;
mod frame;
pub mod laws;
pub mod table;
pub mod turn;
