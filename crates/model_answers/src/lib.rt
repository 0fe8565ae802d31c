//! The answers of a model to what a run asks of it.
#![tactic(auto)]

mod answering;
pub mod asked;
pub mod evaluated;
mod gates;
mod insides;
mod kept;
mod keyed;
pub mod laws;
mod named;
mod placed;
pub mod plain;
mod reading;
mod seats;
