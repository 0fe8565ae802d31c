//! The stock modules: what each of them is, that they keep the laws of a catalogue, and their code.
#![tactic(auto)]

pub mod arrivals;
pub mod held;
pub mod modules;
pub mod queue;
pub mod router;
pub mod sink;
pub mod source;
pub mod spawner;
pub mod stock;
pub mod tick;
