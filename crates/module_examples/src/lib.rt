//! A whole module as an example of how one is written, with a catalogue of its own.
#![tactic(auto)]

pub mod pulse;
