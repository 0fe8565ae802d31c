//! What simple modules are written with: replies made step by step, which keep the law of reads
//! whatever they do, and a box round each module that is written so.
#![tactic(auto)]

pub mod bytes;
pub mod cues;
pub mod found;
pub mod laws;
pub mod looks;
pub mod numbers;
pub mod pairs;
pub mod paths;
pub mod player;
pub mod replies;
