//! Values in a model by what each key asks: the inside of a compound module is built until a value
//! is needed.
#![tactic(auto)]

pub mod asker;
pub mod channels;
pub mod inside;
pub mod keys;
pub mod laws;
pub mod placed;
pub mod posed;
pub mod progress;
pub mod reach;
pub mod reading;
pub mod run;
pub mod scene;
pub mod types;
pub mod values;
pub mod variables;
