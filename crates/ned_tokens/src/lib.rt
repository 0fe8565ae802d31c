//! The tokens of NED texts, rules over tokens, and the line that a refused text is given.
#![tactic(auto)]

pub mod amounts;
pub mod blank;
mod digits;
mod lexing;
pub mod lines;
mod literal;
mod marks;
mod numbers;
mod quantity;
pub mod refusal;
pub mod runs;
pub mod token;
mod units;
pub mod words;

pub use digits::LIMIT;
pub use units::unit_of;
