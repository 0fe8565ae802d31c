//! What the inside of a compound module is made of: names that are found at once, gates, parts; and
//! why there is no inside.
#![tactic(auto)]

pub mod fault;
pub mod gates;
pub mod names;
pub mod parts;
pub mod stack;
