//! What the inside of a compound module says of its submodules, their gates, and where these lead.
#![tactic(auto)]

pub mod built;
pub mod hops;
pub mod sized;
