//! The inside of a compound module as it is built: it stops where it needs the value of a key, and
//! goes on with it.
#![tactic(auto)]

pub mod ends;
pub mod joins;
pub mod loops;
pub mod submodules;
pub mod task;
