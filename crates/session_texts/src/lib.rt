//! The texts of a session as edits made them, why an edit is refused, in words, and the program's
//! own commands.
//!
//! Everything here follows what the session answers. It decides nothing.
#![tactic(auto)]

mod changes;
pub mod listings;
pub mod notes;
pub mod own;
mod refused;
pub mod texts;
mod undoing;
mod usages;
