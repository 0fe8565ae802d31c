//! A world but for its modules: what actions, reads and setup do to it, what comes next in it, and
//! positions to which it can go back.
#![tactic(auto)]

pub mod classes;
pub mod core_part;
pub mod events;
pub mod gates;
pub mod laws;
pub mod looks;
mod module_list;
pub mod position;
pub mod reads;
mod record_table;
pub mod sending;
mod walks;
