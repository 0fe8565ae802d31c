//! The boundary to simple modules: what a module is told, what it answers, and what it promises.
#![tactic(auto)]

pub mod call;
pub mod catalogue;
pub mod law;
pub mod message;
pub mod name;
pub mod names;
pub mod plans;
pub mod reply;
pub mod simple_module;

pub use sim_values::NoMemory;
pub use sim_values::text::Text;
pub use sim_values::value::{Dimension, Value};
