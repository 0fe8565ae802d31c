//! The channels of connections: the built-in ones with what they have, and which one a connection
//! names.
#![tactic(auto)]

pub mod built_in;
pub mod channel;
