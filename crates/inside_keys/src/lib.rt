//! What has a value in a model: parameters, types, conditions, sizes and the insides of compound
//! modules; and what each of these rests on.
#![tactic(auto)]

pub mod channel;
pub mod check;
pub mod found;
pub mod key;
pub mod laws;
pub mod place;
pub mod planned;
pub mod sizes;
pub mod turn;
pub mod unconnected;
