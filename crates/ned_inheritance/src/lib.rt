//! What files declare, made into a table of flat types: inheritance, interfaces, and why there is
//! no table.
#![tactic(auto)]

mod bodies;
mod connections;
mod faults;
mod flats;
mod gates;
mod inheritance;
mod interfaces;
pub mod laws;
mod lines;
mod members;
mod named;
mod order;
pub mod places;
mod rounds;
mod sections;
pub mod table;
mod webs;
