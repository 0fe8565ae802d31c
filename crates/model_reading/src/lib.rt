//! The model that NED texts and an ini text make, or why they make none.
#![tactic(auto)]

pub mod begin;
