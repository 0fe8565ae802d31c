//! Modules with which networks are built and protocols studied: who sends, lines, switches, losses,
//! a token ring, acknowledged transfers, and what measures them.
#![tactic(auto)]

pub mod dropper;
pub mod frame;
pub mod generator;
pub mod l2_queue;
pub mod library;
pub mod meter;
pub mod modules;
pub mod receiver;
pub mod sender;
pub mod switch;
pub mod token_station;
pub mod waiting;
