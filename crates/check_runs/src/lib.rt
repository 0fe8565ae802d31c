//! Tests of `event_set`, `module_stock`, `result_files`, scalars that modules record, gates that
//! modules join and free, and modules that are created and deleted, apart from the crates that they
//! test.
#![tactic(auto)]

#[cfg(test)]
mod events;
#[cfg(test)]
mod files;
pub mod maker;
#[cfg(test)]
mod making;
#[cfg(test)]
mod modules;
pub mod reaper;
#[cfg(test)]
mod reaping;
#[cfg(test)]
mod scalars;
pub mod wire;
#[cfg(test)]
mod wires;
