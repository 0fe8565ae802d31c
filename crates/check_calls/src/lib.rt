//! How often modules are called after an edit.
#![tactic(auto)]

#[cfg(test)]
mod calls;
#[cfg(test)]
mod counted;
#[cfg(test)]
mod refusals;
#[cfg(test)]
mod refusing;
