//! NED expressions: how they are written, and the trees that they are (OMNeT++ Simulation Manual,
//! "NED Language Grammar").
#![tactic(auto)]

/// The value that was read; a refusal is the caller's own. It is `?` for an error that needs no
/// conversion: the two calls that `?` stands for would be steps of each reader's proof.
macro_rules! read {
    ($reading:expr) => {
        match $reading {
            Ok(it) => it,
            Err(refusal) => return Err(refusal),
        }
    };
}

/// The value that was read; at a refusal what was read before it is dropped, by a call for each: in
/// a function of its own each exit would open the drop of a tree.
macro_rules! read_behind {
    ($held:expr, $reading:expr) => {
        match $reading {
            Ok(it) => it,
            Err(refusal) => return Err(err_dropping($held, refusal)),
        }
    };
}

mod atoms;
pub mod chains;
pub mod laws;
pub mod levels;
mod operands;
pub mod parse;
