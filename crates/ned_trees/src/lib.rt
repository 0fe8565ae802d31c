//! NED texts, and what they and ini texts say, as trees: expressions, recording modes and
//! declarations.
#![tactic(auto)]

/// The value that was copied; a refusal is the caller's own. It is `?` for an error that needs no
/// conversion: the two calls that `?` stands for would be steps of each copy's proof.
macro_rules! copied {
    ($reading:expr) => {
        match $reading {
            Ok(it) => it,
            Err(refusal) => return Err(refusal),
        }
    };
}

/// The value that was copied; at a refusal what was made before it is dropped, by a call for each:
/// in a function of its own each exit would open the drop of a tree.
macro_rules! copied_behind {
    ($held:expr, $reading:expr) => {
        match $reading {
            Ok(it) => it,
            Err(refusal) => return Err(err_dropping($held, refusal)),
        }
    };
    ($first:expr, $second:expr, $reading:expr) => {
        match $reading {
            Ok(it) => it,
            Err(refusal) => return Err(err_dropping($first, err_dropping($second, refusal))),
        }
    };
}

pub mod connections;
pub mod declarations;
pub mod expressions;
pub mod modes;
pub mod texts;
