//! The places of whose paths an edit of the ini text may say something else.
#![tactic(auto)]

pub mod ends;
pub mod places;
