//! What the program is asked for, by its words.
#![tactic(auto)]

pub mod other_words;
pub mod words;
