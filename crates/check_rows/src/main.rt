//! Reads files of rows, and prints what becomes of each row.
#![tactic(auto)]

mod answers;
mod chain_rows;
mod connection_rows;
mod edit_rows;
mod escapes;
mod ini_rows;
mod meaning_rows;
mod ned_rows;
mod number_rows;
mod numbers;
mod part_rows;
mod pattern_rows;
mod rows;
mod rules;
mod source;
mod telling;
mod text_rows;
mod time_rows;
mod travel_rows;
mod tree_rows;
mod value_rows;
mod words;

use answers::answer;
use std::rt::{Env, Files};
use std::{env, fs};
use telling::Telling;

/// Prints what becomes of a row of a file.
fn tell_row<R: Print + AllocGlobal>(rt: &R, file: &str, row: &str) -> anyhow::Result<()> {
    let told = answer(rt.alloc(), file, row)?;
    let word = std::str::from_utf8(told.as_bytes())?;
    println!(rt; "{word:<8}|{row}")?;
    Ok(())
}

/// Prints what becomes of each row of a file's text.
fn tell_rows<R: Print + AllocGlobal>(rt: &R, file: &str, text: &str) -> anyhow::Result<()> {
    println!(rt; "== {file}")?;
    for row in text.lines() {
        tell_row(rt, file, row)?;
    }
    Ok(())
}

/// Prints the rows of the file whose rows begin with a word that says what they are, and what
/// becomes of each.
fn tell_parts<R: Print + AllocGlobal>(rt: &R, file: &str, text: &str) -> anyhow::Result<()> {
    let mut told = Telling::new(rt.alloc());
    part_rows::tell_rows(rt.alloc(), &mut told, text);
    let told = told.end()?;
    let rows = std::str::from_utf8(told.as_bytes())?;
    print!(rt; "== {file}\n{rows}")?;
    Ok(())
}

/// Prints what becomes of the rows of a file.
fn tell<R: Files + Print + AllocGlobal>(rt: &R, file: &str) -> anyhow::Result<()> {
    let text = fs::read_to_string(rt, file)?;
    match file {
        "parts" => tell_parts(rt, file, text.as_str()),
        _ => tell_rows(rt, file, text.as_str()),
    }
}

/// Prints what becomes of the rows of all the files that are named.
fn tell_all<R: Files + Env + Print + AllocGlobal>(rt: &R) -> anyhow::Result<()> {
    for name in env::args(rt)?.skip(1) {
        tell(rt, name.as_str())?;
    }
    Ok(())
}

fn main(rt: HostRuntime) -> anyhow::Result<()> {
    tell_all(&rt)
}
