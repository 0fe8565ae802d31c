//! What becomes of a row, by its first word.

use crate::number_rows::tell_numbers;
use crate::telling::Telling;
use crate::text_rows::tell_text;
use sim_values::NoMemory;
use std::alloc::Global;

/// The number that a word is, 0 of another word.
pub fn number(word: &str) -> usize {
    match word.parse::<usize>() {
        Ok(number) => number,
        Err(_) => 0,
    }
}

/// The part of a row before the first `|`, and what is after that, nothing where there is none.
pub fn first_part(row: &str) -> (&str, &str) {
    row.split_once('|').unwrap_or((row, ""))
}

/// Tells what becomes of a row. One that begins with none of these words is a comment.
fn tell_row(alloc: Global, told: &mut Telling, row: &str) -> Result<(), NoMemory> {
    let (word, rest) = first_part(row);
    match word {
        "numbers" => tell_numbers(alloc, told, rest),
        "text" | "cycle" | "lines" | "long_lines" => {
            tell_text(alloc, told, word, rest);
            Ok(())
        }
        _ => Ok(()),
    }
}

/// Tells each row of a text, and what becomes of it.
pub fn tell_rows(alloc: Global, told: &mut Telling, text: &str) {
    for row in text.lines() {
        told.text(row);
        if let Err(error) = tell_row(alloc, told, row) {
            told.fail(error.error());
        }
        told.text("\n");
    }
}
