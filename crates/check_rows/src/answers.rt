//! What becomes of a row, by the file that it stands in.

use crate::chain_rows::tell_configuration;
use crate::edit_rows::tell_edit;
use crate::meaning_rows::{tell_entry_pattern, tell_meaning};
use crate::pattern_rows::tell_pattern;
use crate::telling::Telling;
use crate::travel_rows::tell_travel;
use crate::{connection_rows, ini_rows, ned_rows, rows, time_rows, tree_rows, value_rows};
use sim_values::NoMemory;
use sim_values::text::Text;
use std::alloc::Global;

/// Tells what becomes of a row of several parts, by its first part and those after it.
fn tell_parts(alloc: Global, told: &mut Telling, file: &str, first: &str, rest: &str) {
    match file {
        "patterns" => tell_pattern(alloc, told, first, rest),
        "entry_patterns" => tell_entry_pattern(alloc, told, first, rest),
        "configurations" => tell_configuration(alloc, told, first, rest),
        "decimals" => time_rows::tell_decimal(told, first, rest),
        "time_texts" => time_rows::tell_texts(told, first, rest),
        "sums" => time_rows::tell_sums(told, first, rest),
        "travels" => tell_travel(alloc, told, first, rest),
        _ => tell_edit(alloc, told, first, rest),
    }
}

/// Tells what becomes of a row of several parts, each before a `|`. A row of one part is a comment,
/// of which nothing is told.
fn tell_parted(alloc: Global, told: &mut Telling, file: &str, row: &str) {
    if let Some((first, rest)) = row.split_once('|') {
        tell_parts(alloc, told, file, first, rest);
    }
}

/// Tells what becomes of a row of a file.
fn tell_row(alloc: Global, told: &mut Telling, file: &str, row: &str) {
    match file {
        "ned_texts" => ned_rows::tell_text(alloc, told, row),
        "connections" => connection_rows::tell_text(alloc, told, row),
        "ned_models" => ned_rows::tell_model(alloc, told, row),
        "trees" => tree_rows::tell_expression(alloc, told, row),
        "values" => value_rows::tell_expression(alloc, told, row),
        "depths" => tree_rows::tell_whether(alloc, told, row),
        "angles" => tree_rows::tell_angled(alloc, told, row),
        "ini_texts" => ini_rows::tell_text(alloc, told, row),
        "ini_copies" => ini_rows::tell_copied(alloc, told, row),
        "meanings" => tell_meaning(alloc, told, row),
        "patterns"
        | "entry_patterns"
        | "configurations"
        | "edits"
        | "decimals"
        | "time_texts"
        | "sums"
        | "travels" => tell_parted(alloc, told, file, row),
        _ => rows::tell_line(alloc, told, row),
    }
}

/// What becomes of a row of a file.
pub fn answer(alloc: Global, file: &str, row: &str) -> Result<Text, NoMemory> {
    let mut told = Telling::new(alloc);
    tell_row(alloc, &mut told, file, row);
    told.end()
}
