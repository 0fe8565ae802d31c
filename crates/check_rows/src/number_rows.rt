//! Questions about numbers.

ghost use Rattle.std.specs.Prelude.{nat_eq};
ghost use Rattle.param_engine.specs.Tables.{IsKept};
ghost use Rattle.param_engine.specs.Working.{ruled};
ghost use Rattle.check_rows.specs.declared.numbers.Fault.TheVariants as fault;
ghost use Rattle.check_rows.specs.Numbers.{asked_of};

use crate::numbers::{Fault, Numbers, Rule};
use crate::part_rows::{first_part, number};
use crate::rules::add_all;
use crate::telling::Telling;
use param_engine::engine::{empty_table, value_of};
use param_engine::table::Table;
use sim_values::NoMemory;
use std::alloc::Global;

/// Tells the places of the keys that the one at a place asked for.
fn tell_asked(told: &mut Telling, table: &Table<usize, u64>, place: usize) {
    for asked in table.asked(place).unwrap_or(&[]) {
        told.text(" <");
        told.shown(asked);
    }
}

/// Tells what the table says of what was found: the number and the places that it was asked from,
/// or the fault; how many keys the table has, and how many evaluations were begun.
fn tell(told: &mut Telling, table: &Table<usize, u64>, found: Result<usize, Fault>) {
    match found {
        Ok(place) => match table.value(place) {
            Some(number) => {
                told.text(" ");
                told.shown(number);
                tell_asked(told, table, place);
            }
            None => told.text(" nothing"),
        },
        Err(fault) => {
            told.text(" ");
            told.raw(&fault);
        }
    }
    told.text(", ");
    told.shown(&table.len());
    told.text(" keys, ");
    told.shown(&table.begun());
    told.text(" begun;");
}

/// Asks for the number of a key.
fn ask(
    alloc: Global,
    told: &mut Telling,
    rules: &[Rule],
    table: &mut Table<usize, u64>,
    key: usize,
) -> Result<(), NoMemory>
    requires { IsKept (ruled nat_eq (asked_of rules.now) fault.Circle) table.old.entries }
    ensures { IsKept (ruled nat_eq (asked_of rules.now) fault.Circle) table.new.entries }
{
    let found = value_of(alloc, &Numbers { rules }, table, key)?;
    tell(told, table, found);
    Ok(())
}

/// Asks for the numbers of two keys, one after the other, by one table.
fn ask_both(
    alloc: Global,
    told: &mut Telling,
    rules: &[Rule],
    first: usize,
    second: usize,
) -> Result<(), NoMemory> {
    let mut table = empty_table(alloc, &Numbers { rules });
    match ask(alloc, told, rules, &mut table, first) {
        Ok(()) => ask(alloc, told, rules, &mut table, second),
        Err(error) => Err(error),
    }
}

/// Tells what is answered to the two questions of a row: the rules, a word each, and after a `|`
/// each two keys.
pub fn tell_numbers(alloc: Global, told: &mut Telling, row: &str) -> Result<(), NoMemory> {
    told.text(" ->");
    let (words, keys) = first_part(row);
    let (first, second) = first_part(keys);
    let mut rules = Vec::new(alloc);
    match add_all(&mut rules, words) {
        Ok(()) => ask_both(alloc, told, rules.as_slice(), number(first), number(second)),
        Err(error) => Err(error.into()),
    }
}
