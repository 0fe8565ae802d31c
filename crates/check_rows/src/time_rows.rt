//! What decimals say as times, and the texts and sums of times.

use crate::escapes::number;
use crate::telling::Telling;
use sim_time::{Overflow, SimTime, TimeText};

/// Tells the picoseconds that a decimal number and a unit say, or why they say no time.
pub fn tell_decimal(told: &mut Telling, decimal: &str, unit: &str) {
    match SimTime::from_decimal(decimal.as_bytes(), unit.as_bytes()) {
        Ok(time) => told.shown(&time.ps()),
        Err(fault) => told.raw(&fault),
    }
}

/// The time that a word of a row is: its picoseconds, or its name.
pub fn time_of(word: &str) -> Option<SimTime> {
    match word {
        "zero" => Some(SimTime::zero()),
        "greatest" => SimTime::from_ps(SimTime::MAX_PS),
        "above" => SimTime::from_ps(SimTime::MAX_PS + 1),
        _ => SimTime::from_ps(number(word) as u64),
    }
}

/// The times that two words of a row are.
fn times_of(first: &str, second: &str) -> Option<(SimTime, SimTime)> {
    Some((time_of(first)?, time_of(second)?))
}

/// The characters of a time's text, which its bytes are as well.
fn shown(text: &TimeText) -> &str {
    if text.as_bytes() == text.as_str().as_bytes() {
        text.as_str()
    } else {
        "the bytes are others"
    }
}

/// Tells the text of a time, where the text of another stood.
fn tell_text(told: &mut Telling, text: &mut TimeText, time: SimTime) {
    time.write_text(text);
    told.text(shown(text));
    told.text(" ");
}

/// Tells the texts of two times, the second one written where the first one stood.
fn tell_both(told: &mut Telling, first: SimTime, second: SimTime) {
    let mut text = TimeText::new();
    tell_text(told, &mut text, first);
    tell_text(told, &mut text, second)
}

/// Tells the texts of two times, or that one of them is no time.
pub fn tell_texts(told: &mut Telling, first: &str, second: &str) {
    match times_of(first, second) {
        Some((first, second)) => tell_both(told, first, second),
        None => told.text("no time"),
    }
}

/// Tells the picoseconds of a sum or difference, where it is a time.
fn tell_time(told: &mut Telling, found: Result<SimTime, Overflow>) {
    match found {
        Ok(time) => told.shown(&time.ps()),
        Err(fault) => told.raw(&fault),
    }
    told.text(" ");
}

/// How a time stands to another.
fn order(first: SimTime, second: SimTime) -> &'static str {
    if first == second {
        "equal"
    } else if first < second {
        "less"
    } else {
        "greater"
    }
}

/// Tells the sum and the difference of two times, and how the first stands to the second.
fn tell_pair(told: &mut Telling, first: SimTime, second: SimTime) {
    tell_time(told, first.checked_add(second));
    tell_time(told, first.checked_sub(second));
    told.text(order(first, second))
}

/// Tells the sum, the difference and the order of two times, or that one of them is no time.
pub fn tell_sums(told: &mut Telling, first: &str, second: &str) {
    match times_of(first, second) {
        Some((first, second)) => tell_pair(told, first, second),
        None => told.text("no time"),
    }
}
