//! Rules as words.

use crate::numbers::Rule;
use crate::part_rows::number;
use std::alloc::AllocError;

/// The rule that a word is, of the key after that one: a number, `>2` for one more than that of the
/// key 2, `1+2` for the sum of those of these two, `next` and `twice` for the same of the key
/// before, or `broken`.
fn rule_of(word: &str, before: usize) -> Rule {
    if let Some((first, second)) = word.split_once('+') {
        return Rule::Sum(number(first), number(second));
    }
    if let Some((_, key)) = word.split_once('>') {
        return Rule::Next(number(key));
    }
    match word {
        "broken" => Rule::Broken,
        "next" => Rule::Next(before),
        "twice" => Rule::Sum(before, before),
        _ => Rule::Number(number(word) as u64),
    }
}

/// Adds the rule that a word is, as often as it says: `next*3` is three rules.
fn add(rules: &mut Vec<Rule>, word: &str) -> Result<(), AllocError> {
    let (word, times) = word.split_once('*').unwrap_or((word, "1"));
    for _ in 0..number(times) {
        let before = rules.len().saturating_sub(1);
        rules.push(rule_of(word, before))?;
    }
    Ok(())
}

/// Adds the rules that the words of a text are.
pub fn add_all(rules: &mut Vec<Rule>, words: &str) -> Result<(), AllocError> {
    for word in words.split(' ') {
        add(rules, word)?;
    }
    Ok(())
}
