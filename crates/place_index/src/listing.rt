//! Numbers that are listed under texts.

ghost use Rattle.std.specs.HashMap.{get};
ghost use Rattle.std.specs.Prelude.{◌≡◌, ◌<◌, ◌∷◌, ◌++◌, [], List, ℕ, OnErr, OnOk, IfOk, Some, None};
ghost use Rattle.std.specs.Prelude.{length, slice_set, true};
ghost use Rattle.std.specs.Str.{bytes_eq};
ghost use Rattle.place_index.specs.Listing.{AreApart, ListsMore, list_at, listed};
ghost use Rattle.rest_index.specs.Rests.{is_among};

use sim_values::NoMemory;
use sim_values::text::Text;
use sqlite_items::Items;
use std::alloc::{AllocError, Global};
use std::collections::HashMap;

/// What is listed under a text.
pub(crate) fn listed<'a>(
    numbers: &HashMap<Text, usize>,
    lists: &'a [Items<usize>],
    text: &Text,
) -> &'a [usize]
    ensures { result.now ≡ listed (get bytes_eq numbers.now) lists.now text.now }
{
    match numbers.get(text) {
        Some(at) => match lists.get(*at) {
            Some(list) => list.as_slice(),
            None => &[],
        },
        None => &[],
    }
}

/// How many lists there are.
fn count(lists: &Vec<Items<usize>>) -> usize
    ensures { result ≡ length lists.now.items }
{
    lists.len()
}

/// Makes the list of a text that has none yet.
fn make_list(
    alloc: Global,
    numbers: &mut HashMap<Text, usize>,
    lists: &mut Vec<Items<usize>>,
    text: &Text,
) -> Result<usize, NoMemory>
    requires apart { AreApart (get bytes_eq numbers.old) lists.old.items }
    requires none { get bytes_eq numbers.old text.now ≡ None }
    ensures apart { AreApart (get bytes_eq numbers.new) lists.new.items }
    ensures same { (t : List ℕ) → listed (get bytes_eq numbers.new) lists.new.items t
        ≡ listed (get bytes_eq numbers.old) lists.old.items t }
    ensures found { IfOk result (λ at. get bytes_eq numbers.new text.now ≡ Some at) }
{
    let copy = text.copy(alloc)?;
    let at = count(lists);
    lists.push(Items::new(alloc))?;
    // Where this fails a list without a text is left, which is nothing to any text.
    numbers.insert(copy, at)?;
    Ok(at)
}

/// The number of the list of a text, which is made where there is none yet.
fn number_of(
    alloc: Global,
    numbers: &mut HashMap<Text, usize>,
    lists: &mut Vec<Items<usize>>,
    text: &Text,
) -> Result<usize, NoMemory>
    requires apart { AreApart (get bytes_eq numbers.old) lists.old.items }
    ensures apart { AreApart (get bytes_eq numbers.new) lists.new.items }
    ensures same { (t : List ℕ) → listed (get bytes_eq numbers.new) lists.new.items t
        ≡ listed (get bytes_eq numbers.old) lists.old.items t }
    ensures found { IfOk result (λ at. get bytes_eq numbers.new text.now ≡ Some at) }
{
    if let Some(at) = numbers.get(text) {
        return Ok(*at);
    }
    make_list(alloc, numbers, lists, text)
}

/// A list has one number more.
fn push_number(lists: &mut Vec<Items<usize>>, at: usize, number: usize) -> Result<(), AllocError>
    requires { at < length lists.old.items }
    ensures ok { OnOk result (lists.new.items ≡ slice_set lists.old.items at
        (list_at lists.old.items (Some at) ++ number ∷ [])) }
    ensures err { OnErr result (lists.new.items ≡ lists.old.items) }
{
    lists[at].push(number)
}

/// Lists a number under a text. Whether memory lasts or not, what was listed is listed still.
pub(crate) fn add(
    alloc: Global,
    numbers: &mut HashMap<Text, usize>,
    lists: &mut Vec<Items<usize>>,
    text: &Text,
    number: usize,
) -> Result<(), NoMemory>
    requires apart { AreApart (get bytes_eq numbers.old) lists.old.items }
    ensures apart { AreApart (get bytes_eq numbers.new) lists.new.items }
    ensures more { ListsMore (listed (get bytes_eq numbers.old) lists.old.items)
        (listed (get bytes_eq numbers.new) lists.new.items) }
    ensures own { OnOk result
        (is_among number (listed (get bytes_eq numbers.new) lists.new.items text.now) ≡ true) }
{
    let at = number_of(alloc, numbers, lists, text)?;
    push_number(lists, at, number)?;
    Ok(())
}
