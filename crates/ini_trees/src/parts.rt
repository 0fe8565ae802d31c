//! Lists of numbers that stand in another one, in its order.
//!
//! Where the lines of all that a section extends stand so in the line of the first, and the list of
//! them does, that line is their merge. It is so where one extends one, and in a ladder, in which
//! each extends the two before it. And where none of those that a section extends extends another
//! one, their list is the merge. So these take no steps of a merge.

ghost use Rattle.std.specs.Prelude.{◌≡◌, ◌∷◌, ◌++◌, [], true, IfSome, length, map};
ghost use Rattle.std.specs.List.{list_all};
ghost use Rattle.std.specs.Option.{option_copied};
ghost use Rattle.ini_trees.specs.Counts.{same_number, AreBelow, HoldsZeros};
ghost use Rattle.ini_trees.specs.Merge.{IsMerge};
ghost use Rattle.ini_trees.specs.Numbered.{line_at};
ghost use Rattle.ini_trees.specs.Parts.{is_alone, is_part, CountsOnly, IsFirstOnce, StandOnce};

use sqlite_items::Items;

/// The line of that number.
pub fn line_at(lines: &[Items<usize>], number: usize) -> &[usize]
    ensures { result.now ≡ line_at lines.now number }
{
    match lines.get(number) {
        Some(line) => line.as_slice(),
        None => &[],
    }
}

/// Whether the numbers of a list stand in another one, in its order.
fn is_part(part: &[usize], whole: &[usize]) -> bool
    ensures { result ≡ is_part part.now whole.now }
{
    let mut passed = 0;
    for number in whole {
        if passed == part.len() {
            return true;
        }
        if part[passed] == *number {
            passed += 1;
        }
    }
    passed == part.len()
}

/// Whether the lines of all these sections stand so in a list.
fn are_parts(lines: &[Items<usize>], row: &[usize], whole: &[usize]) -> bool
    ensures { result ≡ list_all (λ b. is_part (line_at lines.now b) whole.now) row.now }
{
    row.iter().all(|base| is_part(line_at(lines, *base), whole))
}

/// The line of the first of those that a section extends, where the lines of the others stand in
/// it, and the list of all: it is their merge.
pub fn whole_of<'a>(lines: &'a [Items<usize>], row: &[usize]) -> Option<&'a [usize]>
    requires once { IsFirstOnce lines.now row.now }
    ensures { IfSome (option_copied result) (λ whole.
        IsMerge same_number (map (line_at lines.now) row.now ++ row.now ∷ []) whole) }
{
    match row {
        [first, others @ ..] => {
            let whole = line_at(lines, *first);
            if is_part(row, whole) && are_parts(lines, others, whole) {
                Some(whole)
            } else {
                None
            }
        }
        [] => None,
    }
}

/// Whether each of these sections stands alone in its line.
pub fn are_alone(lines: &[Items<usize>], row: &[usize]) -> bool
    ensures { result ≡ list_all (λ b. is_alone b (line_at lines.now b)) row.now }
{
    row.iter()
        .all(|base| is_alone(*base, line_at(lines, *base)))
}

/// Whether a list has that number alone.
fn is_alone(number: usize, line: &[usize]) -> bool
    ensures { result ≡ is_alone number line.now }
{
    match line {
        [only] => *only == number,
        _ => false,
    }
}

/// Counts the numbers of a list, up to one that is counted already. Answers whether there is none
/// such.
fn count_once(waiting: &mut [u128], row: &[usize]) -> bool
    requires below { AreBelow (length waiting.old) row.now }
    requires zeros { HoldsZeros waiting.old }
    ensures once { result ≡ true → StandOnce row.now }
    ensures counts { CountsOnly waiting.new row.now }
{
    for number in row {
        if waiting[*number] != 0 {
            return false;
        }
        waiting[*number] = 1;
    }
    true
}

/// Forgets that these numbers are counted.
fn forget(waiting: &mut [u128], row: &[usize])
    requires below { AreBelow (length waiting.old) row.now }
    requires counts { CountsOnly waiting.old row.now }
    ensures zeros { HoldsZeros waiting.new }
{
    for number in row {
        waiting[*number] = 0;
    }
}

/// Whether each number stands once in a list, where nothing is counted, and after it again.
pub fn stand_once(waiting: &mut [u128], row: &[usize]) -> bool
    requires below { AreBelow (length waiting.old) row.now }
    requires zeros { HoldsZeros waiting.old }
    ensures once { result ≡ true → StandOnce row.now }
    ensures zeros { HoldsZeros waiting.new }
{
    let once = count_once(waiting, row);
    forget(waiting, row);
    once
}
