//! Which sections make a configuration.
//!
//! OMNeT++ Simulation Manual, "Section Inheritance".

ghost use Rattle.std.specs.Prelude.{◌≡◌, ◌≢◌, ◌⊎◌, ℕ, ◌<◌, [], ◌∷◌, ◌++◌, true, false, List, None};
ghost use Rattle.std.specs.Prelude.{Err, map, length, slice_index_or, IfOk, IfErr, OnOk};
ghost use Rattle.std.specs.List.{Contains, list_any};
ghost use Rattle.std.specs.Str.{bytes_eq};
ghost use Rattle.ini_trees.specs.declared.error.ChainError.TheVariants as errors;
ghost use Rattle.ini_trees.specs.declared.lines.IniLine.{IniLine as LineSaid};
ghost use Rattle.ini_trees.specs.Counts.{AreBelow, AreAllBelow, HoldsZeros, ZerosBehind};
ghost use Rattle.ini_trees.specs.Numbers.{name_at, names_behind, bases_at, AreLast, AreRows};
ghost use Rattle.ini_trees.specs.Numbers.{FitRows, IsOrdered, IsReached};
ghost use Rattle.ini_trees.specs.Numbered.{line_at, SettlesLine, SettlesRow, SettlesNumbered};
ghost use Rattle.ini_trees.specs.Numbered.{SettlesChain};
ghost use Rattle.ini_trees.specs.Parts.{IsFirstOnce};
ghost use Rattle.ini_trees.specs.Sections.{general, is_section_line, is_section, IsChain};
ghost use Rattle.ini_trees.specs.Sections.{RefusesChain, AnswersChain};
ghost use Rattle.ini_trees.specs.Words.{Bytes};

use crate::bases::{base_rows, is_general};
use crate::error::ChainError;
use crate::lines::{IniLine, IniText, LineMeaning};
use crate::merge::{Rest, merge};
use crate::names::{SectionNames, section_names};
use crate::order::{bases_at, order_behind};
use crate::parts::{are_alone, line_at, stand_once, whole_of};
use sim_values::text::Text;
use sqlite_items::Items;
use std::alloc::{AllocError, Global};

/// Whether a line begins a section of that name.
fn is_section_line(name: &[u8], line: &IniLine) -> bool
    ensures { result ≡ is_section_line name.now line.now.meaning }
{
    match &line.meaning {
        LineMeaning::Section(other) => other.is(name),
        _ => false,
    }
}

/// Whether one of the lines begins a section of that name.
fn begins_section(lines: &[IniLine], name: &[u8]) -> bool
    ensures { result ≡ list_any (λ (l : LineSaid). is_section_line name.now l.meaning) lines.now }
{
    lines.iter().any(|line| is_section_line(name, line))
}

/// Whether there is a section of that name.
fn is_section(lines: &[IniLine], name: &[u8]) -> bool
    ensures { result ≡ is_section name.now lines.now }
{
    is_general(name) || begins_section(lines, name)
}

/// What is merged after a section: the lines of those that it extends, and the list of these.
fn rests_of(alloc: Global, lines: &[Items<usize>], row: &[usize]) -> Result<Vec<Rest>, AllocError>
    ensures { IfOk result (λ rests. rests.items ≡ map (line_at lines.now) row.now ++ row.now ∷ []) }
{
    let mut rests = Vec::new(alloc);
    for base in row {
        rests.push(Rest::of(alloc, line_at(lines, *base))?)?;
    }
    rests.push(Rest::of(alloc, row)?)?;
    Ok(rests)
}

/// A section and the merge of these lists, if they have one.
fn line_before(
    alloc: Global,
    number: usize,
    rests: &mut [Rest],
    waiting: &mut [u128],
) -> Result<Option<Items<usize>>, AllocError>
    requires below { AreAllBelow (length waiting.old) rests.old }
    requires zeros { HoldsZeros waiting.old }
    ensures line { SettlesLine number rests.old result }
    ensures zeros { ZerosBehind waiting.new result }
{
    match merge(alloc, rests, waiting)? {
        Some(behind) => {
            let mut line = Items::new(alloc);
            line.push(number)?;
            line.append(behind)?;
            Ok(Some(line))
        }
        None => Ok(None),
    }
}

/// A number, and then these.
fn line_with(alloc: Global, number: usize, behind: &[usize]) -> Result<Items<usize>, AllocError>
    ensures { IfOk result (λ line. line ≡ number ∷ behind.now) }
{
    let mut line = Vec::new(alloc);
    line.push(number)?;
    line.extend_from_slice(behind)?;
    Ok(Items::from_vec(line))
}

/// The line of a section, if it has one, where those that it extends have these.
fn line_of(
    alloc: Global,
    lines: &[Items<usize>],
    row: &[usize],
    number: usize,
    waiting: &mut [u128],
) -> Result<Option<Items<usize>>, AllocError>
    requires below { AreAllBelow (length waiting.old)
        (map (line_at lines.now) row.now ++ row.now ∷ []) }
    requires zeros { HoldsZeros waiting.old }
    requires once { IsFirstOnce lines.now row.now }
    ensures line { SettlesLine number (map (line_at lines.now) row.now ++ row.now ∷ []) result }
    ensures zeros { ZerosBehind waiting.new result }
{
    if let Some(whole) = whole_of(lines, row) {
        return Ok(Some(line_with(alloc, number, whole)?));
    }
    if are_alone(lines, row) && stand_once(waiting, row) {
        return Ok(Some(line_with(alloc, number, row)?));
    }
    let mut rests = rests_of(alloc, lines, row)?;
    line_before(alloc, number, rests.as_mut_slice(), waiting)
}

/// The line of the section of that number, if it has one, where those that it extends have these.
fn line_in(
    alloc: Global,
    rows: &[Option<Items<usize>>],
    lines: &[Items<usize>],
    number: usize,
    waiting: &mut [u128],
) -> Result<Option<Items<usize>>, AllocError>
    requires below { AreAllBelow (length waiting.old)
        (map (line_at lines.now) (bases_at rows.now number) ++ bases_at rows.now number ∷ []) }
    requires zeros { HoldsZeros waiting.old }
    requires once { IsFirstOnce lines.now (bases_at rows.now number) }
    ensures line { SettlesRow (slice_index_or rows.now number None) number lines.now result }
    ensures zeros { ZerosBehind waiting.new result }
{
    match bases_at(rows, number) {
        Some(row) => line_of(alloc, lines, row, number, waiting),
        None => Ok(None),
    }
}

/// So many lists of nothing.
fn no_lines(alloc: Global, count: usize) -> Result<Items<Items<usize>>, AllocError>
    ensures { IfOk result (λ lines. length lines ≡ count) }
{
    let mut lines = Items::new(alloc);
    for _ in 0..count {
        lines.push(Items::new(alloc))?;
    }
    Ok(lines)
}

/// So many zeros.
fn nothing_counted(alloc: Global, count: usize) -> Result<Vec<u128>, AllocError>
    ensures size { IfOk result (λ waiting. length waiting.items ≡ count) }
    ensures zeros { IfOk result (λ waiting. HoldsZeros waiting.items) }
{
    Ok(vec![in alloc; 0; count]?)
}

/// The numbers of those that a section extends; none where they are not all there.
fn row_at(rows: &[Option<Items<usize>>], number: usize) -> &[usize]
    ensures { result.now ≡ bases_at rows.now number }
{
    match bases_at(rows, number) {
        Some(row) => row,
        None => &[],
    }
}

/// Notes that the section in this place of an order extends those.
fn use_bases(last: &mut [usize], row: &[usize], place: usize)
    requires { AreBelow (length last.old) row.now }
    ensures used { (k : ℕ) → Contains row.now k → slice_index_or last.new k 0 ≡ place }
    ensures others { (k : ℕ) → (slice_index_or last.new k 0 ≡ place)
        ⊎ (slice_index_or last.new k 0 ≡ slice_index_or last.old k 0) }
{
    for base in row {
        last[*base] = place;
    }
}

/// Notes for each section the last place of an order where a section stands that extends it.
fn use_order(last: &mut [usize], rows: &[Option<Items<usize>>], order: &[usize])
    requires rows { AreRows rows.now }
    requires size { length last.old ≡ length rows.now }
    ensures { AreLast rows.now order.now last.new }
{
    for (place, number) in order.iter().enumerate() {
        use_bases(last, row_at(rows, *number), place);
    }
}

/// For each section the last place of an order where a section stands that extends it.
fn last_uses(
    alloc: Global,
    rows: &[Option<Items<usize>>],
    order: &[usize],
) -> Result<Vec<usize>, AllocError>
    requires { AreRows rows.now }
    ensures { IfOk result (λ last. AreLast rows.now order.now last.items) }
{
    let mut last = vec![in alloc; 0; rows.len()]?;
    use_order(last.as_mut_slice(), rows, order);
    Ok(last)
}

/// Gives up the lines of those among these sections that were used last in this place of an order,
/// but for that of the root.
fn give_up(
    alloc: Global,
    lines: &mut Items<Items<usize>>,
    row: &[usize],
    last: &[usize],
    place: usize,
    root: usize,
)
    requires { AreBelow (length lines.old) row.now }
    ensures size { length lines.new ≡ length lines.old }
    ensures kept { (k : ℕ) → (k ≡ root) ⊎ (slice_index_or last.now k 0 ≢ place)
        → line_at lines.new k ≡ line_at lines.old k }
{
    for base in row {
        if *base != root && used_last(last, *base) == place {
            lines.set(*base, Items::new(alloc));
        }
    }
}

/// The last place of an order where a section stands that extends this one.
fn used_last(last: &[usize], number: usize) -> usize
    ensures { result ≡ slice_index_or last.now number 0 }
{
    match last.get(number) {
        Some(place) => *place,
        None => 0,
    }
}

/// The line of a section, if it has one, from those of the sections before it in an order, in which
/// each section stands after those that it extends. A line is given up when all sections that
/// extend its own have theirs.
fn line_along(
    alloc: Global,
    text: &[IniLine],
    names: &SectionNames<'_>,
    rows: &[Option<Items<usize>>],
    order: &[usize],
    root: usize,
    waiting: &mut [u128],
) -> Result<Option<Items<usize>>, AllocError>
    requires names { names.now ≡ names_behind [] text.now }
    requires rows { FitRows text.now names.now rows.now }
    requires within { root < length names.now }
    requires ordered { IsOrdered rows.now order.now }
    requires whole { Contains order.now root }
    requires reached { (k : ℕ) → Contains order.now k → IsReached rows.now root k }
    requires counted { length waiting.old ≡ length names.now }
    requires zeros { HoldsZeros waiting.old }
    ensures { SettlesNumbered text.now names.now root result }
{
    let _text = text;
    let last = last_uses(alloc, rows, order)?;
    let mut lines = no_lines(alloc, names.len())?;
    for (place, number) in order.iter().enumerate() {
        match line_in(alloc, rows, lines.as_slice(), *number, waiting)? {
            Some(line) => lines.set(*number, line),
            None => return Ok(None),
        }
        let row = row_at(rows, *number);
        give_up(alloc, &mut lines, row, last.as_slice(), place, root);
    }
    Ok(Some(lines.remove(root)))
}

/// The line of a section, if it has one, where what it extends has this order.
fn ordered_line(
    alloc: Global,
    lines: &[IniLine],
    names: &SectionNames<'_>,
    rows: &[Option<Items<usize>>],
    order: &[usize],
    root: usize,
) -> Result<Option<Items<usize>>, AllocError>
    requires names { names.now ≡ names_behind [] lines.now }
    requires rows { FitRows lines.now names.now rows.now }
    requires within { root < length names.now }
    requires ordered { IsOrdered rows.now order.now }
    requires whole { Contains order.now root }
    requires reached { (k : ℕ) → Contains order.now k → IsReached rows.now root k }
    ensures { SettlesNumbered lines.now names.now root result }
{
    let mut waiting = nothing_counted(alloc, names.len())?;
    line_along(
        alloc,
        lines,
        names,
        rows,
        order,
        root,
        waiting.as_mut_slice(),
    )
}

/// The line of the section of that number, if it has one.
fn numbered_line(
    alloc: Global,
    lines: &[IniLine],
    names: &SectionNames<'_>,
    root: usize,
) -> Result<Option<Items<usize>>, AllocError>
    requires names { names.now ≡ names_behind [] lines.now }
    requires within { root < length names.now }
    ensures { SettlesNumbered lines.now names.now root result }
{
    let rows = base_rows(alloc, lines, names)?;
    match order_behind(alloc, rows.as_slice(), root)? {
        Some(order) => ordered_line(alloc, lines, names, rows.as_slice(), order.as_slice(), root),
        None => Ok(None),
    }
}

/// The names of these numbers, and at last General.
fn chain_named(
    alloc: Global,
    names: &SectionNames<'_>,
    line: &[usize],
) -> Result<Items<Text>, AllocError>
    requires { AreBelow (length names.now) line.now }
    ensures { IfOk result (λ chain. chain ≡ map (name_at names.now) line.now ++ general ∷ []) }
{
    let mut chain = Items::new(alloc);
    for number in line {
        chain.push(Text::from_bytes(alloc, names.name(*number))?)?;
    }
    chain.push(Text::from_bytes(alloc, b"General")?)?;
    Ok(chain)
}

/// The chain of the section of that number.
fn chain_from(
    alloc: Global,
    lines: &[IniLine],
    names: &SectionNames<'_>,
    root: usize,
) -> Result<Items<Text>, ChainError>
    requires names { names.now ≡ names_behind [] lines.now }
    requires within { root < length names.now }
    requires other { name_at names.now root ≢ general }
    ensures { SettlesChain lines.now (name_at names.now root) result }
{
    match numbered_line(alloc, lines, names, root)? {
        Some(line) => Ok(chain_named(alloc, names, line.as_slice())?),
        None => Err(ChainError::ChainFault),
    }
}

/// The chain of General.
fn chain_of_general(alloc: Global) -> Result<Items<Text>, AllocError>
    ensures { IfOk result (λ chain. chain ≡ general ∷ []) }
{
    let mut chain = Items::new(alloc);
    chain.push(Text::from_bytes(alloc, b"General")?)?;
    Ok(chain)
}

/// The chain of a configuration that is there.
fn chain_of(alloc: Global, lines: &[IniLine], config: &[u8]) -> Result<Items<Text>, ChainError>
    requires { is_section config.now lines.now ≡ true }
    ensures { SettlesChain lines.now config.now result }
{
    if is_general(config) {
        return Ok(chain_of_general(alloc)?);
    }
    let names = section_names(alloc, lines)?;
    match names.number_of(config) {
        Some(root) => chain_from(alloc, lines, &names, root),
        None => Err(ChainError::ChainFault),
    }
}

impl IniText {
    /// The names of the sections that make a configuration: its own, those that it extends, itself
    /// or by others, and at last General. Where it extends several, their lines are merged: again
    /// and again the first head of a line that stands in no tail of one.
    ///
    /// [`ChainError::NoSuchConfig`] where there is no such section, [`ChainError::ChainFault`]
    /// where it has no chain, and [`ChainError::NoMemory`] where memory ran out.
    pub fn chain(&self, alloc: Global, config: &[u8]) -> Result<Items<Text>, ChainError>
        ensures accepted { IfOk result
            (λ chain. IsChain self.now config.now chain × (is_section config.now self.now ≡ true)) }
        ensures complete { (chain : List Bytes) → IsChain self.now config.now chain
            → is_section config.now self.now ≡ true → AnswersChain chain result }
        ensures refused { IfErr result (λ e. RefusesChain self.now config.now e) }
        ensures missing { is_section config.now self.now ≡ false
            → result ≡ Err errors.NoSuchConfig }
    {
        if !is_section(self.lines(), config) {
            return Err(ChainError::NoSuchConfig);
        }
        chain_of(alloc, self.lines(), config)
    }
}
