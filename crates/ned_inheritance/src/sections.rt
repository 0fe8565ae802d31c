//! Parameter sections: what is declared twice, and given without a declaration or after a fixed
//! value. The names that were seen stand in sets, so each line is compared with few.

ghost use Rattle.std.specs.Prelude.{◌≡◌, [], not, Some, None, if◌then◌else◌, IfOk, OnOk};
ghost use Rattle.std.specs.Option.{option_map};
ghost use Rattle.std.specs.Str.{bytes_eq};
ghost use Rattle.ned_types.specs.Flat.{or_else};
ghost use Rattle.ned_types.specs.Types.{is_declaration, declares, is_declared, is_refixed};
ghost use Rattle.ned_types.specs.Types.{gives_fixed, is_fixed_in};
ghost use Rattle.ned_inheritance.specs.declared.places.Member.TheVariants as member;
ghost use Rattle.ned_inheritance.specs.Places.{first_again, first_from, is_declared_twice};
ghost use Rattle.ned_inheritance.specs.Places.{misdeclared_in, section_clash_in};
ghost use Rattle.ned_inheritance.specs.Seen.{names_in, is_in, AddsNames, redeclares_seen};
ghost use Rattle.ned_inheritance.specs.Seen.{gives_seen, sets_undeclared};

use crate::places::Member;
use indexmap::IndexSet;
use ned_trees::declarations::SectionLine;
use ned_types::given::{fixes, name_in, value_in};
use std::alloc::{AllocError, Global};

/// The first line that clashes: one that declares a parameter a second time, or else one that gives
/// a value to one that isn't declared, or else one that gives a value to one with a fixed one.
pub(crate) fn section_clash(
    alloc: Global,
    lines: &[SectionLine],
) -> Result<Option<Member>, AllocError>
    ensures { IfOk result (λ member. member ≡ section_clash_in lines.now) }
{
    let member = misdeclared(alloc, lines)?;
    if member.is_some() {
        return Ok(member);
    }
    Ok(given(given_again(alloc, lines)?))
}

/// The first line that declares a parameter a second time, or else that gives a value to one that
/// isn't declared.
fn misdeclared(alloc: Global, lines: &[SectionLine]) -> Result<Option<Member>, AllocError>
    ensures { IfOk result (λ member. member ≡ misdeclared_in lines.now) }
{
    let mut declared = IndexSet::new(alloc);
    misdeclared_by(&mut declared, lines)
}

/// The same, where the names that are declared are added to an empty set.
fn misdeclared_by<'a>(
    declared: &mut IndexSet<&'a [u8]>,
    lines: &'a [SectionLine],
) -> Result<Option<Member>, AllocError>
    requires { declared.old.keys ≡ [] }
    ensures { IfOk result (λ member. member ≡ misdeclared_in lines.now) }
{
    let again = declared_again(see_declared(declared, lines)?);
    if again.is_some() {
        return Ok(again);
    }
    Ok(undeclared(first_unseen(declared, lines)))
}

/// That the line of that number declares a parameter a second time.
fn declared_again(at: Option<usize>) -> Option<Member>
    ensures { result ≡ option_map member.DeclaredAgain at }
{
    match at {
        Some(at) => Some(Member::DeclaredAgain(at)),
        None => None,
    }
}

/// That the line of that number gives a value to a parameter that isn't declared.
fn undeclared(at: Option<usize>) -> Option<Member>
    ensures { result ≡ option_map member.Undeclared at }
{
    match at {
        Some(at) => Some(Member::Undeclared(at)),
        None => None,
    }
}

/// That the line of that number gives a value to a parameter with a fixed one.
fn given(at: Option<usize>) -> Option<Member>
    ensures { result ≡ option_map member.GivenAgain at }
{
    match at {
        Some(at) => Some(Member::GivenAgain(at)),
        None => None,
    }
}

/// The first number that is there.
fn first_number(again: Option<usize>, seen: bool, at: usize) -> Option<usize>
    ensures { result ≡ or_else again (if seen then Some at else None) }
{
    if again.is_some() {
        return again;
    }
    if seen { Some(at) } else { None }
}

/// Adds the names of the parameters that these lines declare to an empty set. Answers the first
/// line that declares a parameter which one before it declares.
pub(crate) fn see_declared<'a>(
    declared: &mut IndexSet<&'a [u8]>,
    lines: &'a [SectionLine],
) -> Result<Option<usize>, AllocError>
    requires { declared.old.keys ≡ [] }
    ensures again { IfOk result (λ again. again ≡ first_again is_declared_twice [] 0 lines.now) }
    ensures names { OnOk result (AddsNames (names_in declared.old.keys)
        (λ n. is_declared n lines.now) (names_in declared.new.keys)) }
{
    let mut again = None;
    for (at, line) in lines.iter().enumerate() {
        let seen = see_declaration(declared, line)?;
        again = first_number(again, seen, at);
    }
    Ok(again)
}

/// Adds the name of the parameter that the line declares, if it declares one. Answers whether it
/// was seen before.
fn see_declaration<'a>(
    declared: &mut IndexSet<&'a [u8]>,
    line: &'a SectionLine,
) -> Result<bool, AllocError>
    ensures again { IfOk result
        (λ again. again ≡ redeclares_seen (names_in declared.old.keys) line.now) }
    ensures names { OnOk result (AddsNames (names_in declared.old.keys) (λ n. declares n line.now)
        (names_in declared.new.keys)) }
{
    if !is_declaration(line) {
        return Ok(false);
    }
    let new = see(declared, name_in(line))?;
    Ok(!new)
}

/// Adds the names of the parameters that these lines give fixed values.
pub(crate) fn see_fixed<'a>(
    fixed: &mut IndexSet<&'a [u8]>,
    lines: &'a [SectionLine],
) -> Result<(), AllocError>
    ensures { OnOk result (AddsNames (names_in fixed.old.keys) (λ n. is_fixed_in n lines.now)
        (names_in fixed.new.keys)) }
{
    let mut rest = lines;
    'lines: while let Some((line, after)) = rest.split_first() {
        see_fixing(fixed, line)?;
        rest = after;
    }
    Ok(())
}

/// Adds the name of the parameter that the line gives a fixed value, if it gives one.
fn see_fixing<'a>(fixed: &mut IndexSet<&'a [u8]>, line: &'a SectionLine) -> Result<(), AllocError>
    ensures { OnOk result (AddsNames (names_in fixed.old.keys) (λ n. gives_fixed n line.now)
        (names_in fixed.new.keys)) }
{
    if fixes(line) {
        see(fixed, name_in(line))?;
    }
    Ok(())
}

/// Adds a name. Answers whether it is new.
pub(crate) fn see<'a>(seen: &mut IndexSet<&'a [u8]>, name: &'a [u8]) -> Result<bool, AllocError>
    ensures new { IfOk result (λ new. new ≡ not (is_in name.now (names_in seen.old.keys))) }
    ensures names { OnOk result
        (AddsNames (names_in seen.old.keys) (λ n. bytes_eq name.now n) (names_in seen.new.keys)) }
{
    Ok(seen.insert(name)?)
}

/// The first line that gives a value to a parameter that has a fixed one in a line before it.
pub(crate) fn given_again(alloc: Global, lines: &[SectionLine]) -> Result<Option<usize>, AllocError>
    ensures { IfOk result (λ at. at ≡ first_again is_refixed [] 0 lines.now) }
{
    let mut fixed = IndexSet::new(alloc);
    one_gives_seen(&mut fixed, lines)
}

/// The first of these lines that gives a value to a parameter that has a fixed one in a line before
/// it. The names of those that have are added to an empty set.
fn one_gives_seen<'a>(
    seen: &mut IndexSet<&'a [u8]>,
    lines: &'a [SectionLine],
) -> Result<Option<usize>, AllocError>
    requires { seen.old.keys ≡ [] }
    ensures { IfOk result (λ at. at ≡ first_again is_refixed [] 0 lines.now) }
{
    for (at, line) in lines.iter().enumerate() {
        if gives_seen(seen, line) {
            return Ok(Some(at));
        }
        see_fixing(seen, line)?;
    }
    Ok(None)
}

/// Whether the line gives a value to a parameter that was seen.
pub(crate) fn gives_seen(seen: &IndexSet<&[u8]>, line: &SectionLine) -> bool
    ensures { result ≡ gives_seen (names_in seen.now.keys) line.now }
{
    value_in(line).is_some() && is_seen(seen, name_in(line))
}

/// The first of these lines that gives a value to a parameter that wasn't seen.
fn first_unseen(seen: &IndexSet<&[u8]>, lines: &[SectionLine]) -> Option<usize>
    ensures { result ≡ first_from (λ l. sets_undeclared (names_in seen.now.keys) l) 0 lines.now }
{
    for (at, line) in lines.iter().enumerate() {
        if sets_undeclared(seen, line) {
            return Some(at);
        }
    }
    None
}

/// Whether the line gives a value to a parameter that wasn't seen.
pub(crate) fn sets_undeclared(seen: &IndexSet<&[u8]>, line: &SectionLine) -> bool
    ensures { result ≡ sets_undeclared (names_in seen.now.keys) line.now }
{
    value_in(line).is_some() && !is_seen(seen, name_in(line))
}

/// Whether the name was seen.
fn is_seen(seen: &IndexSet<&[u8]>, name: &[u8]) -> bool
    ensures { result ≡ is_in name.now (names_in seen.now.keys) }
{
    seen.contains(name)
}

pub(crate) fn is_declaration(line: &SectionLine) -> bool
    ensures { result ≡ is_declaration line.now }
{
    matches!(line, SectionLine::Declaration(_))
}
