//! What the bodies of submodules may say.

ghost use Rattle.std.specs.Prelude.{◌≡◌, [], IfOk};
ghost use Rattle.ned_types.specs.Types.{is_gate_declaration, is_unfit};
ghost use Rattle.ned_inheritance.specs.declared.places.Member.TheVariants as member;
ghost use Rattle.ned_inheritance.specs.Misfits.{misfit_in, told_of};
ghost use Rattle.ned_inheritance.specs.Places.{body_gate, first_from, first_told, unfit_body};
ghost use Rattle.ned_inheritance.specs.Seen.{names_in, is_unfit_over};

use crate::named::NamedTypes;
use crate::places::Member;
use crate::sections::{
    given_again, gives_seen, is_declaration, see_declared, see_fixed, sets_undeclared,
};
use indexmap::IndexSet;
use ned_trees::declarations::{GateLine, SectionLine, Submodule};
use ned_types::flat::type_name;
use std::alloc::{AllocError, Global};

/// The first line of the body of a submodule that can't stand over the lines of its type.
pub(crate) fn body_clash(
    alloc: Global,
    named: &NamedTypes<'_>,
    submodules: &[Submodule],
) -> Result<Option<Member>, AllocError>
    ensures { IfOk result
        (λ member. member ≡ first_told (unfit_body named.now) 0 submodules.now) }
{
    for (number, submodule) in submodules.iter().enumerate() {
        let member = unfit_body(alloc, named, number, submodule)?;
        if member.is_some() {
            return Ok(member);
        }
    }
    Ok(None)
}

fn unfit_body(
    alloc: Global,
    named: &NamedTypes<'_>,
    number: usize,
    submodule: &Submodule,
) -> Result<Option<Member>, AllocError>
    ensures { IfOk result (λ member. member ≡ unfit_body named.now number submodule.now) }
{
    match named.find(type_name(submodule)) {
        Some(declared) => {
            let lines = declared.lines.as_slice();
            let misfit = first_misfit(alloc, lines, submodule.body.lines.as_slice())?;
            Ok(in_body(number, misfit))
        }
        None => Ok(None),
    }
}

/// Why a line can't stand in a body or a block, and its number there.
#[derive(Clone, Copy)]
pub(crate) enum Misfit {
    /// It declares a parameter, or gives a value to one that the type doesn't declare, or has a
    /// fixed value for.
    Unfit(usize),
    /// It gives a value to a parameter that has a fixed one in a line before it.
    Again(usize),
}

/// That misfit in the body of the submodule of that number.
fn in_body(number: usize, misfit: Option<Misfit>) -> Option<Member>
    ensures { result ≡ told_of (member.Unfit number) (member.UnfitAgain number) misfit }
{
    match misfit {
        Some(Misfit::Unfit(at)) => Some(Member::Unfit(number, at)),
        Some(Misfit::Again(at)) => Some(Member::UnfitAgain(number, at)),
        None => None,
    }
}

/// The first line of a body, or of a channel's block, that can't stand over these lines of a type.
/// Over an empty body nothing is made of them.
pub(crate) fn first_misfit(
    alloc: Global,
    lines: &[SectionLine],
    body: &[SectionLine],
) -> Result<Option<Misfit>, AllocError>
    ensures { IfOk result (λ misfit. misfit ≡ misfit_in lines.now body.now) }
{
    if body.is_empty() {
        return Ok(None);
    }
    if let Some(at) = first_unfit(alloc, lines, body)? {
        return Ok(Some(Misfit::Unfit(at)));
    }
    match given_again(alloc, body)? {
        Some(at) => Ok(Some(Misfit::Again(at))),
        None => Ok(None),
    }
}

/// The first of the lines of a body that can't stand over these lines of a type.
fn first_unfit(
    alloc: Global,
    lines: &[SectionLine],
    body: &[SectionLine],
) -> Result<Option<usize>, AllocError>
    ensures { IfOk result (λ at. at ≡ first_from (λ l. is_unfit lines.now l) 0 body.now) }
{
    let mut declared = IndexSet::new(alloc);
    let mut fixed = IndexSet::new(alloc);
    first_unfit_over(&mut declared, &mut fixed, lines, body)
}

/// The first of the lines of a body that can't stand over these lines of a type, whose names are
/// added to two empty sets.
fn first_unfit_over<'a>(
    declared: &mut IndexSet<&'a [u8]>,
    fixed: &mut IndexSet<&'a [u8]>,
    lines: &'a [SectionLine],
    body: &'a [SectionLine],
) -> Result<Option<usize>, AllocError>
    requires declared { declared.old.keys ≡ [] }
    requires fixed { fixed.old.keys ≡ [] }
    ensures { IfOk result (λ at. at ≡ first_from (λ l. is_unfit lines.now l) 0 body.now) }
{
    let _again = see_declared(declared, lines)?;
    see_fixed(fixed, lines)?;
    Ok(first_unfit_by(declared, fixed, body))
}

/// The first of the lines of a body that can't stand over lines that declare parameters of the
/// first names, and fix those of the second.
fn first_unfit_by(
    declared: &IndexSet<&[u8]>,
    fixed: &IndexSet<&[u8]>,
    body: &[SectionLine],
) -> Option<usize>
    ensures { result ≡ first_from
        (λ l. is_unfit_over (names_in declared.now.keys) (names_in fixed.now.keys) l) 0 body.now }
{
    for (at, line) in body.iter().enumerate() {
        if is_unfit(declared, fixed, line) {
            return Some(at);
        }
    }
    None
}

/// Whether a line can't stand in a body over such lines.
fn is_unfit(declared: &IndexSet<&[u8]>, fixed: &IndexSet<&[u8]>, line: &SectionLine) -> bool
    ensures { result
        ≡ is_unfit_over (names_in declared.now.keys) (names_in fixed.now.keys) line.now }
{
    is_declaration(line) || sets_undeclared(declared, line) || gives_seen(fixed, line)
}

fn is_gate_declaration(line: &GateLine) -> bool
    ensures { result ≡ is_gate_declaration line.now }
{
    matches!(line, GateLine::Declaration(_))
}

/// The first line of gates in the body of a submodule that declares one.
fn first_declared(submodule: &Submodule) -> Option<usize>
    ensures { result ≡ first_from is_gate_declaration 0 submodule.now.body.gates }
{
    let gates = submodule.body.gates.as_slice();
    for (at, line) in gates.iter().enumerate() {
        if is_gate_declaration(line) {
            return Some(at);
        }
    }
    None
}

/// The same of the submodule of that number.
fn body_gate(number: usize, submodule: &Submodule) -> Option<Member>
    ensures { result ≡ body_gate number submodule.now }
{
    match first_declared(submodule) {
        Some(at) => Some(Member::BodyGate(number, at)),
        None => None,
    }
}

/// The first line of gates in a body of these submodules that declares one: only their types may.
pub(crate) fn declared_in_body(submodules: &[Submodule]) -> Option<Member>
    ensures { result ≡ first_told body_gate 0 submodules.now }
{
    for (number, submodule) in submodules.iter().enumerate() {
        let member = body_gate(number, submodule);
        if member.is_some() {
            return member;
        }
    }
    None
}
