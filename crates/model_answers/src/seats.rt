//! Modules among the parts of the modules around them.

ghost use Rattle.std.specs.Prelude.{◌≡◌, IfOk, IfSome, Some};
ghost use Rattle.std.specs.Option.{option_copied};
ghost use Rattle.std.specs.Result.{result_ok};
ghost use Rattle.param_engine.specs.Tables.{IsKept};
ghost use Rattle.inside_keys.specs.Settings.{declarer_of};
ghost use Rattle.inside_keys.specs.Values.{rules_of};
ghost use Rattle.inside_run.specs.Scenes.{standing_by};
ghost use Rattle.inside_wiring.specs.Ends.{part_named};
ghost use Rattle.model_answers.specs.Insides as insides;
ghost use Rattle.model_answers.specs.Keyed as keyed;
ghost use Rattle.model_answers.specs.Reading.{maybe_copied, maybe_seat, settings_of, sought_seat};
ghost use Rattle.model_answers.specs.Reading.{type_by, IsNumbered, IsRight};

use crate::keyed::{Typed, type_of};
use crate::reading::{Sources, Spot, said, value_of};
use inside_keys::found::{Found, Inside};
use inside_keys::key::{Key, Module, What};
use inside_parts::fault::InsideError;
use inside_parts::names::Names;
use inside_run::scene::{ModuleSource, Stands};
use inside_wiring::ends::part_named;
use ned_trees::declarations::TypeDeclaration;
use param_engine::table::Table;
use sim_values::NoMemory;
use sim_values::model_fault::ModelFault;
use std::alloc::Global;

/// A module among the parts of the module around it: the type of that module, its inside, and the
/// number of the part.
#[derive(Clone, Copy)]
pub struct PartAt<'a> {
    pub of_type: &'a TypeDeclaration,
    pub inside: &'a Inside,
    pub part: usize,
}

/// A module that is looked for among the parts of the module around it: where it stands, the type
/// of that module, and where the inside of that module was found.
#[derive(Drop)]
pub struct Sought<'a> {
    pub stands: Stands,
    pub of_type: Option<Typed<'a>>,
    pub inside: Result<Spot, ModelFault>,
}

/// The module whose type declares one that stands there.
pub fn declarer_of(stands: &Stands) -> Option<&Module>
    ensures { option_copied result ≡ declarer_of (standing_by stands.now) }
{
    if stands.is_declared {
        stands.around.as_ref()
    } else {
        None
    }
}

/// The inside that was found, if one was.
pub fn inside_in<'a>(found: Option<Result<&'a Found, ModelFault>>) -> Option<&'a Inside>
    ensures { option_copied result ≡ insides.maybe_inside (maybe_copied found.entry) }
{
    match found {
        Some(Ok(Found::Inside(inside))) => Some(inside),
        Some(Ok(Found::Value(_))) | Some(Ok(Found::Carrier(_))) => None,
        Some(Err(_)) | None => None,
    }
}

/// Looks for a module that stands there, in that one.
fn seek_in<'a>(
    alloc: Global,
    from: Sources<'a>,
    own: &mut Table<Key, Found>,
    stands: Stands,
    around: &Module,
) -> Result<Sought<'a>, NoMemory>
    requires right { IsRight from }
    requires own { IsKept (rules_of (settings_of from)) own.old.entries }
    ensures sought { IfOk result (λ sought. sought_seat from.entry own.new.entries (Some sought)
        ≡ insides.seat_typed (standing_by stands) (keyed.type_of (settings_of from.entry)
        around.now) (insides.inside_of (settings_of from.entry) around.now)) }
    ensures there { IfOk result
        (λ sought. IfSome sought.of_type (λ t. IsNumbered (settings_of from.entry) t)) }
    ensures kept { IsKept (rules_of (settings_of from.entry)) own.new.entries }
{
    let of_type = type_of(alloc, from, own, around)?;
    let inside = value_of(alloc, from, own, around, What::Inside)?;
    Ok(Sought {
        stands,
        of_type,
        inside,
    })
}

/// Looks for a module in the one whose type declares it; no type declares the network, and what was
/// created while the run went on.
pub fn seek<'a>(
    alloc: Global,
    from: Sources<'a>,
    own: &mut Table<Key, Found>,
    site: &Module,
) -> Result<Option<Sought<'a>>, NoMemory>
    requires right { IsRight from }
    requires own { IsKept (rules_of (settings_of from)) own.old.entries }
    ensures sought { IfOk result (λ sought. sought_seat from.entry own.new.entries sought
        ≡ insides.seat_of (settings_of from.entry) site.now) }
    ensures there { IfOk result (λ sought.
        IfSome sought (λ s. IfSome s.of_type (λ t. IsNumbered (settings_of from.entry) t))) }
    ensures kept { IsKept (rules_of (settings_of from.entry)) own.new.entries }
{
    let stands = from.setting.standing(alloc, site)?;
    let around = match declarer_of(&stands) {
        Some(around) => around.copy(alloc)?,
        None => return Ok(None),
    };
    Ok(Some(seek_in(alloc, from, own, stands, &around)?))
}

/// The part of an inside that a module is which stands there, where the submodules have these
/// names.
fn part_at(names: &Names, inside: &Inside, stands: &Stands) -> Result<Option<usize>, NoMemory>
    ensures { IfOk result (λ part. part
        ≡ result_ok (part_named names.now inside.now.parts stands.now.name stands.now.index)) }
{
    match part_named(names, &inside.parts, &stands.name, stands.index) {
        Ok(part) => Ok(Some(part)),
        Err(InsideError::Fault(_)) => Ok(None),
        Err(InsideError::Memory(error)) => Err(error),
    }
}

/// The part that a module is which stands there, in the inside of a module of that type.
fn seat_in<'a>(
    from: Sources<'a>,
    stands: &Stands,
    of_type: Typed<'a>,
    inside: &'a Inside,
) -> Result<Option<PartAt<'a>>, NoMemory>
    requires { IsNumbered (settings_of from) of_type }
    ensures { IfOk result (λ seat. maybe_seat seat ≡ insides.seat_among (standing_by stands.now)
        of_type.entry.declared.now (Some inside.now)) }
{
    let Some(names) = from.setting.submodules(of_type.number) else {
        return Ok(None);
    };
    match part_at(names, inside, stands)? {
        Some(part) => Ok(Some(PartAt {
            of_type: of_type.declared,
            inside,
            part,
        })),
        None => Ok(None),
    }
}

/// The part that a module is which is looked for.
pub fn seat_of<'a>(
    from: Sources<'a>,
    own: &'a Table<Key, Found>,
    sought: &Sought<'a>,
) -> Result<Option<PartAt<'a>>, NoMemory>
    requires { IfSome sought.now.of_type (λ t. IsNumbered (settings_of from) t) }
    ensures { IfOk result
        (λ seat. maybe_seat seat ≡ sought_seat from.entry own.now.entries (Some sought.now)) }
{
    let Some(of_type) = sought.of_type else {
        return Ok(None);
    };
    match inside_in(said(from, own, sought.inside)) {
        Some(inside) => seat_in(from, &sought.stands, of_type, inside),
        None => Ok(None),
    }
}
