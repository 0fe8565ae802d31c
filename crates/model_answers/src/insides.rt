//! What is inside of compound modules.

ghost use Rattle.std.specs.Prelude.{◌≡◌, IfOk, IfSome, Ok, Some};
ghost use Rattle.param_engine.specs.Tables.{IsKept};
ghost use Rattle.inside_keys.specs.Settings.{type_gates};
ghost use Rattle.inside_keys.specs.Unconnected.{unconnected};
ghost use Rattle.inside_keys.specs.Keys.{key};
ghost use Rattle.inside_keys.specs.Values.{rules_of, value_at};
ghost use Rattle.inside_keys.specs.declared.key.What.TheVariants as what;
ghost use Rattle.model_keeping.specs.Held.{standing};
ghost use Rattle.param_engine.specs.Tables.{said};
ghost use Rattle.inside_keys.specs.declared.found.Found.TheVariants as found_as;
ghost use Rattle.model_answers.specs.Insides as insides;
ghost use Rattle.model_answers.specs.Keyed as keyed;
ghost use Rattle.model_answers.specs.Reading.{settings_of, IsRight};

use crate::keyed::type_of;
use crate::reading::{Sources, module_of, own_table};
use inside_keys::found::{Found, Inside};
use inside_keys::key::{Key, Module, What};
use inside_keys::unconnected::unconnected;
use inside_parts::parts::Part;
use inside_run::placed::placed;
use inside_run::scene::ModuleSource;
use model_inside::built::{built_parts, name_of_part};
use model_keeping::values::{ValuePlace, known};
use model_questions::answer::Answer;
use ned_trees::declarations::{Submodule, TypeDeclaration, TypeKind};
use param_engine::table::Table;
use sim_values::NoMemory;
use sim_values::model_fault::ModelFault;
use sim_values::text::Text;
use std::alloc::Global;

/// The path of a submodule among the parts of the module of that path, which declares these
/// submodules.
pub fn child_path(
    alloc: Global,
    path: &[u8],
    lines: &[Submodule],
    part: Part,
) -> Result<Text, NoMemory>
    ensures { IfOk result (λ found. found ≡ insides.child_path path.now lines.now part) }
{
    let name = Text::from_bytes(alloc, name_of_part(lines, part))?;
    let site = module_of(alloc, path)?;
    let Module { created: _, path } = site.child(alloc, &name, part.index)?;
    Ok(path)
}

/// The submodules of an inside, or the fault of one that has a part with a gate which has to be
/// connected and isn't.
fn connected_answer(
    alloc: Global,
    from: Sources<'_>,
    site: &Module,
    declared: &TypeDeclaration,
    inside: &Inside,
) -> Result<Answer, NoMemory>
    ensures { IfOk result (λ found. found
        ≡ insides.connected_answer (settings_of from.entry) site.now declared.now inside.now
        (unconnected declared.now (type_gates (settings_of from.entry)) inside.now)) }
{
    let lines = declared.submodules.as_slice();
    let parts = inside.parts.parts.as_slice();
    match unconnected(alloc, declared, from.setting.gates(), inside)? {
        Some(_) => {
            let path = site.path.copy(alloc)?;
            Ok(Answer::Fault(path, ModelFault::Unconnected))
        }
        None => Ok(Answer::Inside(built_parts(alloc, from.setting.types(), lines, parts)?)),
    }
}

/// What is answered of an inside that was found, or of its first fault.
fn built_answer(
    alloc: Global,
    from: Sources<'_>,
    site: &Module,
    declared: &TypeDeclaration,
    found: Result<Found, (Text, ModelFault)>,
) -> Result<Answer, NoMemory>
    ensures { IfOk result (λ answer. answer
        ≡ insides.built_answer (settings_of from.entry) site.now declared.now found) }
{
    match found {
        Ok(Found::Inside(inside)) => connected_answer(alloc, from, site, declared, &inside),
        Ok(Found::Value(_)) | Ok(Found::Carrier(_)) => Ok(Answer::Absent),
        Err((path, fault)) => Ok(Answer::Fault(path, fault)),
    }
}

/// The inside of a module, or its first fault with its path.
#[tactic(auto, using(crate::proofs::Placing::found_at))]
fn inside_found(
    alloc: Global,
    from: Sources<'_>,
    own: &mut Table<Key, Found>,
    site: &Module,
) -> Result<Result<Found, (Text, ModelFault)>, NoMemory>
    requires { IsKept (rules_of (settings_of from)) own.old.entries }
    ensures { IfOk result
        (λ found. found ≡ insides.inside_found (settings_of from.entry) site.now) }
{
    let stands = from.setting.standing(alloc, site)?;
    placed(alloc, from.setting, own, site, stands.around.as_ref())
}

/// Where the inside of a module stands, where it is kept.
fn inside_place(
    alloc: Global,
    from: Sources<'_>,
    site: &Module,
) -> Result<Option<ValuePlace>, NoMemory>
    requires { IsRight from }
    ensures { IfOk result (λ place. IfSome place (λ p. said (standing from.entry.kept p)
        ≡ Some (value_at (settings_of from.entry) (key site.now what.Inside)))) }
{
    let key = site.key(alloc, What::Inside)?;
    Ok(known(from.setting, from.kept, &key))
}

/// The inside of a module, where it is kept.
fn kept_inside<'a>(
    alloc: Global,
    from: Sources<'a>,
    site: &Module,
) -> Result<Option<&'a Inside>, NoMemory>
    requires { IsRight from }
    ensures { IfOk result (λ kept. IfSome kept (λ i.
        insides.inside_found (settings_of from.entry) site.now ≡ Ok (found_as.Inside i.now))) }
{
    let Some(place) = inside_place(alloc, from, site)? else {
        return Ok(None);
    };
    match from.kept.value(place) {
        Some(Found::Inside(inside)) => Ok(Some(inside)),
        _ => Ok(None),
    }
}

/// What is inside of a compound module of that type.
fn built_in(
    alloc: Global,
    from: Sources<'_>,
    own: &mut Table<Key, Found>,
    site: &Module,
    declared: &TypeDeclaration,
) -> Result<Answer, NoMemory>
    requires right { IsRight from }
    requires own { IsKept (rules_of (settings_of from)) own.old.entries }
    ensures { IfOk result (λ answer. answer ≡ insides.built_answer (settings_of from.entry) site.now
        declared.now (insides.inside_found (settings_of from.entry) site.now)) }
{
    if let Some(inside) = kept_inside(alloc, from, site)? {
        return connected_answer(alloc, from, site, declared, inside);
    }
    let found = inside_found(alloc, from, own, site)?;
    built_answer(alloc, from, site, declared, found)
}

/// What is inside of a compound module, or its first fault.
pub fn inside_answer(alloc: Global, from: Sources<'_>, site: &Module) -> Result<Answer, NoMemory>
    requires { IsRight from }
    ensures { IfOk result (λ answer. answer ≡ insides.inside_answer (settings_of from.entry)
        site.now (keyed.type_of (settings_of from.entry) site.now)) }
{
    let mut own = own_table(alloc, from);
    let Some(of_type) = type_of(alloc, from, &mut own, site)? else {
        return Ok(Answer::Absent);
    };
    match of_type.declared.kind {
        TypeKind::Network | TypeKind::Module => {
            built_in(alloc, from, &mut own, site, of_type.declared)
        }
        TypeKind::Simple
        | TypeKind::Channel
        | TypeKind::ModuleInterface
        | TypeKind::ChannelInterface => Ok(Answer::Absent),
    }
}
