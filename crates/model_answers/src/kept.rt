//! Values that are kept between answers: the insides of all compound modules, and what these rest
//! on.

ghost use Rattle.param_engine.specs.Tables.{Begins, IsKept};
ghost use Rattle.inside_keys.specs.Values.{rules_of};
ghost use Rattle.model_answers.specs.Kept.{compounds_among, compounds_by, compounds_in, most_insides};
ghost use Rattle.model_answers.specs.Kept.{is_compound_type, paths_of, walked, AreInsidesKept};
ghost use Rattle.model_answers.specs.Kept.{IsInsideKept};
ghost use Rattle.model_data.specs.Models.{network_of};
ghost use Rattle.model_settings.specs.Standings.{setting_of};
ghost use Rattle.std.specs.List.{All};
ghost use Rattle.std.specs.Option.{option_copied};
ghost use Rattle.std.specs.Prelude.{◌≡◌, ◌++◌, IfOk, OnOk, reverse, slice_get};

use crate::insides::child_path;
use crate::reading::module_of;
use inside_keys::found::Found;
use inside_keys::key::{Key, What};
use inside_parts::parts::Part;
use inside_run::scene::ModuleSource;
use inside_run::values::{empty_table, value_of};
use model_data::model::Model;
use model_settings::setting::ModelSetting;
use ned_trees::declarations::{TypeDeclaration, TypeKind};
use param_engine::table::Table;
use sim_values::NoMemory;
use sim_values::text::Text;
use std::alloc::Global;

/// How many insides are kept at most: as many as a run has modules.
const MOST_INSIDES: u32 = 1_000_000;

/// The type of a part.
fn type_of_part(types: &[TypeDeclaration], part: Part) -> Option<&TypeDeclaration>
    ensures { option_copied result ≡ slice_get types.now part.of_type }
{
    types.get(part.of_type)
}

/// Whether a part is a compound module. A network may stand within another.
fn is_compound(types: &[TypeDeclaration], part: Part) -> bool
    ensures { result ≡ is_compound_type (slice_get types.now part.of_type) }
{
    match type_of_part(types, part) {
        Some(declared) => matches!(declared.kind, TypeKind::Module | TypeKind::Network),
        None => false,
    }
}

/// Adds the paths of the compound modules among these parts, which are submodules of the module of
/// that path and type.
fn push_compounds(
    pending: &mut Vec<Text>,
    alloc: Global,
    types: &[TypeDeclaration],
    declared: &TypeDeclaration,
    path: &[u8],
    parts: &[Part],
) -> Result<(), NoMemory>
    ensures { OnOk result (pending.new.items ≡ pending.old.items
        ++ compounds_among types.now declared.now.submodules path.now parts.now) }
{
    let lines = declared.submodules.as_slice();
    for part in parts {
        if is_compound(types, *part) {
            pending.push(child_path(alloc, path, lines, *part)?)?;
        }
    }
    Ok(())
}

/// Adds the paths of the compound modules in an inside, of which the first part is the module of
/// that path itself.
fn push_inner(
    pending: &mut Vec<Text>,
    alloc: Global,
    types: &[TypeDeclaration],
    path: &[u8],
    parts: &[Part],
) -> Result<(), NoMemory>
    ensures { OnOk result (pending.new.items
        ≡ pending.old.items ++ compounds_by types.now path.now parts.now) }
{
    let [own, submodules @ ..] = parts else {
        return Ok(());
    };
    match type_of_part(types, *own) {
        Some(declared) => push_compounds(pending, alloc, types, declared, path, submodules),
        None => Ok(()),
    }
}

/// Keeps the inside of the module of that path, where it has one, and adds the paths of the
/// compound modules in it.
fn keep_inside(
    alloc: Global,
    setting: &ModelSetting<'_>,
    kept: &mut Table<Key, Found>,
    pending: &mut Vec<Text>,
    path: &Text,
) -> Result<(), NoMemory>
    requires { IsKept (rules_of (setting_of setting.now)) kept.old.entries }
    ensures kept { IsKept (rules_of (setting_of setting.now)) kept.new.entries }
    ensures begins { Begins kept.old.entries kept.new.entries }
    ensures inside { OnOk result
        (IsInsideKept (setting_of setting.now) kept.new.entries path.now) }
    ensures pending { OnOk result (pending.new.items
        ≡ pending.old.items ++ compounds_in (setting_of setting.now) path.now) }
{
    let site = module_of(alloc, path.as_bytes())?;
    let what = What::Inside;
    let Ok(place) = value_of(alloc, setting, kept, Key { site, what })? else {
        return Ok(());
    };
    match kept.value(place) {
        Some(Found::Inside(inside)) => {
            let parts = inside.parts.parts.as_slice();
            push_inner(pending, alloc, setting.types(), path.as_bytes(), parts)
        }
        _ => Ok(()),
    }
}

/// Keeps the insides of the modules of these paths, and those of the compound modules in them.
fn keep_all(
    alloc: Global,
    setting: &ModelSetting<'_>,
    kept: &mut Table<Key, Found>,
    pending: &mut Vec<Text>,
) -> Result<(), NoMemory>
    requires { IsKept (rules_of (setting_of setting.now)) kept.old.entries }
    ensures kept { IsKept (rules_of (setting_of setting.now)) kept.new.entries }
    ensures insides { OnOk result (All (IsInsideKept (setting_of setting.now) kept.new.entries)
        (walked (setting_of setting.now) most_insides (reverse pending.old.items))) }
{
    for _turn in 0..MOST_INSIDES {
        let Some(path) = pending.pop() else {
            return Ok(());
        };
        keep_inside(alloc, setting, kept, pending, &path)?;
    }
    Ok(())
}

/// The path of a model's network, where it has one.
fn network_path(alloc: Global, model: &Model) -> Result<Vec<Text>, NoMemory>
    ensures { IfOk result (λ paths. paths.items ≡ paths_of (network_of model.now)) }
{
    let mut paths = Vec::new(alloc);
    if let Some(network) = model.network() {
        paths.push(network.name.copy(alloc)?)?;
    }
    Ok(paths)
}

/// The insides of the network and of all compound modules in it, and what these rest on.
pub fn kept_values(alloc: Global, setting: &ModelSetting<'_>) -> Result<Table<Key, Found>, NoMemory>
    ensures right { IfOk result (λ kept. IsKept (rules_of (setting_of setting.now)) kept.entries) }
    ensures insides { IfOk result (λ kept. AreInsidesKept setting.now kept.entries) }
{
    let mut kept = empty_table(alloc, setting);
    let mut pending = network_path(alloc, setting.model())?;
    keep_all(alloc, setting, &mut kept, &mut pending)?;
    Ok(kept)
}
