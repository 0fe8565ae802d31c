//! What the modules of a network have, as they are built.

ghost use Rattle.param_engine.specs.Tables.{IsKept};
ghost use Rattle.inside_keys.specs.Values.{rules_of};
ghost use Rattle.model_settings.specs.Standings.{setting_of};

use crate::creators::may_create;
use crate::modules::module_of;
use crate::paths::{MOST_TRIES, Paths};
use explain_types::names::shown;
use inside_keys::found::Found;
use inside_keys::key::{Key, Module, What};
use inside_parts::parts::Part;
use inside_run::scene::ModuleSource;
use inside_run::values::{empty_table, value_of};
use model_data::model::Model;
use model_settings::setting::ModelSetting;
use model_settings::tables::ModelTables;
use ned_trees::declarations::{TypeDeclaration, TypeKind};
use param_engine::table::Table;
use sim_values::NoMemory;
use sim_values::text::Text;
use std::alloc::Global;

/// Of how many modules the paths are looked at, at most.
const MOST_MODULES: usize = 10_000;

/// In how many turns: for the network, for each of these modules, and to see that none is left.
const MOST_TURNS: usize = MOST_MODULES + 2;

/// What is still to be looked at.
#[derive(Drop)]
struct Left {
    /// The paths of compound modules whose insides are.
    compounds: Vec<Text>,
    /// How many more modules there may be.
    modules: usize,
    /// How many paths there may be in all.
    paths: usize,
}

/// Adds what a part of the compound module of that path and type has, and its path to those that
/// are left where it is a compound module too.
fn push_part(
    paths: &mut Paths,
    left: &mut Left,
    alloc: Global,
    types: &[TypeDeclaration],
    site: &Module,
    around: &TypeDeclaration,
    part: Part,
) -> Result<(), NoMemory> {
    let Some(declared) = around.submodules.as_slice().get(part.line) else {
        return Ok(());
    };
    let Some(of) = types.get(part.of_type) else {
        return Ok(());
    };
    let body = declared.body.lines.as_slice();
    let Module { created: _, path } = site.child(alloc, &declared.name, part.index)?;
    paths.push_type(alloc, shown(path.as_bytes()), of, body)?;
    if matches!(of.kind, TypeKind::Module) {
        left.compounds.push(path)?;
    }
    Ok(())
}

/// Adds what these parts of the compound module of that path and type have, until there are too
/// many paths.
fn push_submodules(
    paths: &mut Paths,
    left: &mut Left,
    alloc: Global,
    types: &[TypeDeclaration],
    path: &Text,
    around: &TypeDeclaration,
    submodules: &[Part],
) -> Result<(), NoMemory> {
    let site = module_of(alloc, path.as_bytes())?;
    for part in submodules {
        if paths.count > left.paths {
            return Ok(());
        }
        push_part(paths, left, alloc, types, &site, around, *part)?;
    }
    Ok(())
}

/// Adds what the parts of the inside of the module of that path have, of which the first is that
/// module itself. Answers whether these are not too many modules, with not too many paths.
fn push_parts(
    paths: &mut Paths,
    left: &mut Left,
    alloc: Global,
    types: &[TypeDeclaration],
    path: &Text,
    parts: &[Part],
) -> Result<bool, NoMemory> {
    let [own, submodules @ ..] = parts else {
        return Ok(true);
    };
    if submodules.len() > left.modules {
        return Ok(false);
    }
    left.modules -= submodules.len();
    if let Some(around) = types.get(own.of_type) {
        push_submodules(paths, left, alloc, types, path, around, submodules)?;
    }
    Ok(paths.count <= left.paths)
}

/// Adds what is inside of the compound module of that path. Answers whether it can be built, of not
/// too many modules and with not too many paths.
fn push_inside(
    paths: &mut Paths,
    left: &mut Left,
    alloc: Global,
    setting: &ModelSetting<'_>,
    table: &mut Table<Key, Found>,
    path: &Text,
) -> Result<bool, NoMemory>
    requires { IsKept (rules_of (setting_of setting.now)) table.old.entries }
    ensures { IsKept (rules_of (setting_of setting.now)) table.new.entries }
{
    let site = module_of(alloc, path.as_bytes())?;
    let what = What::Inside;
    let Ok(place) = value_of(alloc, setting, table, Key { site, what })? else {
        return Ok(false);
    };
    match table.value(place) {
        Some(Found::Inside(inside)) => {
            let parts = inside.parts.parts.as_slice();
            push_parts(paths, left, alloc, setting.types(), path, parts)
        }
        _ => Ok(false),
    }
}

/// Adds what is inside of the compound modules that are left. Answers whether all can be built, of
/// not too many modules and with not too many paths.
fn push_insides(
    paths: &mut Paths,
    left: &mut Left,
    alloc: Global,
    setting: &ModelSetting<'_>,
    table: &mut Table<Key, Found>,
) -> Result<bool, NoMemory>
    requires { IsKept (rules_of (setting_of setting.now)) table.old.entries }
    ensures { IsKept (rules_of (setting_of setting.now)) table.new.entries }
{
    for _turn in 0..MOST_TURNS {
        let Some(path) = left.compounds.pop() else {
            return Ok(true);
        };
        if !push_inside(paths, left, alloc, setting, table, &path)? {
            return Ok(false);
        }
    }
    Ok(false)
}

/// Adds what the network of that type and all modules in it have. Answers whether it can be built,
/// of not too many modules and with not too many paths.
fn push_network(
    paths: &mut Paths,
    alloc: Global,
    setting: &ModelSetting<'_>,
    network: &TypeDeclaration,
    most: usize,
) -> Result<bool, NoMemory> {
    let name = network.name.as_bytes();
    paths.push_type(alloc, shown(name), network, &[])?;
    let mut left = Left {
        compounds: Vec::new(alloc),
        modules: MOST_MODULES,
        paths: most,
    };
    left.compounds.push(network.name.copy(alloc)?)?;
    let mut table = empty_table(alloc, setting);
    push_insides(paths, &mut left, alloc, setting, &mut table)
}

/// What keys can be for in the network of a model; none where that can't be built, or has too many
/// modules or parameters for so many lines.
fn paths_of(alloc: Global, model: &Model, lines: usize) -> Result<Option<Paths>, NoMemory> {
    let Some(network) = model.network() else {
        return Ok(None);
    };
    let tables = ModelTables::new(alloc, model)?;
    let setting = ModelSetting::new(model, &tables);
    let mut paths = Paths::new(alloc);
    let most = MOST_TRIES / lines.max(1);
    if push_network(&mut paths, alloc, &setting, network, most)? {
        return Ok(Some(paths));
    }
    Ok(None)
}

/// What keys can be for by the names that these types declare.
pub fn names_in(alloc: Global, types: &[TypeDeclaration]) -> Result<Paths, NoMemory> {
    let mut names = Paths::new(alloc);
    names.push_names(types)?;
    names.push_open(types)?;
    Ok(names)
}

/// What keys can be for in a model of these types, of an ini text of so many lines: by paths where
/// they are known, or else by the names that the types declare. Paths of modules that others create
/// are not known.
pub fn paths_in(
    alloc: Global,
    model: &Model,
    types: &[TypeDeclaration],
    lines: usize,
) -> Result<Paths, NoMemory> {
    if may_create(alloc, model)? {
        return names_in(alloc, types);
    }
    match paths_of(alloc, model, lines)? {
        Some(mut paths) => {
            paths.push_open(types)?;
            Ok(paths)
        }
        None => names_in(alloc, types),
    }
}
