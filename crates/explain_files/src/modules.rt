//! Modules of a model, by their paths.

use ini_trees::speaks::last_name;
use inside_keys::found::Found;
use inside_keys::key::Module;
use inside_run::placed::placed;
use inside_run::values::empty_table;
use model_answers::plain::PlainAnswers;
use model_questions::record::{Origin, Record};
use model_settings::setting::ModelSetting;
use model_settings::standings::{around_of, before_last, name_in};
use ned_trees::declarations::{Submodule, TypeDeclaration};
use ned_types::flat::submodule_named;
use run_semantics::outcome::RunFault;
use sim_values::NoMemory;
use sim_values::model_fault::ModelFault;
use sim_values::text::Text;
use sqlite_items::Items;
use std::alloc::Global;

/// The fault of a run, with the path that it is told with.
#[derive(Clone, Copy)]
pub struct ToldFault<'a> {
    pub path: &'a str,
    pub fault: &'a RunFault,
}

/// A submodule as it is declared, with the type that declares it.
#[derive(Clone, Copy)]
pub struct Declared<'a> {
    pub around: &'a TypeDeclaration,
    pub submodule: &'a Submodule,
}

/// The declaration of the module of that path, with or without its index.
pub fn declared_at<'a>(
    alloc: Global,
    answers: &'a PlainAnswers<'_>,
    path: &[u8],
) -> Result<Option<Declared<'a>>, NoMemory> {
    let Some(above) = before_last(path) else {
        return Ok(None);
    };
    let Some(around) = answers.type_at_path(alloc, above)? else {
        return Ok(None);
    };
    let name = name_in(last_name(path));
    match submodule_named(name, around.submodules.as_slice()) {
        Some(submodule) => Ok(Some(Declared { around, submodule })),
        None => Ok(None),
    }
}

/// Records of one module, of id 1, which has that path. So a question about that id is one about
/// the module of the path.
pub fn record_of(alloc: Global, path: &[u8]) -> Result<Items<Record>, NoMemory> {
    let mut records = Items::new(alloc);
    records.push(Record {
        parent: 0,
        name: Text::from_bytes(alloc, path)?,
        index: None,
        class: None,
        origin: Origin::Built,
    })?;
    Ok(records)
}

/// The module of that path, as it is declared.
pub fn module_of(alloc: Global, path: &[u8]) -> Result<Module, NoMemory> {
    Ok(Module {
        created: 0,
        path: Text::from_bytes(alloc, path)?,
    })
}

/// What comes of the inside of the module of that path, or its first fault with the path that it is
/// told with.
pub fn placed_at(
    alloc: Global,
    setting: &ModelSetting<'_>,
    path: &[u8],
) -> Result<Result<Found, (Text, ModelFault)>, NoMemory> {
    let mut table = empty_table(alloc, setting);
    let site = module_of(alloc, path)?;
    let around = around_of(alloc, &site)?;
    placed(alloc, setting, &mut table, &site, around.as_ref())
}
