//! Where messages from outside arrive.

use crate::creators::may_create;
use crate::modules::module_of;
use explain_types::explanation::Explanation;
use explain_types::names::shown;
use explain_types::sources::Sources;
use inside_keys::found::Found;
use inside_keys::key::{Key, What};
use inside_run::scene::ModuleSource;
use inside_run::values::{empty_table, value_of};
use model_data::model::Model;
use model_questions::record::{MAX_NESTING, Origin, Record, path_of};
use model_reading::begin::model_of;
use model_settings::setting::ModelSetting;
use model_settings::standings::{index_in, name_in};
use model_settings::tables::ModelTables;
use ned_trees::declarations::{TypeDeclaration, TypeKind};
use sim_values::NoMemory;
use sim_values::model_fault::ModelFault;
use sim_values::text::Text;
use sim_values::value::Value;
use sqlite_items::Items;
use std::alloc::Global;
use std::marker;

/// What stands at a path.
#[derive(Clone, Copy, PartialEq, Eq)]
enum PathEnd {
    Simple,
    Compound,
    Nothing,
    /// What is around it has a fault, or modules may be created there.
    Unknown,
}

/// Whether this is how a module is called among its siblings: its name, with its index in brackets
/// where it has one, as `t` or `t[2]`.
fn is_own_name(alloc: Global, own: &[u8]) -> Result<bool, NoMemory> {
    let mut records = Items::new(alloc);
    records.push(Record {
        parent: 0,
        name: Text::from_bytes(alloc, name_in(own))?,
        index: index_in(own),
        class: None,
        origin: Origin::Built,
    })?;
    Ok(path_of(alloc, records.as_slice(), 1)?.is(own))
}

/// The first name of a path, and what is after the dot that ends it, where one does.
fn split_name(path: &str) -> (&str, Option<&str>) {
    match path.split_once('.') {
        Some((name, rest)) => (name, Some(rest)),
        None => (path, None),
    }
}

/// Whether a path is one that a module can have.
fn is_path(alloc: Global, path: &str) -> Result<bool, NoMemory> {
    let mut left = Some(path);
    for _level in 0..MAX_NESTING {
        let Some(names) = left else {
            break;
        };
        let (own, rest) = split_name(names);
        if !is_own_name(alloc, own.as_bytes())? {
            return Ok(false);
        }
        left = rest;
    }
    Ok(left.is_none())
}

/// Whether a path begins with the network's name.
fn is_in_network(model: &Model, path: &str) -> bool {
    let (first, _rest) = split_name(path);
    match model.network() {
        Some(network) => network.name.is(first.as_bytes()),
        None => false,
    }
}

/// What a module of that type is.
fn standing_of(types: &[TypeDeclaration], number: i64) -> PathEnd {
    match usize::try_from(number) {
        Ok(number) => match types.get(number) {
            Some(declared) => match declared.kind {
                TypeKind::Simple => PathEnd::Simple,
                TypeKind::Module | TypeKind::Network => PathEnd::Compound,
                _ => PathEnd::Nothing,
            },
            None => PathEnd::Nothing,
        },
        Err(_) => PathEnd::Nothing,
    }
}

/// Whether the inside of the module of that path has a fault; none where there is no such module.
fn has_faulty_inside(
    alloc: Global,
    setting: &ModelSetting<'_>,
    path: &[u8],
) -> Result<Option<bool>, NoMemory> {
    let mut table = empty_table(alloc, setting);
    let site = module_of(alloc, path)?;
    let key = Key {
        site,
        what: What::Inside,
    };
    Ok(match value_of(alloc, setting, &mut table, key)? {
        Ok(_) => Some(false),
        Err(ModelFault::UnknownType) => None,
        Err(_) => Some(true),
    })
}

/// What is known of a path at which no module is found: where the inside of a module around it has
/// a fault it is not known who is there.
fn standing_around(
    alloc: Global,
    setting: &ModelSetting<'_>,
    path: &[u8],
) -> Result<PathEnd, NoMemory> {
    for (at, byte) in path.iter().enumerate() {
        if *byte == b'.' {
            match has_faulty_inside(alloc, setting, &path[..at])? {
                Some(true) => return Ok(PathEnd::Unknown),
                Some(false) => {}
                None => break,
            }
        }
    }
    Ok(PathEnd::Nothing)
}

/// What stands at a path. Where modules may be created in the network it is not known.
fn standing_at(
    alloc: Global,
    setting: &ModelSetting<'_>,
    path: &str,
    creates: bool,
) -> Result<PathEnd, NoMemory> {
    if !is_in_network(setting.model(), path) || !is_path(alloc, path)? {
        return Ok(PathEnd::Nothing);
    }
    if creates {
        return Ok(PathEnd::Unknown);
    }
    match typed_at(alloc, setting, path)? {
        PathEnd::Nothing => standing_around(alloc, setting, path.as_bytes()),
        standing => Ok(standing),
    }
}

/// What the type of the module of a path says that stands there. No more of the model is looked at
/// than that rests on.
fn typed_at(alloc: Global, setting: &ModelSetting<'_>, path: &str) -> Result<PathEnd, NoMemory> {
    let mut table = empty_table(alloc, setting);
    let site = module_of(alloc, path.as_bytes())?;
    let key = Key {
        site,
        what: What::Type,
    };
    match value_of(alloc, setting, &mut table, key)? {
        Ok(place) => match table.value(place) {
            Some(Found::Value(Value::Whole(number))) => Ok(standing_of(setting.types(), *number)),
            _ => Ok(PathEnd::Nothing),
        },
        Err(ModelFault::UnknownType) => Ok(PathEnd::Nothing),
        Err(_) => Ok(PathEnd::Unknown),
    }
}

/// Says that a message to a path is discarded, where it is.
fn tell_standing(told: &mut Explanation, path: &[u8], standing: PathEnd) {
    match standing {
        PathEnd::Simple | PathEnd::Unknown => return,
        PathEnd::Nothing => {
            told.say("no module has the path ");
            told.say_name(path);
        }
        PathEnd::Compound => {
            told.say_name(path);
            told.say(" is a compound module, and messages arrive at simple ones");
        }
    }
    told.say(": as the model is now, the message is discarded");
}

/// A model, with what is looked up of it.
struct TabledModel {
    model: Model,
    tables: ModelTables,
    /// Modules may be created in its network.
    creates: bool,
}

// Written out, so that a crate which drops one need not prove what that does.
impl Drop for TabledModel {
    fn drop(self) {
        let TabledModel {
            model: _,
            tables: _,
            creates: _,
        } = self;
    }
}

// Contracts see the model.
impl marker::Model for TabledModel {
    ghost use Rattle.model_data.specs.declared.model.Model.{Model};
    ghost use Rattle.model_data.specs.contracts.model.Model.{the_row};
    ghost use Rattle.model_settings.specs.Tables.{AreTablesOf};

    ghost Value = { Model };

    ghost coded = { the_row.coded };

    ghost view = { λ a. a.model };

    ghost invariant = { λ a. AreTablesOf a.model a.tables };
}

impl TabledModel {
    /// All that is looked up of a model.
    fn new(alloc: Global, model: Model) -> Result<TabledModel, NoMemory> {
        let creates = may_create(alloc, &model)?;
        let tables = ModelTables::new(alloc, &model)?;
        Ok(TabledModel {
            model,
            tables,
            creates,
        })
    }

    /// What the values of the model rest on.
    fn setting(&self) -> ModelSetting<'_> {
        ModelSetting::new(&self.model, &self.tables)
    }
}

/// The model in which messages arrive. Files that make no model have none.
#[derive(Drop)]
pub struct MessageModel {
    model: Option<TabledModel>,
}

impl MessageModel {
    /// The model of these files.
    pub fn new(alloc: Global, sources: &Sources<'_>) -> Result<MessageModel, NoMemory> {
        let config = sources.config.as_bytes();
        let model = match model_of(alloc, sources.texts, sources.ini, config) {
            Ok(model) => Some(TabledModel::new(alloc, model)?),
            Err(_) => None,
        };
        Ok(MessageModel { model })
    }

    /// What is said of a message to that path: that it is discarded, where no simple module stands
    /// there. Empty where one does, or may be created, or the files make no model.
    pub fn discarded_line(&self, alloc: Global, path: &[u8]) -> Result<Text, NoMemory> {
        let mut told = Explanation::new(alloc);
        if let Some(model) = &self.model {
            let standing = standing_at(alloc, &model.setting(), shown(path), model.creates)?;
            tell_standing(&mut told, path, standing);
        }
        told.said()
    }
}
