//! Which connection of a compound module has a fault: the first with which the fault comes.

use crate::modules::placed_at;
use model_data::model::Model;
use model_settings::setting::ModelSetting;
use model_settings::tables::ModelTables;
use ned_inheritance::table::{BuildError, flat_types};
use ned_scopes::copies::copy_type;
use ned_trees::declarations::TypeDeclaration;
use ned_types::table::TypeTable;
use sim_values::NoMemory;
use sim_values::model_fault::ModelFault;
use sqlite_items::Items;
use std::alloc::Global;

/// A compound module whose inside has a fault that is told with its own path.
#[derive(Clone, Copy)]
pub struct Faulted<'a> {
    pub model: &'a Model,
    /// All types that the NED files declare, with names resolved.
    pub types: &'a [TypeDeclaration],
    /// The module's type and all that it extends, the root first.
    pub order: &'a [&'a TypeDeclaration],
    pub path: &'a [u8],
    pub fault: ModelFault,
}

/// How many items of connections these types have.
fn items_in(order: &[&TypeDeclaration]) -> usize {
    let mut count = 0usize;
    for it in order {
        count = count.saturating_add(it.connections.items.len());
    }
    count
}

/// How many of its items a type keeps, where these types together keep the first so many; one that
/// is none of them keeps all.
fn kept_of(order: &[&TypeDeclaration], it: &TypeDeclaration, count: usize) -> usize {
    let mut left = count;
    for of in order {
        if of.name.is(it.name.as_bytes()) {
            return left;
        }
        left = left.saturating_sub(of.connections.items.len());
    }
    usize::MAX
}

/// Takes all items of connections away but the first so many.
fn keep_items(of: &mut TypeDeclaration, count: usize) {
    for _gone in count..of.connections.items.len() {
        let _item = of.connections.items.pop();
    }
}

/// All types, of which those of the module keep together the first so many items.
fn shortened(
    alloc: Global,
    all: Faulted<'_>,
    count: usize,
) -> Result<Items<TypeDeclaration>, NoMemory> {
    let mut types = Items::new(alloc);
    for it in all.types {
        let mut copy = copy_type(alloc, it)?;
        keep_items(&mut copy, kept_of(all.order, it, count));
        types.push(copy)?;
    }
    Ok(types)
}

/// The table of these types, where they make one.
fn table_of(alloc: Global, types: Items<TypeDeclaration>) -> Result<Option<TypeTable>, NoMemory> {
    match flat_types(alloc, types) {
        Ok(flat) => Ok(Some(TypeTable::of(alloc, flat)?)),
        Err(BuildError::NoMemory(error)) => Err(error),
        Err(BuildError::Fault(_, _)) => Ok(None),
    }
}

/// Whether the inside of the module of that path has the fault, in this model.
fn has_fault(
    alloc: Global,
    model: &Model,
    path: &[u8],
    fault: ModelFault,
) -> Result<bool, NoMemory> {
    let tables = ModelTables::new(alloc, model)?;
    let setting = ModelSetting::new(model, &tables);
    match placed_at(alloc, &setting, path)? {
        Ok(_) => Ok(false),
        Err((told, found)) => Ok(told.is(path) && found == fault),
    }
}

/// Whether it has the fault with the first so many items alone.
fn has_with(alloc: Global, all: Faulted<'_>, count: usize) -> Result<bool, NoMemory> {
    let types = shortened(alloc, all, count)?;
    let Some(table) = table_of(alloc, types)? else {
        return Ok(false);
    };
    let mut model = all.model.copy(alloc)?;
    model.types = table;
    has_fault(alloc, &model, all.path, all.fault)
}

/// The number of the item of connections with which the fault comes, counted from 0 in the flat
/// type; none where it comes without any. The items are halved again and again, so it takes as many
/// insides as their number has binary digits.
pub fn item_at_fault(alloc: Global, all: Faulted<'_>) -> Result<Option<usize>, NoMemory> {
    let mut without = 0usize;
    let mut with = items_in(all.order);
    if has_with(alloc, all, without)? {
        return Ok(None);
    }
    for _half in 0..64 {
        let between = with.saturating_sub(without) / 2;
        if between == 0 {
            break;
        }
        let middle = without.saturating_add(between);
        if has_with(alloc, all, middle)? {
            with = middle;
        } else {
            without = middle;
        }
    }
    if has_with(alloc, all, with)? {
        return Ok(Some(without));
    }
    Ok(None)
}
