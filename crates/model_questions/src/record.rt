//! Records of the modules that were created, and their paths.

ghost use Rattle.std.specs.Prelude.{◌≡◌, ◌≤◌, ◌∷◌, IfOk, OnOk, ◌++◌, length, take};
ghost use Rattle.std.specs.Option.{option_copied};
ghost use Rattle.model_questions.specs.Records.{record_at, lineage_up, own_name, path_along};
ghost use Rattle.model_questions.specs.Records.{path_of, path_around, path_under, place_of};
ghost use Rattle.model_questions.specs.Records.{index_of};

use itoa::Buffer;
use module_api::reply::Plan;
use sim_values::text::Text;
use std::alloc::{AllocError, Global};

/// Where a module comes from.
#[derive(Drop)]
pub enum Origin {
    /// It was built with the module around it, or is the network.
    Built,
    /// A module created it while a run went on, as planned.
    Created(Plan),
}

impl Origin {
    /// An equal origin.
    pub fn copy(&self, alloc: Global) -> Result<Origin, AllocError>
        ensures { IfOk result (λ copy. copy ≡ self.now) }
    {
        match self {
            Origin::Built => Ok(Origin::Built),
            Origin::Created(plan) => Ok(Origin::Created(plan.copy(alloc)?)),
        }
    }
}

/// A module that was created. Its id is its place among the records, counted from 1.
#[derive(Drop)]
pub struct Record {
    /// The id of the enclosing module, 0 for the network.
    pub parent: u32,
    pub name: Text,
    /// Its place in its vector, none where it is no vector's element.
    pub index: Option<u32>,
    /// The class of a simple module, none for a compound module.
    pub class: Option<Text>,
    pub origin: Origin,
}

/// How deep modules are nested at most, the network included.
pub const MAX_NESTING: u32 = 32;

/// The record of that id.
pub fn record_at(records: &[Record], id: u32) -> Option<&Record>
    ensures { option_copied result ≡ record_at records.now id }
{
    if id == 0 {
        return None;
    }
    records.get(id as usize - 1)
}

/// The place of the module of that id in its vector.
pub fn index_of(records: &[Record], id: u32) -> Option<u32>
    ensures { result ≡ index_of (record_at records.now id) }
{
    match record_at(records, id) {
        Some(record) => record.index,
        None => None,
    }
}

/// How many records the line of the module of that id has, of so many at most.
fn line_to(depth: u32, records: &[Record], id: u32) -> u32
    ensures length { result ≡ length (lineage_up depth records.now id) }
    ensures few { result ≤ depth }
{
    if depth > 0 {
        if let Some(created) = record_at(records, id) {
            return line_to(depth - 1, records, created.parent) + 1;
        }
    }
    0
}

#[tactic(auto, unfolding(crate::specs::Records::place_of))]
/// How many records the place of the module of that id has: its own, and those of the modules
/// around it.
pub fn levels_of(records: &[Record], id: u32) -> u32
    ensures { result ≡ length (place_of records.now id) }
{
    line_to(MAX_NESTING, records, id)
}

/// Adds a module's name, with its index in brackets where it has one.
fn push_own_name(path: &mut Vec<u8>, name: &[u8], index: Option<u32>) -> Result<(), AllocError>
    ensures { OnOk result (path.new.items ≡ path.old.items ++ own_name name.now index) }
{
    path.extend_from_slice(name)?;
    let Some(index) = index else {
        return Ok(());
    };
    path.extend_from_slice(b"[")?;
    let mut buffer = Buffer::new();
    path.extend_from_slice(buffer.format(index).as_bytes())?;
    path.extend_from_slice(b"]")
}

/// A module's name among its siblings, with its index in brackets where it has one.
pub fn own_name(alloc: Global, name: &[u8], index: Option<u32>) -> Result<Text, AllocError>
    ensures { IfOk result (λ own. own ≡ own_name name.now index) }
{
    let mut own = Vec::new(alloc);
    push_own_name(&mut own, name, index)?;
    Ok(Text::from_vec(own))
}

/// Adds the path of the module of that record, with the names of at most so many modules around it.
fn push_path(
    path: &mut Vec<u8>,
    depth: u32,
    records: &[Record],
    created: &Record,
) -> Result<(), AllocError>
    ensures { OnOk result (path.new.items ≡ path.old.items
        ++ path_along (created.now ∷ lineage_up depth records.now created.now.parent)) }
{
    if depth == 0 {
        return push_own_name(path, created.name.as_bytes(), created.index);
    }
    let Some(outer) = record_at(records, created.parent) else {
        return push_own_name(path, created.name.as_bytes(), created.index);
    };
    push_path(path, depth - 1, records, outer)?;
    path.push(b'.')?;
    push_own_name(path, created.name.as_bytes(), created.index)
}

#[tactic(auto, unfolding(crate::specs::Records::place_of))]
/// The full path of the module of that id, as `N.h[2].b`.
pub fn path_of(alloc: Global, records: &[Record], id: u32) -> Result<Text, AllocError>
    ensures { IfOk result (λ path. path ≡ path_of records.now id) }
{
    let mut path = Vec::new(alloc);
    if let Some(created) = record_at(records, id) {
        push_path(&mut path, MAX_NESTING - 1, records, created)?;
    }
    Ok(Text::from_vec(path))
}

/// The full path of a module. It begins with that of the module around it.
#[derive(Drop)]
pub struct ModulePath {
    /// The full path.
    whole: Text,
    /// How long the path of the module around it is, 0 where there is none.
    around: usize,
    ghost within: { around ≤ length whole },
}

impl ModulePath {
    /// The full path.
    pub fn whole(&self) -> &[u8]
        ensures { result.now ≡ self.now.whole }
    {
        self.whole.as_bytes()
    }

    /// The path of the module around it, empty where there is none.
    pub fn around(&self) -> &[u8]
        ensures { result.now ≡ take self.now.around self.now.whole }
    {
        &self.whole.as_bytes()[..self.around]
    }
}

#[tactic(auto, unfolding(crate::specs::Records::place_of))]
/// The full path of the module of that id, with that of the module around it.
pub fn module_path(alloc: Global, records: &[Record], id: u32) -> Result<ModulePath, AllocError>
    ensures whole { IfOk result (λ path. path.whole ≡ path_of records.now id) }
    ensures around { IfOk result
        (λ path. take path.around path.whole ≡ path_around records.now id) }
{
    let mut whole = Vec::new(alloc);
    let Some(created) = record_at(records, id) else {
        return Ok(ModulePath {
            whole: Text::from_vec(whole),
            around: 0,
        });
    };
    let Some(outer) = record_at(records, created.parent) else {
        push_own_name(&mut whole, created.name.as_bytes(), created.index)?;
        return Ok(ModulePath {
            whole: Text::from_vec(whole),
            around: 0,
        });
    };
    push_path(&mut whole, MAX_NESTING - 2, records, outer)?;
    let around = whole.len();
    whole.push(b'.')?;
    push_own_name(&mut whole, created.name.as_bytes(), created.index)?;
    Ok(ModulePath {
        whole: Text::from_vec(whole),
        around,
    })
}

/// The path of a submodule of that name in the module of that path.
pub fn path_under(alloc: Global, path: &[u8], name: &[u8]) -> Result<Text, AllocError>
    ensures { IfOk result (λ found. found ≡ path_under path.now name.now) }
{
    let mut under = Vec::from_slice(alloc, path)?;
    under.push(b'.')?;
    under.extend_from_slice(name)?;
    Ok(Text::from_vec(under))
}

/// The path of a submodule of that name and index in the module of that id.
pub fn submodule_path(
    alloc: Global,
    records: &[Record],
    parent: u32,
    name: &[u8],
    index: Option<u32>,
) -> Result<Text, AllocError>
    ensures { IfOk result
        (λ found. found ≡ path_under (path_of records.now parent) (own_name name.now index)) }
{
    let mut own = Vec::new(alloc);
    push_own_name(&mut own, name, index)?;
    let path = path_of(alloc, records, parent)?;
    path_under(alloc, path.as_bytes(), own.as_slice())
}
