//! Changes of files.

ghost use Rattle.std.specs.Prelude.{◌≡◌, ◌<◌, ◌≤◌, ◌∷◌, ◌++◌, length, drop, remove, slice_set};
ghost use Rattle.std.specs.Prelude.{take, IfOk, IfErr};
ghost use Rattle.ned_scopes.specs.Scopes.{types_of};
ghost use Rattle.ned_syntax.specs.NedText.{IsNedFile};
ghost use Rattle.ned_connections.specs.ConnectionText.{IsConnectionText};
ghost use Rattle.file_edits.specs.Items.{files_with};
ghost use Rattle.file_edits.specs.Changes.{is_large, AnswersChange, AreTypesOf, RefusesItem};
ghost use Rattle.file_edits.specs.Changes.{RefusesText, RefusesTypes};
ghost use Rattle.file_edits.specs.Changes as change;

use crate::error::FileError;
use crate::items::{files_with, items_of};
use crate::tables::table_of;
use ned_connections::parse::parse_connection;
use ned_files::shared::{SharedFile, copy_files};
use ned_inheritance::table::BuildError;
use ned_leaves::error::NedError;
use ned_scopes::connections::add_items;
use ned_syntax::parse::parse_ned;
use ned_trees::connections::ConnectionItem;
use ned_trees::declarations::NedFile;
use ned_types::table::TypeTable;
use sim_values::text::MAX_LENGTH;
use sqlite_items::Items;
use std::alloc::{AllocError, Global};

/// Files, and the table of their types.
#[derive(Drop)]
pub struct TypedFiles {
    pub files: Items<SharedFile>,
    pub types: TypeTable,
}

/// Whether a text is longer than what is read.
fn is_large(bytes: &[u8]) -> bool
    ensures { result ≡ is_large bytes.now }
{
    bytes.len() > MAX_LENGTH
}

/// What a NED text declares.
fn declared_by(alloc: Global, bytes: &[u8]) -> Result<NedFile, FileError>
    ensures accepted { IfOk result (λ file. IsNedFile bytes.now file) }
    ensures refused { IfErr result (λ e. RefusesText bytes.now e) }
{
    match parse_ned(alloc, bytes) {
        Ok(file) => Ok(file),
        Err(NedError::NedSyntax(line)) => Err(FileError::NedSyntax(line)),
        Err(NedError::TooLarge) => Err(FileError::TooLarge),
        Err(NedError::NoMemory(error)) => Err(FileError::NoMemory(error)),
    }
}

/// The files, where this one stands instead of the one of that number.
fn replaced(
    alloc: Global,
    files: &[SharedFile],
    number: usize,
    file: NedFile,
) -> Result<Items<SharedFile>, AllocError>
    requires { number < length files.now }
    ensures { IfOk result (λ changed. changed ≡ slice_set files.now number file) }
{
    let shared = SharedFile::new(alloc, file)?;
    let mut changed = copy_files(alloc, files)?;
    changed.set(number, shared);
    Ok(changed)
}

/// The files with the table of their types, or why there is none.
fn typed(alloc: Global, files: Items<SharedFile>) -> Result<TypedFiles, FileError>
    ensures accepted { IfOk result (λ made. (made.files ≡ files) × AreTypesOf files made.types) }
    ensures refused { IfErr result (λ e. RefusesTypes files e) }
{
    match table_of(alloc, files.as_slice()) {
        Ok(types) => Ok(TypedFiles { files, types }),
        Err(BuildError::Fault(fault, _)) => Err(FileError::Types(fault)),
        Err(BuildError::NoMemory(error)) => Err(FileError::NoMemory(error)),
    }
}

/// The files with this one, and the table of their types, or why there is none.
fn typed_with(
    alloc: Global,
    files: &[SharedFile],
    number: usize,
    file: NedFile,
) -> Result<TypedFiles, FileError>
    requires { number < length files.now }
    ensures accepted { let changed = slice_set files.now number file in
        IfOk result (λ made. (made.files ≡ changed) × AreTypesOf changed made.types) }
    ensures refused { IfErr result (λ e. RefusesTypes (slice_set files.now number file) e) }
{
    match replaced(alloc, files, number, file) {
        Ok(changed) => typed(alloc, changed),
        Err(error) => Err(FileError::NoMemory(error.into())),
    }
}

/// The files, where the one of that number, counted from 0, is what this text declares, and the
/// table of their types; or why there is none. The files that were there stay as they are.
pub fn with_file(
    alloc: Global,
    files: &[SharedFile],
    number: usize,
    bytes: &[u8],
) -> Result<TypedFiles, FileError>
    ensures { AnswersChange (change.Replaced number bytes.now) files.now result }
{
    if is_large(bytes) {
        return Err(FileError::TooLarge);
    }
    if number >= files.len() {
        return Err(FileError::NoSuchFile);
    }
    match declared_by(alloc, bytes) {
        Ok(file) => typed_with(alloc, files, number, file),
        Err(error) => Err(error),
    }
}

// ---- connections

/// What a text says that is an item of connections.
fn item_of(alloc: Global, bytes: &[u8]) -> Result<ConnectionItem, FileError>
    ensures accepted { IfOk result (λ item. IsConnectionText bytes.now item) }
    ensures refused { IfErr result (λ e. RefusesItem bytes.now e) }
{
    match parse_connection(alloc, bytes) {
        Ok(item) => Ok(item),
        Err(NedError::NedSyntax(line)) => Err(FileError::NedSyntax(line)),
        Err(NedError::TooLarge) => Err(FileError::TooLarge),
        Err(NedError::NoMemory(error)) => Err(FileError::NoMemory(error)),
    }
}

/// Copies of the items, with this one at that place.
fn inserted(
    alloc: Global,
    items: &[ConnectionItem],
    place: usize,
    item: ConnectionItem,
) -> Result<Items<ConnectionItem>, AllocError>
    requires { place ≤ length items.now }
    ensures { IfOk result (λ changed. changed
        ≡ take place items.now ++ item ∷ drop place items.now) }
{
    let (before, behind) = items.split_at(place);
    let mut changed = Items::new(alloc);
    add_items(alloc, &mut changed, before)?;
    changed.push(item)?;
    add_items(alloc, &mut changed, behind)?;
    Ok(changed)
}

/// Copies of the items, without the one at that place.
fn removed(
    alloc: Global,
    items: &[ConnectionItem],
    place: usize,
) -> Result<Items<ConnectionItem>, AllocError>
    requires { place < length items.now }
    ensures { IfOk result (λ changed. changed ≡ remove items.now place) }
{
    let mut changed = Items::new(alloc);
    add_items(alloc, &mut changed, items)?;
    let _gone = changed.remove(place);
    Ok(changed)
}

/// The files in which the type of that name has these items, where there are some, with the table
/// of their types.
fn typed_by(
    alloc: Global,
    files: &[SharedFile],
    name: &[u8],
    items: Items<ConnectionItem>,
) -> Result<TypedFiles, FileError>
    ensures accepted { let changed = files_with name.now items files.now in
        IfOk result (λ made. (made.files ≡ changed) × AreTypesOf changed made.types) }
    ensures refused { IfErr result (λ e. RefusesTypes (files_with name.now items files.now) e) }
{
    match files_with(alloc, files, name, items) {
        Ok(changed) => typed(alloc, changed),
        Err(error) => Err(FileError::NoMemory(error.into())),
    }
}

/// The same with this item at that place.
fn typed_inserted(
    alloc: Global,
    files: &[SharedFile],
    name: &[u8],
    items: &[ConnectionItem],
    place: usize,
    item: ConnectionItem,
) -> Result<TypedFiles, FileError>
    requires { place ≤ length items.now }
    ensures accepted { let more = take place items.now ++ item ∷ drop place items.now in
        let changed = files_with name.now more files.now in
        IfOk result (λ made. (made.files ≡ changed) × AreTypesOf changed made.types) }
    ensures refused { let more = take place items.now ++ item ∷ drop place items.now in
        IfErr result (λ e. RefusesTypes (files_with name.now more files.now) e) }
{
    match inserted(alloc, items, place, item) {
        Ok(more) => typed_by(alloc, files, name, more),
        Err(error) => Err(FileError::NoMemory(error.into())),
    }
}

/// The same without the item at that place.
fn typed_removed(
    alloc: Global,
    files: &[SharedFile],
    name: &[u8],
    items: &[ConnectionItem],
    place: usize,
) -> Result<TypedFiles, FileError>
    requires { place < length items.now }
    ensures accepted { let changed = files_with name.now (remove items.now place) files.now in
        IfOk result (λ made. (made.files ≡ changed) × AreTypesOf changed made.types) }
    ensures refused { let less = remove items.now place in
        IfErr result (λ e. RefusesTypes (files_with name.now less files.now) e) }
{
    match removed(alloc, items, place) {
        Ok(less) => typed_by(alloc, files, name, less),
        Err(error) => Err(FileError::NoMemory(error.into())),
    }
}

/// The files, where the item of connections that this text is stands at that place of the
/// connections of the module or network of that name, and the table of their types; or why there is
/// none. A place numbers the connections and groups of connections of the type's own section from
/// 0. The files that were there stay as they are.
pub fn with_connection(
    alloc: Global,
    files: &[SharedFile],
    name: &[u8],
    place: usize,
    bytes: &[u8],
) -> Result<TypedFiles, FileError>
    ensures { AnswersChange (change.Inserted name.now place bytes.now) files.now result }
{
    if is_large(bytes) {
        return Err(FileError::TooLarge);
    }
    let Some(items) = items_of(files, name) else {
        return Err(FileError::NoSuchType);
    };
    if place > items.len() {
        return Err(FileError::NoSuchConnection);
    }
    match item_of(alloc, bytes) {
        Ok(item) => typed_inserted(alloc, files, name, items, place, item),
        Err(error) => Err(error),
    }
}

/// The files, where the item at that place of the connections of the module or network of that name
/// is taken out, and the table of their types; or why there is none. The files that were there stay
/// as they are.
pub fn without_connection(
    alloc: Global,
    files: &[SharedFile],
    name: &[u8],
    place: usize,
) -> Result<TypedFiles, FileError>
    ensures { AnswersChange (change.Removed name.now place) files.now result }
{
    let Some(items) = items_of(files, name) else {
        return Err(FileError::NoSuchType);
    };
    if place >= items.len() {
        return Err(FileError::NoSuchConnection);
    }
    typed_removed(alloc, files, name, items, place)
}
