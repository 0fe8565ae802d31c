//! The NED files of a run, read once more.

use explain_types::sources::Sources;
use ned_leaves::error::NedError;
use ned_scopes::scopes::types_of;
use ned_syntax::parse::parse_ned;
use ned_trees::declarations::{NedFile, TypeDeclaration};
use sim_values::NoMemory;
use sim_values::text::Text;
use sqlite_items::Items;
use std::alloc::Global;

/// What a text declares; nothing where it is no NED.
fn file_of(alloc: Global, text: &Text) -> Result<NedFile, NoMemory> {
    match parse_ned(alloc, text.as_bytes()) {
        Ok(file) => Ok(file),
        Err(NedError::NoMemory(error)) => Err(error),
        Err(_) => Ok(NedFile {
            types: Items::new(alloc),
        }),
    }
}

/// What each text declares.
fn files_of(alloc: Global, texts: &[Text]) -> Result<Vec<NedFile>, NoMemory> {
    let mut files = Vec::new(alloc);
    for text in texts {
        files.push(file_of(alloc, text)?)?;
    }
    Ok(files)
}

/// The types of all files, in order, each before those within it, with names resolved.
pub fn read_types(
    alloc: Global,
    sources: &Sources<'_>,
) -> Result<Items<TypeDeclaration>, NoMemory> {
    let files = files_of(alloc, sources.texts.as_slice())?;
    Ok(types_of(alloc, files)?)
}
