//! NED files below folders.

ghost use Rattle.std.specs.Prelude.{IfErr, codes};
ghost use Rattle.nedrun_exit.specs.Stops.{IsFailed};
ghost use Rattle.nedrun_files.specs.Stops.{IsUnlisted};

use nedrun_exit::stops::ExitReason;
use std::alloc::{AllocError, Global};
use std::fs::DirEntry;
use std::rt::Files;
use std::{fs, io};

/// Of how many NED files the paths are found at most: one more than there may be, so that there are
/// too many is still seen.
const MOST: usize = 257;

/// What was found below folders.
#[derive(Drop)]
struct Search {
    /// The folders that were not looked at yet.
    folders: Vec<String>,
    /// The paths of NED files.
    found: Vec<String>,
}

/// What ends the program where a folder can't be read.
fn unlisted<R: AllocGlobal>(rt: &R, path: &str, error: io::Error) -> ExitReason
    ensures { IsFailed (codes "this folder can't be read") path.now error result }
{
    ExitReason::failed(rt.alloc(), "this folder can't be read", path, error)
}

/// The folders that a word names, with `:` or `;` between them, the last one first. An empty name
/// is the folder that the program runs in.
fn named_folders(alloc: Global, word: &str) -> Result<Vec<String>, AllocError> {
    let mut folders = Vec::new(alloc);
    for name in word.split([':', ';'].as_slice()) {
        let name = if name.is_empty() { "." } else { name };
        folders.push(String::from_str(alloc, name)?)?;
    }
    folders.reverse();
    Ok(folders)
}

impl Search {
    /// Takes up an entry of a folder: a folder is looked at later, and a NED file is found. Names
    /// that begin with a dot are left out.
    fn take<R: Files>(&mut self, alloc: Global, entry: &DirEntry<R, Global>) -> io::Result<()> {
        let name = entry.file_name();
        if name.starts_with('.') {
            return Ok(());
        }
        let path = String::from_str(alloc, entry.path().as_str())?;
        if entry.file_type()?.is_dir() {
            self.folders.push(path)?;
        } else if name.ends_with(".ned") {
            self.found.push(path)?;
        }
        Ok(())
    }

    /// Takes up each entry of the folder of that path.
    fn look<R: Files + AllocGlobal + Clone + Drop>(
        &mut self,
        rt: &R,
        path: &str,
    ) -> io::Result<()> {
        for entry in fs::read_dir(rt, path)? {
            self.take(rt.alloc(), &entry?)?;
        }
        Ok(())
    }
}

/// The paths of all NED files below folders, which a word names.
fn found_below<R: Files + AllocGlobal + Clone + Drop>(
    rt: &R,
    word: &str,
) -> Result<Vec<String>, ExitReason>
    ensures { IfErr result IsUnlisted }
{
    let mut search = Search {
        folders: named_folders(rt.alloc(), word)?,
        found: Vec::new(rt.alloc()),
    };
    for _ in 0..u64::MAX {
        let Some(folder) = search.folders.pop() else {
            break;
        };
        if search.found.len() >= MOST {
            break;
        }
        if let Err(error) = search.look(rt, folder.as_str()) {
            return Err(unlisted(rt, folder.as_str(), error));
        }
    }
    Ok(search.found)
}

/// Adds paths after others, in the order of their names.
fn add_in_order(paths: &mut Vec<String>, found: Vec<String>) -> Result<(), AllocError> {
    let mut found = found;
    found.sort()?;
    paths.append(&mut found)?;
    Ok(())
}

/// Adds the paths of all NED files below folders, which a word names, after these paths: in the
/// order of their names.
pub fn add_ned_paths<R: Files + AllocGlobal + Clone + Drop>(
    rt: &R,
    word: &str,
    paths: &mut Vec<String>,
) -> Result<(), ExitReason>
    ensures { IfErr result IsUnlisted }
{
    let found = found_below(rt, word)?;
    add_in_order(paths, found)?;
    Ok(())
}
