//! Texts of files.

ghost use Rattle.std.specs.Prelude.{◌<◌, IfErr, codes, length};
ghost use Rattle.nedrun_exit.specs.Stops.{IsFailed};
ghost use Rattle.nedrun_files.specs.Stops.{IsOneUnreadable, IsUnreadable};

use input_texts::folder;
use input_texts::folder::{Folder, FolderFault};
use input_texts::reading::ReadFault;
use input_texts::system::SystemFiles;
use ned_trees::texts::NedTexts;
use nedrun_exit::stops::ExitReason;
use std::io;
use std::rt::Files;

/// What ends the program where a file can't be read.
fn unread<R: AllocGlobal>(rt: &R, path: &str, error: io::Error) -> ExitReason
    ensures { IsFailed (codes "this file can't be read") path.now error result }
{
    ExitReason::failed(rt.alloc(), "this file can't be read", path, error)
}

/// The text of a file: all its bytes, or one more than a text may have.
pub fn read_text<R: Files + AllocGlobal>(rt: &R, path: &str) -> Result<Vec<u8>, ExitReason>
    ensures { IfErr result (IsUnreadable path.now) }
{
    match SystemFiles::new(rt).text_of(rt.alloc(), path) {
        Ok(text) => Ok(text),
        Err(ReadFault::Failed(error)) => Err(unread(rt, path, error)),
        Err(ReadFault::NoMemory(error)) => Err(ExitReason::NoMemory(error)),
    }
}

/// What ends the program where the file of the path in that place can't be read.
#[tactic(auto, using(crate::proofs::Reading::one_unreadable))]
fn unread_at<R: AllocGlobal>(
    rt: &R,
    paths: &[String],
    number: usize,
    error: io::Error,
) -> ExitReason
    requires { number < length paths.now }
    ensures { IsOneUnreadable paths.now result }
{
    let path = &paths[number];
    unread(rt, path.as_str(), error)
}

/// The texts of the files, in order.
pub fn read_texts<R: Files + AllocGlobal>(rt: &R, paths: &[String]) -> Result<NedTexts, ExitReason>
    ensures { IfErr result (IsOneUnreadable paths.now) }
{
    match folder::read_texts(rt.alloc(), &SystemFiles::new(rt), paths) {
        Ok(texts) => Ok(texts),
        Err(FolderFault::Failed(number, error)) => Err(unread_at(rt, paths, number, error)),
        Err(FolderFault::NoMemory(error)) => Err(ExitReason::NoMemory(error)),
    }
}
