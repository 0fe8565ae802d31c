//! The types of files.

ghost use Rattle.std.specs.Prelude.{◌≡◌, IfOk, IfErr};
ghost use Rattle.ned_scopes.specs.Scopes.{types_of};
ghost use Rattle.ned_inheritance.specs.Building.{Builds};

use crate::copies::unshared;
use ned_files::shared::SharedFile;
use ned_inheritance::table::{BuildError, build};
use ned_types::table::TypeTable;
use std::alloc::Global;

/// The table of the files' types, or the first reason why they make none.
pub fn table_of(alloc: Global, files: &[SharedFile]) -> Result<TypeTable, BuildError>
    ensures { Builds (types_of files.now) result }
{
    match unshared(alloc, files) {
        Ok(files) => build(alloc, files),
        Err(error) => Err(BuildError::NoMemory(error.into())),
    }
}
