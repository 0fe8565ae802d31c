//! What NED files declare, shared by the models that have the same file.

ghost use Rattle.std.specs.Prelude.{◌≡◌, ◌++◌, [], ◌∷◌, IfOk, OnOk};

use ned_trees::declarations::NedFile;
use sqlite_items::Items;
use std::alloc::{AllocError, Global};
use std::marker::Model;
use std::rc::Rc;

/// What a NED file declares, which contracts see as that. All that share it have it in one place,
/// which counts them.
pub struct SharedFile {
    file: Rc<NedFile>,
}

// Written out, so that a crate which drops one need not prove what that does.
impl Drop for SharedFile {
    fn drop(self) {
        let SharedFile { file: _ } = self;
    }
}

impl Model for SharedFile {
    ghost use Rattle.ned_trees.specs.contracts.declarations.NedFile.{the_row};
    ghost use Rattle.ned_trees.specs.declared.declarations.NedFile.{NedFile};

    ghost Value = { NedFile };

    ghost coded = { the_row.coded };

    ghost view = { λ s. s.file.value };
}

impl SharedFile {
    /// A file that can be shared.
    pub fn new(alloc: Global, file: NedFile) -> Result<SharedFile, AllocError>
        ensures { IfOk result (λ shared. shared ≡ file) }
    {
        match Rc::new(alloc, file) {
            Ok(file) => Ok(SharedFile { file }),
            Err(failed) => Err(failed.into()),
        }
    }

    /// The same file. It takes no memory, and fails only where there are too many that share it to
    /// be counted.
    pub fn share(&self) -> Result<SharedFile, AllocError>
        ensures { IfOk result (λ shared. shared ≡ self.now) }
    {
        Ok(SharedFile {
            file: self.file.clone()?,
        })
    }

    /// What the file declares.
    pub fn file(&self) -> &NedFile
        ensures { result.now ≡ self.now }
    {
        &self.file
    }
}

/// The same files, shared.
pub fn copy_files(alloc: Global, files: &[SharedFile]) -> Result<Items<SharedFile>, AllocError>
    ensures { IfOk result (λ copy. copy ≡ files.now) }
{
    let mut copy = Items::new(alloc);
    for file in files {
        copy.push(file.share()?)?;
    }
    Ok(copy)
}

/// Adds a file at the end, which can then be shared.
pub fn push_file(
    alloc: Global,
    files: &mut Items<SharedFile>,
    file: NedFile,
) -> Result<(), AllocError>
    ensures { OnOk result (files.new ≡ files.old ++ file ∷ []) }
{
    let shared = SharedFile::new(alloc, file)?;
    files.push(shared)
}
