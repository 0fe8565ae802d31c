//! Texts of the files of the system.

use crate::folder::Folder;
use crate::reader::NotedReader;
use crate::reading::{ReadFault, read_text};
use std::alloc::Global;
use std::fs::File;
use std::rt::Files;

/// The files of the system. What they give no clause says.
#[derive(Drop)]
pub struct SystemFiles<'a, R> {
    rt: &'a R,
}

impl<'a, R> SystemFiles<'a, R> {
    /// The files that this runtime opens.
    pub fn new(rt: &'a R) -> SystemFiles<'a, R> {
        SystemFiles { rt }
    }
}

impl<R: Files> Folder for SystemFiles<'_, R> {
    ghost gave = { λ _ _ _. Unit {0} };

    fn text_of(&self, alloc: Global, path: &str) -> Result<Vec<u8>, ReadFault> {
        match File::open(self.rt, path) {
            Ok(file) => read_text(alloc, &mut NotedReader::new(file)),
            Err(error) => Err(ReadFault::Failed(error)),
        }
    }
}
