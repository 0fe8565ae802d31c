//! Texts by the paths of their files.

ghost use Rattle.std.specs.Prelude.{◌≡◌, ℕ, List, [], ◌∷◌, ◌++◌, length, IfOk, IfErr, OnOk};
ghost use Rattle.sim_values.specs.Memory.{no_memory};
ghost use Rattle.input_texts.specs.Folders.{AreTextsOf, IsWithin};

use crate::reading::ReadFault;
use ned_trees::texts::NedTexts;
use sim_values::NoMemory;
use std::alloc::Global;
use std::io;

/// What has texts by the paths of their files.
pub trait Folder {
    /// Whether the file of that path gave that text.
    ghost gave: { Self → List ℕ → List ℕ → Type 0 };

    /// The text of the file of that path.
    fn text_of(&self, alloc: Global, path: &str) -> Result<Vec<u8>, ReadFault>
        ensures { IfOk result (λ text. gave self.now path.now text.items) };
}

/// Why the texts of some files aren't read.
#[derive(Drop)]
pub enum FolderFault {
    /// The file of that path, counted from 0, can't be read.
    Failed(usize, io::Error),
    /// Memory ran out.
    NoMemory(NoMemory),
}

/// The texts of the files of these paths, in their order.
pub fn read_texts<F: Folder>(
    alloc: Global,
    folder: &F,
    paths: &[String],
) -> Result<NedTexts, FolderFault>
    ensures texts { IfOk result (λ texts. AreTextsOf (F.gave folder.now) paths.now texts) }
    ensures within { IfErr result (λ fault. IsWithin (length paths.now) fault) }
{
    let mut texts = NedTexts::new(alloc);
    for (number, path) in paths.iter().enumerate() {
        match folder.text_of(alloc, path.as_str()) {
            Ok(text) => push(&mut texts, text.as_slice())?,
            Err(ReadFault::Failed(error)) => return Err(FolderFault::Failed(number, error)),
            Err(ReadFault::NoMemory(error)) => return Err(FolderFault::NoMemory(error)),
        }
    }
    Ok(texts)
}

/// Adds a text at the end.
fn push(texts: &mut NedTexts, text: &[u8]) -> Result<(), FolderFault>
    ensures ok { OnOk result (texts.new ≡ texts.old ++ text.now ∷ []) }
    ensures err { IfErr result (λ fault. fault ≡ FolderFault.NoMemory no_memory) }
{
    match texts.push(text) {
        Ok(()) => Ok(()),
        Err(error) => Err(FolderFault::NoMemory(error.into())),
    }
}
