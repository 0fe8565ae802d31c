//! Reading a whole text.

ghost use Rattle.std.specs.Prelude.{◌≡◌, ◌≤◌, length, IfOk, IfErr, OnOk};
ghost use Rattle.input_texts.specs.Given.{most};
ghost use Rattle.input_texts.specs.Whole.{Explains, IsMore, IsWhole};

use crate::source::Source;
use sim_values::NoMemory;
use sim_values::text::MAX_LENGTH;
use std::alloc::Global;
use std::io;

/// How many bytes are read at most: 1 MiB, which is the longest text, and one. So a text that is
/// too long is still seen to be that.
pub const MOST: usize = MAX_LENGTH + 1;

/// How many bytes are asked for at a time.
const CHUNK: usize = 4096;

/// Why a text isn't read.
#[derive(Drop)]
pub enum ReadFault {
    /// The source failed.
    Failed(io::Error),
    /// Memory ran out.
    NoMemory(NoMemory),
}

/// Reads once, and adds what the source gives at the end of the text. Answers how many bytes that
/// was.
fn read_part<S: Source>(source: &mut S, text: &mut Vec<u8>) -> Result<usize, ReadFault>
    requires room { length text.old.items ≤ most }
    ensures more { IfOk result (λ n. IsMore (S.given source.old) (S.ends source.old) text.old.items
        (S.given source.new) (S.ends source.new) text.new.items n) }
    ensures healthy { OnOk result (S.failures source.new ≡ S.failures source.old) }
    ensures refused { IfErr result
        (λ fault. Explains (S.failures source.old) (S.failures source.new) fault) }
{
    let mut chunk = [0u8; CHUNK];
    let wanted = CHUNK.min(MOST - text.len());
    match source.read(&mut chunk[..wanted]) {
        Ok(count) => match text.extend_from_slice(&chunk[..count]) {
            Ok(()) => Ok(count),
            Err(error) => Err(ReadFault::NoMemory(error.into())),
        },
        Err(error) => Err(ReadFault::Failed(error)),
    }
}

/// The bytes that the source gives: all up to its end, or the first `MOST` of them. A source that
/// gives fewer bytes than it is asked for is read on.
pub fn read_text<S: Source>(alloc: Global, source: &mut S) -> Result<Vec<u8>, ReadFault>
    ensures whole { IfOk result (λ text. IsWhole (S.given source.old) (S.ends source.old)
        (S.given source.new) (S.ends source.new) text.items) }
    ensures healthy { OnOk result (S.failures source.new ≡ S.failures source.old) }
    ensures refused { IfErr result
        (λ fault. Explains (S.failures source.old) (S.failures source.new) fault) }
{
    let mut text = Vec::new(alloc);
    while text.len() < MOST {
        if read_part(source, &mut text)? == 0 {
            break;
        }
    }
    Ok(text)
}
