//! Parts of what a source gives.

ghost use Rattle.std.specs.Prelude.{◌≡◌, ◌≤◌, length, IfOk, IfErr, OnOk, OnErr, position};
ghost use Rattle.input_lines.specs.Feeds.{is_feed};
ghost use Rattle.input_lines.specs.Limits.{longest};
ghost use Rattle.input_lines.specs.Parts.{IsPart};
ghost use Rattle.input_texts.specs.Whole.{Explains};

use crate::line::LONGEST;
use input_texts::reading::ReadFault;
use input_texts::source::Source;

/// How many bytes are asked for at a time.
pub(crate) const CHUNK: usize = 4096;

/// Reads once, and adds what the source gives after the bytes that are held. Answers how many bytes
/// that was.
pub(crate) fn read_part<S: Source>(source: &mut S, held: &mut Vec<u8>) -> Result<usize, ReadFault>
    requires room { length held.old.items ≤ longest }
    ensures part { IfOk result (λ n. IsPart (S.given source.old) (S.ends source.old) held.old.items
        (S.given source.new) (S.ends source.new) held.new.items n) }
    ensures healthy { OnOk result (S.failures source.new ≡ S.failures source.old) }
    ensures kept { OnErr result ((S.given source.new ≡ S.given source.old)
        × (S.ends source.new ≡ S.ends source.old)
        × (held.new.items ≡ held.old.items)) }
    ensures refused { IfErr result
        (λ fault. Explains (S.failures source.old) (S.failures source.new) fault) }
{
    // There is room before anything is read, so that nothing that was given is lost.
    if let Err(error) = held.reserve(CHUNK) {
        return Err(ReadFault::NoMemory(error.into()));
    }
    let mut chunk = [0u8; CHUNK];
    match source.read(&mut chunk) {
        Ok(count) => match held.extend_from_slice(&chunk[..count]) {
            Ok(()) => Ok(count),
            Err(_) => unreachable!(),
        },
        Err(error) => Err(ReadFault::Failed(error)),
    }
}

/// Where the first line feed stands.
pub(crate) fn first_feed(bytes: &[u8]) -> Option<usize>
    ensures { result ≡ position is_feed bytes.now }
{
    bytes.iter().position(|byte| *byte == b'\n')
}
