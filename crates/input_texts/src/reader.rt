//! Readers of std as sources.

ghost use Rattle.std.specs.Prelude.{◌≡◌, []};

use crate::source::Source;
use std::io;
use std::io::Read;
use text_writer::noted::GhostBytes;

/// A reader, as an open file, with what it gave.
#[derive(Drop)]
pub struct NotedReader<R> {
    reader: R,
    given: GhostBytes,
    ends: u64,
    failures: u64,
}

impl<R> NotedReader<R> {
    /// A reader that was not read yet.
    pub fn new(reader: R) -> NotedReader<R>
        ensures { result.given.bytes ≡ [] }
    {
        NotedReader {
            reader,
            given: GhostBytes::new(),
            ends: 0,
            failures: 0,
        }
    }
}

impl<R: Read> Source for NotedReader<R> {
    ghost given = { λ source. source.given.bytes };

    ghost ends = { λ source. source.ends };

    ghost failures = { λ source. source.failures };

    fn read(&mut self, buffer: &mut [u8]) -> io::Result<usize> {
        match self.reader.read(buffer) {
            Ok(count) => {
                if count == 0 && !buffer.is_empty() {
                    self.ends = self.ends.wrapping_add(1);
                }
                self.given.note(&buffer[..count]);
                Ok(count)
            }
            Err(error) => {
                self.failures = self.failures.wrapping_add(1);
                Err(error)
            }
        }
    }
}
