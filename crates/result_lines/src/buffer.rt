//! A device that keeps what it takes.

ghost use Rattle.std.specs.Prelude.{◌≡◌, []};

use crate::writer::{Out, WriteFault};
use std::alloc::Global;
use std::marker::Model;

/// Bytes in memory. A write fails where memory runs out.
#[derive(Drop)]
pub struct Buffer {
    bytes: Vec<u8>,
    failures: u64,
}

impl Model for Buffer {
    ghost use Rattle.result_lines.specs.Taken.{Taken};

    ghost Value = { Taken };

    ghost view = { λ b. record { bytes = b.bytes.items; failures = b.failures } };
}

impl Buffer {
    /// No bytes.
    pub fn new(alloc: Global) -> Buffer
        ensures { result ≡ record { bytes = []; failures = 0 } }
    {
        Buffer {
            bytes: Vec::new(alloc),
            failures: 0,
        }
    }

    /// The bytes that it took.
    pub fn as_bytes(&self) -> &[u8]
        ensures { result.now ≡ self.now.bytes }
    {
        self.bytes.as_slice()
    }
}

impl Out for Buffer {
    ghost taken = { λ buffer. buffer };

    fn write(&mut self, bytes: &[u8]) -> Result<usize, WriteFault> {
        match self.bytes.extend_from_slice(bytes) {
            Ok(()) => Ok(bytes.len()),
            Err(error) => {
                self.failures = self.failures.wrapping_add(1);
                Err(error.into())
            }
        }
    }
}
