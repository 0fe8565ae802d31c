//! What result files are written to.

ghost use Rattle.std.specs.Prelude.{◌≡◌, ◌≤◌, ◌++◌, IfOk, OnErr, length, take};
ghost use Rattle.sim_values.specs.Counts.{next_count, count_behind};
ghost use Rattle.result_lines.specs.Taken.{Taken};

use std::alloc::AllocError;
use std::io;

/// A write that failed. Its field is private, so that it is made from what refused the bytes alone:
/// a file or a stream that failed, or the allocator.
#[derive(Clone, Copy, PartialEq, Eq)]
pub struct WriteFault {
    seal: (),
}

impl From<AllocError> for WriteFault {
    fn from(_e: AllocError) -> WriteFault {
        WriteFault { seal: () }
    }
}

impl From<io::Error> for WriteFault {
    fn from(_e: io::Error) -> WriteFault {
        WriteFault { seal: () }
    }
}

/// What takes bytes.
pub trait Out {
    /// What it has taken: its bytes, and how many of its writes failed, or took none of some bytes.
    /// The count starts over after the greatest number of 64 bits, so that a device can keep it.
    ghost taken: { Self → Taken };

    /// Takes some of the bytes, from the first on, and answers how many.
    fn write(&mut self, bytes: &[u8]) -> Result<usize, WriteFault>
        ensures within { IfOk result (λ n. n ≤ length bytes.now) }
        ensures bytes { IfOk result
            (λ n. (taken self.new).bytes ≡ (taken self.old).bytes ++ take n bytes.now) }
        ensures counted { IfOk result (λ n. (taken self.new).failures
            ≡ count_behind n bytes.now (taken self.old).failures) }
        ensures unchanged { OnErr result ((taken self.new).bytes ≡ (taken self.old).bytes) }
        ensures failed { OnErr result ((taken self.new).failures
            ≡ next_count (taken self.old).failures) };
}

/// The device failed or took nothing, after so many bytes of the text.
#[derive(Clone, Copy, PartialEq, Eq)]
pub struct Device {
    pub written: u128,
}
