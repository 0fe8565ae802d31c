//! What gives bytes.

ghost use Rattle.std.specs.Prelude.{◌≡◌, ℕ, ◌≤◌, List, ◌++◌, IfOk, OnOk, OnErr, length, take};
ghost use Rattle.sim_values.specs.Counts.{next_count, count_behind};

use std::io;

/// What gives bytes, one part after the other.
pub trait Source {
    /// The bytes that it has given.
    ghost given: { Self → List ℕ };

    /// How many of its reads gave nothing where something was asked for: it was at its end. The
    /// count starts over after the greatest number of 64 bits, so that a source can keep it.
    ghost ends: { Self → ℕ };

    /// How many of its reads failed. The count starts over as that of the ends does.
    ghost failures: { Self → ℕ };

    /// Gives some bytes, which stand at the front of the buffer then, and answers how many. They
    /// may be fewer than the buffer has room for, and are none at the end alone.
    fn read(&mut self, buffer: &mut [u8]) -> io::Result<usize>
        ensures within { IfOk result (λ n. n ≤ length buffer.new) }
        ensures given { IfOk result (λ n. given self.new ≡ given self.old ++ take n buffer.new) }
        ensures ended { IfOk result
            (λ n. ends self.new ≡ count_behind n buffer.old (ends self.old)) }
        ensures healthy { OnOk result (failures self.new ≡ failures self.old) }
        ensures unchanged { OnErr result ((given self.new ≡ given self.old)
            × (ends self.new ≡ ends self.old)) }
        ensures failed { OnErr result (failures self.new ≡ next_count (failures self.old)) };
}
