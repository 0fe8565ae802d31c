//! Two numbers that a module remembers.

ghost use Rattle.std.specs.Prelude.{◌≡◌, IsTrue, IfOk};
ghost use Rattle.std.specs.Option.{is_some};
ghost use Rattle.module_parts.specs.Pairs.{pair_bytes, read_pair};

use crate::numbers::Number;
use sim_values::NoMemory;
use sim_values::text::Text;
use std::alloc::Global;

/// Two numbers.
#[derive(Clone, Copy)]
pub struct Pair {
    pub first: Number,
    pub second: Number,
}

impl Pair {
    /// Their 16 bytes, those of the first in front.
    pub fn bytes(self, alloc: Global) -> Result<Text, NoMemory>
        ensures { IfOk result (λ bytes. bytes ≡ pair_bytes self) }
    {
        let mut bytes = Vec::new(alloc);
        bytes.extend_from_slice(self.first.bytes(alloc)?.as_bytes())?;
        bytes.extend_from_slice(self.second.bytes(alloc)?.as_bytes())?;
        Ok(Text::from_vec(bytes))
    }

    /// The two numbers that these bytes spell, which are of two.
    #[tactic(auto, using(crate::specs::PairLaws::pair_long, crate::specs::PairLaws::pair_front, crate::specs::PairLaws::pair_behind))]
    pub fn of_bytes(bytes: &[u8]) -> Pair
        requires { IsTrue (is_some (read_pair bytes.now)) }
        ensures { pair_bytes result ≡ bytes.now }
    {
        let (first, second) = bytes.split_at(8);
        Pair {
            first: Number::of_bytes(first),
            second: Number::of_bytes(second),
        }
    }
}
