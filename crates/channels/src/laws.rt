//! Laws of travels. The functions do nothing: their contracts are the laws.

ghost use Rattle.std.specs.Prelude.{◌≡◌, ◌⊎◌, ℕ, ◌+◌, ◌*◌, ◌<◌, ◌≤◌, List, Option, Ok, Err};
ghost use Rattle.model_questions.specs.declared.answer.Channel.{Channel};
ghost use Rattle.channels.specs.declared.travels.Travel.{Travel};
ghost use Rattle.channels.specs.Travel.{travel, duration_of};
ghost use Rattle.channels.specs.Laws.{delays, durations, AllEnabled, AnyDisabled};

/// A message that arrives does so after all delays and the transmission, and no channel is
/// disabled.
pub fn arrivals_add_up()
    ensures time { (hops : List Channel) (departure bits : ℕ) (busy until : Option ℕ) (time : ℕ)
        → travel hops departure bits busy ≡ Ok (Travel.Arrival time until)
        → time ≡ departure + delays hops + durations bits hops }
    ensures enabled { (hops : List Channel) (departure bits : ℕ) (busy until : Option ℕ) (time : ℕ)
        → travel hops departure bits busy ≡ Ok (Travel.Arrival time until) → AllEnabled hops }
{}

/// A message is lost by a disabled channel alone.
pub fn losses_are_by_disabled_channels()
    ensures { (hops : List Channel) (departure bits : ℕ) (busy until : Option ℕ)
        → travel hops departure bits busy ≡ Ok (Travel.Lost until) → AnyDisabled hops }
{}

/// A transmission takes the least time in which so many bits are transmitted.
pub fn transmissions_round_up()
    ensures enough { (bits rate : ℕ) → 0 < rate
        → bits * 1000000000000 ≤ rate * duration_of bits rate }
    ensures least { (bits rate : ℕ) → 0 < rate
        → rate * duration_of bits rate < bits * 1000000000000 + rate }
{}
