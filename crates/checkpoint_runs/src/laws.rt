//! Laws of the positions that runs leave. The functions do nothing: their contracts are the laws.

ghost use Rattle.std.specs.Prelude.{ℕ, ◌≤◌, Bool, Option, length};
ghost use Rattle.checkpoints.specs.Stored.{most_stored, Timeline};
ghost use Rattle.checkpoint_runs.specs.Positions.{AllStay, CanBeStored};

/// Where a run takes no 65th position, all stay: those up to where it began, and after them those
/// after each multiple of the interval and after its last event, unless that ended in a fault. The
/// interval stays too.
pub fn few_positions_all_stay()
    ensures { (old : Timeline ℕ) (start : Option ℕ) (last : ℕ) (faulted : Bool)
        → AllStay old start last faulted }
{}

/// Whatever runs and edits came before, whether the runs are done or were given up, at most 64
/// positions are stored: each multiple of the interval up to the newest one is, so of 65 at most
/// every second one stays, and the newest.
pub fn at_most_64_are_stored()
    ensures { (t : Timeline ℕ) → CanBeStored t → length t.stored ≤ most_stored }
{}
