//! What is made in several steps, each of which can fail. In a function of its own each exit would
//! open the drop of all that is there; here no type is known, so there is nothing to open.

ghost use Rattle.std.specs.Prelude.{◌≡◌, Ok, IfOk};

use std::alloc::AllocError;

/// A refusal, after which what was made before it is dropped.
pub fn err_dropping<T: Drop, E>(_held: T, refusal: E) -> E
    ensures { result ≡ refusal }
{
    refusal
}

/// A value, after a step that changed it, where that succeeded.
pub fn after<T: Drop>(value: T, done: Result<(), AllocError>) -> Result<T, AllocError>
    ensures same { IfOk result (λ same. same ≡ value) }
    ensures done { IfOk result (λ _. done ≡ Ok tt) }
{
    done?;
    Ok(value)
}

/// What was made before, and what was made after it, where that succeeded.
pub fn pair_after<T: Drop, U: Drop>(
    before: T,
    last: Result<U, AllocError>,
) -> Result<(T, U), AllocError>
    ensures before { IfOk result (λ both. both.0 ≡ before) }
    ensures last { IfOk result (λ both. last ≡ Ok both.1) }
{
    let last = last?;
    Ok((before, last))
}
