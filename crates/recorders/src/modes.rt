//! Which modes of a statistic are recorded.

ghost use Rattle.std.specs.Prelude.{◌≡◌, ◌++◌, IfOk, OnOk};
ghost use Rattle.recorders.specs.Modes.{is_recorded, is_among, with_mode, with_modes, without_mode};
ghost use Rattle.recorders.specs.Modes.{declared_modes, default_modes, modes_among};
ghost use Rattle.recorders.specs.Modes.{modes_not_among, in_order};

use ned_trees::declarations::RecordedMode;
use ned_trees::modes::Mode;
use sqlite_items::Items;
use std::alloc::{AllocError, Global};

/// Whether a statistic with these modes is recorded in that mode: it names the mode, and not with
/// a `?`. Of one mode twice the first place counts.
/// See OMNeT++ Simulation Manual, "Result Recording Modes".
pub fn is_recorded(mode: Mode, modes: &[RecordedMode]) -> bool
    ensures { result ≡ is_recorded mode modes.now }
{
    for named in modes {
        if named.mode == mode {
            return !named.optional;
        }
    }
    false
}

/// Whether the mode is one of these.
pub fn is_among(mode: Mode, modes: &[Mode]) -> bool
    ensures { result ≡ is_among mode modes.now }
{
    modes.iter().any(|listed| *listed == mode)
}

/// Adds a mode after the others, where it is new.
pub fn add_mode(chosen: &mut Items<Mode>, mode: Mode) -> Result<(), AllocError>
    ensures { OnOk result (chosen.new ≡ with_mode chosen.old mode) }
{
    if is_among(mode, chosen.as_slice()) {
        return Ok(());
    }
    chosen.push(mode)
}

/// Adds these modes, each after the others where it is new.
pub fn add_modes(chosen: &mut Items<Mode>, modes: &[Mode]) -> Result<(), AllocError>
    ensures { OnOk result (chosen.new ≡ with_modes chosen.old modes.now) }
{
    for mode in modes {
        add_mode(chosen, *mode)?;
    }
    Ok(())
}

/// These modes without one.
pub fn without_mode(alloc: Global, chosen: &[Mode], mode: Mode) -> Result<Items<Mode>, AllocError>
    ensures { IfOk result (λ left. left ≡ without_mode chosen.now mode) }
{
    let mut left = Items::new(alloc);
    for listed in chosen {
        if *listed != mode {
            left.push(*listed)?;
        }
    }
    Ok(left)
}

/// The modes that a statistic names, with a `?` or without, in their order, each once.
pub fn declared_modes(alloc: Global, modes: &[RecordedMode]) -> Result<Items<Mode>, AllocError>
    ensures { IfOk result (λ found. found ≡ declared_modes modes.now) }
{
    let mut found = Items::new(alloc);
    for named in modes {
        add_mode(&mut found, named.mode)?;
    }
    Ok(found)
}

/// Those of them that are recorded where no option says else.
pub fn default_modes(alloc: Global, modes: &[RecordedMode]) -> Result<Items<Mode>, AllocError>
    ensures { IfOk result (λ found. found ≡ default_modes modes.now) }
{
    let declared = declared_modes(alloc, modes)?;
    let listed = declared.as_slice();
    let mut found = Items::new(alloc);
    for mode in listed {
        if is_recorded(*mode, modes) {
            found.push(*mode)?;
        }
    }
    Ok(found)
}

/// Adds those of the modes that are among the others.
fn push_among(found: &mut Items<Mode>, modes: &[Mode], others: &[Mode]) -> Result<(), AllocError>
    ensures { OnOk result (found.new ≡ found.old ++ modes_among modes.now others.now) }
{
    for mode in modes {
        if is_among(*mode, others) {
            found.push(*mode)?;
        }
    }
    Ok(())
}

/// Adds those of the modes that are not among the others.
fn push_not_among(
    found: &mut Items<Mode>,
    modes: &[Mode],
    others: &[Mode],
) -> Result<(), AllocError>
    ensures { OnOk result (found.new ≡ found.old ++ modes_not_among modes.now others.now) }
{
    for mode in modes {
        if !is_among(*mode, others) {
            found.push(*mode)?;
        }
    }
    Ok(())
}

/// Chosen modes in the order of their recording: first those that the statistic names, as it names
/// them, then the others, as they were added.
pub fn in_order(
    alloc: Global,
    modes: &[RecordedMode],
    chosen: &[Mode],
) -> Result<Items<Mode>, AllocError>
    ensures { IfOk result (λ ordered. ordered ≡ in_order modes.now chosen.now) }
{
    let declared = declared_modes(alloc, modes)?;
    let mut ordered = Items::new(alloc);
    push_among(&mut ordered, declared.as_slice(), chosen)?;
    push_not_among(&mut ordered, chosen, declared.as_slice())?;
    Ok(ordered)
}
