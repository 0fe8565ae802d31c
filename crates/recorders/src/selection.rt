//! What the per-object options let be recorded.

ghost use Rattle.std.specs.Prelude.{◌≡◌, IfOk, OnOk};
ghost use Rattle.std.specs.Option.{option_copied};
ghost use Rattle.model_data.specs.Models.{entries_in};
ghost use Rattle.ned_trees.specs.Modes.{mode_name};
ghost use Rattle.recorders.specs.Selection.{after_item, after_items, begins_signed, chosen_modes};
ghost use Rattle.recorders.specs.Selection.{first_modes, is_on, is_signed, modes_of};
ghost use Rattle.recorders.specs.Selection.{recorded_modes, records_scalar_among};
ghost use Rattle.recorders.specs.Selection.{records_scalar_named, records_scalars};
ghost use Rattle.recorders.specs.Selection.{records_statistic, records_vector};
ghost use Rattle.recorders.specs.Selection.{records_vector_named, result_name, selected_modes};

use crate::modes::{
    add_mode, add_modes, declared_modes, default_modes, in_order, is_among, without_mode,
};
use crate::recorded_model::RecordedModel;
use ini_trees::entry::{ModeItem, ObjectOption};
use ned_trees::declarations::{RecordedMode, Statistic};
use ned_trees::modes::Mode;
use sim_values::NoMemory;
use sim_values::text::Text;
use sqlite_items::Items;
use std::alloc::{AllocError, Global};

/// Whether something is recorded: it is, unless its option says that it isn't.
fn is_on(option: Option<&ObjectOption>) -> bool
    ensures { result ≡ is_on (option_copied option.entry) }
{
    match option {
        Some(ObjectOption::Recording(on)) => *on,
        _ => true,
    }
}

/// The modes that are chosen after an item, where these were before it.
fn after_item(
    alloc: Global,
    modes: &[RecordedMode],
    chosen: &mut Items<Mode>,
    item: ModeItem,
) -> Result<(), AllocError>
    ensures { OnOk result (chosen.new ≡ after_item modes.now chosen.old item) }
{
    match item {
        ModeItem::Default => add_modes(chosen, default_modes(alloc, modes)?.as_slice()),
        ModeItem::All => add_modes(chosen, declared_modes(alloc, modes)?.as_slice()),
        ModeItem::Only(mode) => add_mode(chosen, mode),
        ModeItem::Plus(mode) => add_mode(chosen, mode),
        ModeItem::Minus(mode) => {
            *chosen = without_mode(alloc, chosen.as_slice(), mode)?;
            Ok(())
        }
    }
}

/// Whether an item has a sign.
fn is_signed(item: ModeItem) -> bool
    ensures { result ≡ is_signed item }
{
    matches!(item, ModeItem::Plus(_) | ModeItem::Minus(_))
}

/// Whether the first item has a sign.
fn begins_signed(items: &[ModeItem]) -> bool
    ensures { result ≡ begins_signed items.now }
{
    match items {
        [] => false,
        [first, ..] => is_signed(*first),
    }
}

/// The modes with which a list of items begins.
fn first_modes(
    alloc: Global,
    modes: &[RecordedMode],
    items: &[ModeItem],
) -> Result<Items<Mode>, AllocError>
    ensures { IfOk result (λ chosen. chosen ≡ first_modes modes.now items.now) }
{
    if begins_signed(items) {
        default_modes(alloc, modes)
    } else {
        Ok(Items::new(alloc))
    }
}

/// Chooses modes by a list of items.
fn choose_modes(
    alloc: Global,
    modes: &[RecordedMode],
    chosen: &mut Items<Mode>,
    items: &[ModeItem],
) -> Result<(), AllocError>
    ensures { OnOk result (chosen.new ≡ after_items modes.now chosen.old items.now) }
{
    for item in items {
        after_item(alloc, modes, chosen, *item)?;
    }
    Ok(())
}

/// The modes that the option `result-recording-modes` chooses for a statistic with these modes.
fn chosen_modes(
    alloc: Global,
    modes: &[RecordedMode],
    option: Option<&ObjectOption>,
) -> Result<Items<Mode>, AllocError>
    ensures { IfOk result (λ chosen. chosen ≡ chosen_modes modes.now (option_copied option.entry)) }
{
    match option {
        Some(ObjectOption::Modes(items)) => {
            let mut chosen = first_modes(alloc, modes, items.as_slice())?;
            choose_modes(alloc, modes, &mut chosen, items.as_slice())?;
            Ok(chosen)
        }
        _ => default_modes(alloc, modes),
    }
}

/// The modes in which a statistic with these modes is recorded by that option, in their order.
fn recorded_modes(
    alloc: Global,
    modes: &[RecordedMode],
    option: Option<&ObjectOption>,
) -> Result<Items<Mode>, AllocError>
    ensures { IfOk result (λ found. found ≡ recorded_modes modes.now (option_copied option.entry)) }
{
    let chosen = chosen_modes(alloc, modes, option)?;
    in_order(alloc, modes, chosen.as_slice())
}

/// The name of a mode.
fn mode_name(mode: Mode) -> &'static [u8]
    ensures { result.now ≡ mode_name mode }
{
    match mode {
        Mode::Count => b"count",
        Mode::Sum => b"sum",
        Mode::Min => b"min",
        Mode::Max => b"max",
        Mode::Last => b"last",
        Mode::Vector => b"vector",
    }
}

/// The name of what is recorded of a statistic in a mode: `statistic:mode`.
pub fn result_name(alloc: Global, name: &[u8], mode: Mode) -> Result<Text, AllocError>
    ensures { IfOk result (λ found. found ≡ result_name name.now mode) }
{
    let mut found = Vec::from_slice(alloc, name)?;
    found.extend_from_slice(b":")?;
    found.extend_from_slice(mode_name(mode))?;
    Ok(Text::from_vec(found))
}

/// Whether the option says that anything is recorded of a statistic of that name.
fn records_statistic(
    alloc: Global,
    model: &RecordedModel<'_, '_>,
    path: &[u8],
    name: &[u8],
) -> Result<bool, NoMemory>
    ensures { IfOk result (λ on. on ≡ records_statistic (entries_in model.now) path.now name.now) }
{
    let said = model.option_of(alloc, path, name, b"statistic-recording")?;
    Ok(is_on(said))
}

/// The modes in which a statistic of the module of that path is recorded, in their order.
fn modes_of(
    alloc: Global,
    model: &RecordedModel<'_, '_>,
    path: &[u8],
    statistic: &Statistic,
) -> Result<Items<Mode>, NoMemory>
    ensures { IfOk result
        (λ found. found ≡ modes_of (entries_in model.now) path.now statistic.now) }
{
    let name = statistic.name.as_bytes();
    let said = model.option_of(alloc, path, name, b"result-recording-modes")?;
    let found = recorded_modes(alloc, statistic.modes.as_slice(), said)?;
    Ok(found)
}

#[tactic(auto, unfolding(crate::specs::Selection::selected_modes))]
/// The modes in which the options let a statistic of the module of that path be recorded, in their
/// order: first those that the statistic names, as it names them, then the others, as the option
/// adds them.
/// See OMNeT++ Simulation Manual, "Selecting Recording Modes".
pub fn selected_modes(
    alloc: Global,
    model: &RecordedModel<'_, '_>,
    path: &[u8],
    statistic: &Statistic,
) -> Result<Items<Mode>, NoMemory>
    ensures { IfOk result
        (λ found. found ≡ selected_modes (entries_in model.now) path.now statistic.now) }
{
    if records_statistic(alloc, model, path, statistic.name.as_bytes())? {
        modes_of(alloc, model, path, statistic)
    } else {
        Ok(Items::new(alloc))
    }
}

/// Whether the option lets a vector of that name be recorded.
fn records_vector_named(
    alloc: Global,
    model: &RecordedModel<'_, '_>,
    path: &[u8],
    name: &[u8],
) -> Result<bool, NoMemory>
    ensures { IfOk result
        (λ on. on ≡ records_vector_named (entries_in model.now) path.now name.now) }
{
    let said = model.option_of(alloc, path, name, b"vector-recording")?;
    Ok(is_on(said))
}

/// Whether the option lets a scalar of that name be recorded.
pub fn records_scalar_named(
    alloc: Global,
    model: &RecordedModel<'_, '_>,
    path: &[u8],
    name: &[u8],
) -> Result<bool, NoMemory>
    ensures { IfOk result
        (λ on. on ≡ records_scalar_named (entries_in model.now) path.now name.now) }
{
    let said = model.option_of(alloc, path, name, b"scalar-recording")?;
    Ok(is_on(said))
}

/// Whether the option lets a statistic of that name be recorded as a scalar in one of these modes.
fn records_scalar_among(
    alloc: Global,
    model: &RecordedModel<'_, '_>,
    path: &[u8],
    name: &[u8],
    modes: &[Mode],
) -> Result<bool, NoMemory>
    ensures { IfOk result
        (λ on. on ≡ records_scalar_among (entries_in model.now) path.now name.now modes.now) }
{
    for mode in modes {
        let scalar = result_name(alloc, name, *mode)?;
        if records_scalar_named(alloc, model, path, scalar.as_bytes())? {
            return Ok(true);
        }
    }
    Ok(false)
}

/// Whether a statistic of the module of that path is recorded as a scalar in one of its modes.
pub fn records_scalars(
    alloc: Global,
    model: &RecordedModel<'_, '_>,
    path: &[u8],
    statistic: &Statistic,
) -> Result<bool, NoMemory>
    ensures { IfOk result
        (λ on. on ≡ records_scalars (entries_in model.now) path.now statistic.now) }
{
    let modes = selected_modes(alloc, model, path, statistic)?;
    records_scalar_among(
        alloc,
        model,
        path,
        statistic.name.as_bytes(),
        modes.as_slice(),
    )
}

/// Whether the vector of a statistic of the module of that path is recorded: the mode `vector` is
/// among those that are selected, and the vector is.
/// See OMNeT++ Simulation Manual, "Configuring Result Collection".
pub fn records_vector(
    alloc: Global,
    model: &RecordedModel<'_, '_>,
    path: &[u8],
    statistic: &Statistic,
) -> Result<bool, NoMemory>
    ensures { IfOk result
        (λ on. on ≡ records_vector (entries_in model.now) path.now statistic.now) }
{
    let modes = selected_modes(alloc, model, path, statistic)?;
    if !is_among(Mode::Vector, modes.as_slice()) {
        return Ok(false);
    }
    let vector = result_name(alloc, statistic.name.as_bytes(), Mode::Vector)?;
    records_vector_named(alloc, model, path, vector.as_bytes())
}
