//! The submodules that an inside has.

ghost use Rattle.std.specs.Prelude.{◌≡◌, IfOk, map, slice_get};
ghost use Rattle.std.specs.Option.{option_and_then};
ghost use Rattle.model_inside.specs.Built.{built_part, built_parts, class_to_build, name_of_part};
ghost use Rattle.model_inside.specs.Built.{submodules_among};

use inside_parts::parts::Part;
use model_questions::answer::Built;
use ned_trees::declarations::{Submodule, TypeDeclaration, TypeKind};
use ned_types::flat::class_of;
use sim_values::NoMemory;
use sim_values::text::Text;
use sqlite_items::Items;
use std::alloc::Global;

/// The class that a module of the type has, none for a compound module.
pub fn class_to_build(alloc: Global, declared: &TypeDeclaration) -> Result<Option<Text>, NoMemory>
    ensures { IfOk result (λ class. class ≡ class_to_build declared.now) }
{
    match declared.kind {
        TypeKind::Simple => Ok(Some(Text::from_bytes(alloc, class_of(declared))?)),
        _ => Ok(None),
    }
}

/// The class that a module of the type of that number has.
fn class_at(
    alloc: Global,
    types: &[TypeDeclaration],
    number: usize,
) -> Result<Option<Text>, NoMemory>
    ensures { IfOk result
        (λ class. class ≡ option_and_then class_to_build (slice_get types.now number)) }
{
    match types.get(number) {
        Some(declared) => class_to_build(alloc, declared),
        None => Ok(None),
    }
}

/// The name of a part, where these submodules are declared.
pub fn name_of_part(lines: &[Submodule], part: Part) -> &[u8]
    ensures { result.now ≡ name_of_part lines.now part }
{
    match lines.get(part.line) {
        Some(line) => line.name.as_bytes(),
        None => &[],
    }
}

/// A part, as a submodule that is created.
fn built_part(
    alloc: Global,
    types: &[TypeDeclaration],
    lines: &[Submodule],
    part: Part,
) -> Result<Built, NoMemory>
    ensures { IfOk result (λ built. built ≡ built_part types.now lines.now part) }
{
    Ok(Built {
        name: Text::from_bytes(alloc, name_of_part(lines, part))?,
        index: part.index,
        class: class_at(alloc, types, part.of_type)?,
    })
}

/// All parts but the first, which is the compound module itself.
fn submodules_among(parts: &[Part]) -> &[Part]
    ensures { result.now ≡ submodules_among parts.now }
{
    match parts {
        [_, submodules @ ..] => submodules,
        [] => &[],
    }
}

/// These parts, as submodules that are created.
fn built_from(
    alloc: Global,
    types: &[TypeDeclaration],
    lines: &[Submodule],
    parts: &[Part],
) -> Result<Items<Built>, NoMemory>
    ensures { IfOk result (λ built. built ≡ map (built_part types.now lines.now) parts.now) }
{
    let mut built = Items::new(alloc);
    for part in parts {
        built.push(built_part(alloc, types, lines, *part)?)?;
    }
    Ok(built)
}

/// The submodules among the parts of an inside, in the order in which they are created.
pub fn built_parts(
    alloc: Global,
    types: &[TypeDeclaration],
    lines: &[Submodule],
    parts: &[Part],
) -> Result<Items<Built>, NoMemory>
    ensures { IfOk result (λ built. built ≡ built_parts types.now lines.now parts.now) }
{
    built_from(alloc, types, lines, submodules_among(parts))
}
