//! What a type is when it stands alone.

ghost use Rattle.std.specs.Prelude.{◌≡◌, ◌++◌, IfOk, OnOk};
ghost use Rattle.std.specs.Option.{option_copied, option_map};
ghost use Rattle.ned_types.specs.Types.{type_name};
ghost use Rattle.ned_types.specs.Flat.{declares_statistic, last_value, declaration_named, class_in};
ghost use Rattle.ned_types.specs.Flat.{class_of, submodule_named, is_statistic_declared};
ghost use Rattle.ned_types.specs.Flat.{statistic_named, last_statistic, statistic_at};
ghost use Rattle.ned_types.specs.Flat.{statistics_of};

use crate::given::{gives, value_in};
use ned_trees::declarations::{
    Declaration, ParameterValue, SectionLine, Statistic, Submodule, SubmoduleType, TypeDeclaration,
};
use sim_values::dropping::after;
use sqlite_items::Items;
use std::alloc::{AllocError, Global};

/// The value that the lines give the parameter: a later one stands in the place of an earlier one.
pub fn last_value<'a>(name: &[u8], lines: &'a [SectionLine]) -> Option<&'a ParameterValue>
    ensures { option_copied result ≡ last_value name.now lines.now }
{
    let mut found = None;
    for line in lines {
        if gives(name, line) {
            found = value_in(line);
        }
    }
    found
}

/// The parameter of that name, as declared.
pub fn declaration_named<'a>(name: &[u8], lines: &'a [SectionLine]) -> Option<&'a Declaration>
    ensures { option_copied result ≡ declaration_named name.now lines.now }
{
    for line in lines {
        if let SectionLine::Declaration(declaration) = line {
            if declaration.name.is(name) {
                return Some(declaration);
            }
        }
    }
    None
}

/// The class that the lines name.
pub fn class_in(lines: &[SectionLine]) -> Option<&[u8]>
    ensures { option_copied result ≡ class_in lines.now }
{
    for line in lines {
        if let SectionLine::Class(name) = line {
            return Some(name.as_bytes());
        }
    }
    None
}

/// A simple type's class: the one that it names, or its own name.
/// See OMNeT++ Simulation Manual, "Simple Module Definitions" on `@class`.
pub fn class_of(declared: &TypeDeclaration) -> &[u8]
    ensures { result.now ≡ class_of declared.now }
{
    match class_in(declared.lines.as_slice()) {
        Some(name) => name,
        None => declared.name.as_bytes(),
    }
}

/// The name that stands for the type of a submodule: that of the type, or that of the interface
/// after `like`.
pub fn type_name(submodule: &Submodule) -> &[u8]
    ensures { result.now ≡ type_name submodule.now }
{
    match &submodule.submodule_type {
        SubmoduleType::Named(name) => name.as_bytes(),
        SubmoduleType::Like(parametric) => parametric.interface.as_bytes(),
    }
}

/// The submodule of that name.
pub fn submodule_named<'a>(name: &[u8], submodules: &'a [Submodule]) -> Option<&'a Submodule>
    ensures { option_copied result ≡ submodule_named name.now submodules.now }
{
    for submodule in submodules {
        if submodule.name.is(name) {
            return Some(submodule);
        }
    }
    None
}

/// The statistic of that name that the line declares.
fn statistic_named<'a>(name: &[u8], line: &'a SectionLine) -> Option<&'a Statistic>
    ensures { option_copied result ≡ statistic_named name.now line.now }
{
    match line {
        SectionLine::Statistic(statistic) => {
            if statistic.name.is(name) {
                Some(statistic)
            } else {
                None
            }
        }
        _ => None,
    }
}

/// Whether one of the lines declares a statistic of that name.
fn is_statistic_declared(name: &[u8], lines: &[SectionLine]) -> bool
    ensures { result ≡ is_statistic_declared name.now lines.now }
{
    lines.iter().any(|line| declares_statistic(name, line))
}

/// Whether the line declares a statistic of that name.
fn declares_statistic(name: &[u8], line: &SectionLine) -> bool
    ensures { result ≡ declares_statistic name.now line.now }
{
    match line {
        SectionLine::Statistic(statistic) => statistic.name.is(name),
        _ => false,
    }
}

/// The statistic of that name, as the last line that declares it has it.
fn last_statistic<'a>(name: &[u8], lines: &'a [SectionLine]) -> Option<&'a Statistic>
    ensures { option_copied result ≡ last_statistic name.now lines.now }
{
    let mut found = None;
    for line in lines {
        if let Some(statistic) = statistic_named(name, line) {
            found = Some(statistic);
        }
    }
    found
}

/// The statistic that has its place at a line, with the lines before and after it.
fn statistic_at<'a>(
    before: &[SectionLine],
    line: &'a SectionLine,
    after: &'a [SectionLine],
) -> Option<&'a Statistic>
    ensures { option_copied result ≡ statistic_at before.now line.now after.now }
{
    let SectionLine::Statistic(first) = line else {
        return None;
    };
    let name = first.name.as_bytes();
    if is_statistic_declared(name, before) {
        return None;
    }
    match last_statistic(name, after) {
        Some(last) => Some(last),
        None => Some(first),
    }
}

/// An equal statistic.
pub fn copy_statistic(alloc: Global, statistic: &Statistic) -> Result<Statistic, AllocError>
    ensures { IfOk result (λ copy. copy ≡ statistic.now) }
{
    Ok(Statistic {
        name: statistic.name.copy(alloc)?,
        source: statistic.source.copy(alloc)?,
        modes: Items::from_slice(alloc, statistic.modes.as_slice())?,
    })
}

/// Adds the statistics that the lines declare.
fn add_statistics_of(
    alloc: Global,
    statistics: &mut Items<Statistic>,
    lines: &[SectionLine],
) -> Result<(), AllocError>
    ensures { OnOk result (statistics.new ≡ statistics.old ++ statistics_of lines.now) }
{
    for (at, line) in lines.iter().enumerate() {
        if let Some(statistic) = statistic_at(&lines[..at], line, &lines[at + 1..]) {
            statistics.push(copy_statistic(alloc, statistic)?)?;
        }
    }
    Ok(())
}

/// The statistics that the lines declare, in the order of the first line of each name, each as the
/// last line of its name has it.
pub fn statistics_of(alloc: Global, lines: &[SectionLine]) -> Result<Items<Statistic>, AllocError>
    ensures { IfOk result (λ statistics. statistics ≡ statistics_of lines.now) }
{
    let mut statistics = Items::new(alloc);
    let done = add_statistics_of(alloc, &mut statistics, lines);
    after(statistics, done)
}
