//! What holds of the definitions themselves.

ghost use Rattle.ini_trees.specs.Kept.{KeepsOrder};
ghost use Rattle.ini_trees.specs.Once.{NamesOnce, StandsBefore};
ghost use Rattle.ini_trees.specs.Sections.{HasOneChain};

use crate::lines::IniLine;

/// Two chains of one configuration are equal.
pub fn one_chain(lines: &[IniLine], config: &[u8])
    ensures { HasOneChain lines.now config.now }
{}

/// In the line of a configuration those that it extends stand as it names them, and the line of
/// each of them stands in its order.
pub fn keeps_order(lines: &[IniLine], config: &[u8])
    ensures { KeepsOrder lines.now config.now }
{}

/// A chain names each configuration once.
pub fn names_once(lines: &[IniLine], config: &[u8])
    ensures { NamesOnce lines.now config.now }
{}

/// Each configuration of a chain but General stands before those that it extends.
pub fn stands_before(lines: &[IniLine], config: &[u8])
    ensures { StandsBefore lines.now config.now }
{}
