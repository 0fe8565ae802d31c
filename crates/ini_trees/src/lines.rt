//! The lines of an ini text.

use crate::entry::EntryMeaning;
use sim_values::text::Text;
use sqlite_items::Items;
use std::marker::Model;

/// An entry, with its key and its value as they are written.
#[derive(Drop)]
pub struct IniEntry {
    pub key: Text,
    pub value: Text,
    pub meaning: EntryMeaning,
}

/// What a line is.
#[derive(Drop)]
pub enum LineMeaning {
    Blank,
    Comment,
    /// A section, by its name.
    Section(Text),
    Entry(IniEntry),
}

/// A line, without its end.
#[derive(Drop)]
pub struct IniLine {
    pub text: Text,
    pub meaning: LineMeaning,
}

/// An ini text, which contracts see as the list of its lines.
pub struct IniText {
    lines: Items<IniLine>,
}

// Written out, so that a crate which drops one need not prove what that does.
impl Drop for IniText {
    fn drop(self) {
        let IniText { lines: _ } = self;
    }
}

impl Model for IniText {
    ghost use Rattle.std.specs.Prelude.{List};
    ghost use Rattle.std.specs.Coded.{coded_list};
    ghost use Rattle.ini_trees.specs.contracts.lines.IniLine.{the_row};
    ghost use Rattle.ini_trees.specs.declared.lines.IniLine.{IniLine};

    ghost Value = { List IniLine };

    ghost coded = { coded_list the_row.coded };

    ghost view = { λ t. t.lines };
}

impl IniText {
    ghost use Rattle.std.specs.Prelude.{◌≡◌};

    /// The text of these lines.
    pub fn of_lines(lines: Items<IniLine>) -> IniText
        ensures { result ≡ lines }
    {
        IniText { lines }
    }

    /// The lines, in order.
    pub fn lines(&self) -> &[IniLine]
        ensures { result.now ≡ self.now }
    {
        self.lines.as_slice()
    }
}
