//! The names of a text's sections, each found at once, however many there are.

ghost use Rattle.std.specs.Prelude.{◌≡◌, [], length, IfOk, OnOk};
ghost use Rattle.ini_trees.specs.Names.{with_name};
ghost use Rattle.ini_trees.specs.Numbers.{name_at, names_behind, with_section, IsNumber};

use crate::lines::{IniLine, LineMeaning};
use indexmap::IndexSet;
use std::alloc::{AllocError, Global};
use std::marker::Model;

/// Names of sections, each once, which contracts see as their list. The number of a name is its
/// place there.
pub struct SectionNames<'a> {
    names: IndexSet<&'a [u8]>,
}

// Written out, so that what drops some need not open what that does.
impl<'a> Drop for SectionNames<'a> {
    fn drop(self) {
        let SectionNames { names: _ } = self;
    }
}

impl<'a> Model for SectionNames<'a> {
    ghost use Rattle.std.specs.Prelude.{List};
    ghost use Rattle.ini_trees.specs.Names.{names_in};
    ghost use Rattle.ini_trees.specs.Words.{Bytes};

    ghost Value = { List Bytes };

    ghost view = { λ n. names_in n.names.keys };
}

impl<'a> SectionNames<'a> {
    /// No names.
    fn new(alloc: Global) -> SectionNames<'a>
        ensures { result ≡ [] }
    {
        SectionNames {
            names: IndexSet::new(alloc),
        }
    }

    /// How many there are.
    pub fn len(&self) -> usize
        ensures { result ≡ length self.now }
    {
        self.names.len()
    }

    /// Adds a name after the others, unless it is one of them.
    #[tactic(auto, using(crate::proofs::NameLaws::added_name))]
    fn add(&mut self, name: &'a [u8]) -> Result<(), AllocError>
        ensures { OnOk result (self.new ≡ with_name self.old name.now) }
    {
        self.names.insert(name)?;
        Ok(())
    }

    /// Adds the name of the section that a line begins.
    fn add_section(&mut self, line: &'a IniLine) -> Result<(), AllocError>
        ensures { OnOk result (self.new ≡ with_section self.old line.now.meaning) }
    {
        match &line.meaning {
            LineMeaning::Section(name) => self.add(name.as_bytes()),
            _ => Ok(()),
        }
    }

    /// The number of a name.
    #[tactic(auto, using(crate::proofs::NameLaws::found_number))]
    pub fn number_of(&self, name: &[u8]) -> Option<usize>
        ensures { IsNumber self.now name.now result }
    {
        self.names.get_index_of(name)
    }

    /// The name of that number, which is empty where there is none.
    #[tactic(auto, using(crate::proofs::NameLaws::name_there, crate::proofs::NameLaws::name_past))]
    pub fn name(&self, number: usize) -> &'a [u8]
        ensures { result.now ≡ name_at self.now number }
    {
        match self.names.get_index(number) {
            Some(name) => name,
            None => &[],
        }
    }
}

/// The names of the sections of these lines, in the order in which they begin.
pub fn section_names<'a>(
    alloc: Global,
    lines: &'a [IniLine],
) -> Result<SectionNames<'a>, AllocError>
    ensures { IfOk result (λ names. names ≡ names_behind [] lines.now) }
{
    let mut names = SectionNames::new(alloc);
    for line in lines {
        names.add_section(line)?;
    }
    Ok(names)
}
