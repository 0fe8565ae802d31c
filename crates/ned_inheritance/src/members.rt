//! Where a type declares its members, found by hashing.

use indexmap::IndexMap;
use ned_trees::declarations::{GateLine, SectionLine, TypeDeclaration};
use sim_values::dropping::after;
use std::alloc::{AllocError, Global};

/// The number of the line that declares each parameter, and of that which declares each gate, by
/// name. Where lines declare one name twice it is that of the last. Whoever finds a line here looks
/// whether it is the one that is wanted, so no contract speaks of this.
pub(crate) struct MemberLines<'a> {
    parameters: IndexMap<&'a [u8], usize>,
    gates: IndexMap<&'a [u8], usize>,
}

// Written out, so that what drops some need not open what that does.
impl<'a> Drop for MemberLines<'a> {
    fn drop(self) {
        let MemberLines {
            parameters: _,
            gates: _,
        } = self;
    }
}

impl<'a> MemberLines<'a> {
    /// The number of the line that declares the parameter of that name.
    pub(crate) fn parameter(&self, name: &[u8]) -> Option<usize> {
        self.parameters.get(name).copied()
    }

    /// The number of the line that declares the gate of that name.
    pub(crate) fn gate(&self, name: &[u8]) -> Option<usize> {
        self.gates.get(name).copied()
    }

    /// Adds the parameter that the line of that number declares, if it declares one.
    fn add_line(&mut self, number: usize, line: &'a SectionLine) -> Result<(), AllocError> {
        if let SectionLine::Declaration(declaration) = line {
            self.parameters.insert(declaration.name.as_bytes(), number)?;
        }
        Ok(())
    }

    /// Adds the gate that the line of that number declares, if it declares one.
    fn add_gate(&mut self, number: usize, line: &'a GateLine) -> Result<(), AllocError> {
        if let GateLine::Declaration(gate) = line {
            self.gates.insert(gate.name.as_bytes(), number)?;
        }
        Ok(())
    }

    /// Adds the parameters that these lines declare.
    fn add_lines(&mut self, lines: &'a [SectionLine]) -> Result<(), AllocError> {
        for (number, line) in lines.iter().enumerate() {
            self.add_line(number, line)?;
        }
        Ok(())
    }

    /// Adds the gates that these lines declare.
    fn add_gates(&mut self, gates: &'a [GateLine]) -> Result<(), AllocError> {
        for (number, line) in gates.iter().enumerate() {
            self.add_gate(number, line)?;
        }
        Ok(())
    }

    /// Adds the members of a type.
    fn add_members(&mut self, declared: &'a TypeDeclaration) -> Result<(), AllocError> {
        self.add_lines(declared.lines.as_slice())?;
        self.add_gates(declared.gates.as_slice())
    }
}

/// Where a type declares its members.
pub(crate) fn member_lines<'a>(
    alloc: Global,
    declared: &'a TypeDeclaration,
) -> Result<MemberLines<'a>, AllocError> {
    let mut lines = MemberLines {
        parameters: IndexMap::new(alloc),
        gates: IndexMap::new(alloc),
    };
    let done = lines.add_members(declared);
    after(lines, done)
}
