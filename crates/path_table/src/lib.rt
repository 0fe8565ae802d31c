//! The modules that were created, found by their paths.
#![tactic(auto)]

mod groups;

ghost use Rattle.std.specs.Prelude.{◌≡◌, ◌<◌, ◌∷◌, ◌++◌, [], OnOk, OnErr, false, length, take, true};
ghost use Rattle.std.specs.Option.{option_copied};
ghost use Rattle.path_table.specs.Paths.{first_living, path_at, with_dead};
ghost use Rattle.path_table.specs.declared.ModuleAt.{ModuleAt as module_type};

use crate::groups::{Group, add_number, drop_number, find_first, group_of, settle, start_over};
use sim_values::NoMemory;
use sim_values::text::Text;
use std::alloc::Global;
use std::collections::HashMap;
use std::marker::Model;

/// A module that was created: its path, and whether it is dead.
#[derive(Drop)]
pub struct ModuleAt {
    pub path: Text,
    pub is_dead: bool,
}

/// Modules in the order in which they were created. The first one of a path that lives is found in
/// time that doesn't grow with their number. Contracts see their list.
pub struct PathTable {
    modules: Vec<ModuleAt>,
    /// The number of the group of a path.
    groups: HashMap<Text, usize>,
    /// The modules of one path each.
    members: Vec<Group>,
}

// Written out, so that a crate which drops one need not prove what that does.
impl Drop for PathTable {
    fn drop(self) {
        let PathTable {
            modules: _,
            groups: _,
            members: _,
        } = self;
    }
}

impl Model for PathTable {
    ghost use Rattle.std.specs.HashMap.{get};
    ghost use Rattle.std.specs.Prelude.{List};
    ghost use Rattle.std.specs.Str.{bytes_eq};
    ghost use Rattle.path_table.specs.Groups.{AreGrouped};
    ghost use Rattle.path_table.specs.declared.ModuleAt.{ModuleAt};

    ghost Value = { List ModuleAt };

    ghost view = { λ t. t.modules.items };

    ghost invariant = { λ t. AreGrouped t.modules.items (get bytes_eq t.groups) t.members.items };
}

impl PathTable {
    /// No module was created.
    pub fn new(alloc: Global) -> PathTable
        ensures { result ≡ [] }
    {
        PathTable {
            modules: Vec::new(alloc),
            groups: HashMap::new(alloc),
            members: Vec::new(alloc),
        }
    }

    /// How many were created.
    pub fn len(&self) -> usize
        ensures { result ≡ length self.now }
    {
        self.modules.len()
    }

    /// The path of the module of that number, where there is one.
    pub fn path(&self, number: usize) -> Option<&Text>
        ensures { option_copied result ≡ path_at number self.now }
    {
        match self.modules.get(number) {
            Some(found) => Some(&found.path),
            None => None,
        }
    }

    /// One more was created, and it lives. Answers `NoMemory` if memory runs out: all is as it was
    /// then.
    pub fn push(&mut self, alloc: Global, path: Text) -> Result<(), NoMemory>
        ensures ok { OnOk result (self.new
            ≡ self.old ++ (record { path = path; is_dead = false }) ∷ []) }
        ensures err { OnErr result (self.new ≡ self.old) }
    {
        let number = self.len();
        let place = group_of(alloc, &mut self.groups, &mut self.members, &path)?;
        add_number(&mut self.members, place, number)?;
        let created = ModuleAt {
            path,
            is_dead: false,
        };
        match self.modules.push(created) {
            Ok(_) => Ok(()),
            Err(failed) => {
                drop_number(&mut self.members, place);
                Err(failed.into())
            }
        }
    }

    /// The module of that number is dead. It takes no memory.
    pub fn bury(&mut self, number: usize)
        requires { number < length self.old }
        ensures { self.new ≡ with_dead self.old number true }
    {
        self.modules[number].is_dead = true;
        settle(
            &self.groups,
            self.modules.as_slice(),
            &mut self.members,
            number,
        );
    }

    /// The module of that number lives again. It takes no memory.
    pub fn revive(&mut self, number: usize)
        requires { number < length self.old }
        ensures { self.new ≡ with_dead self.old number false }
    {
        start_over(
            &self.groups,
            self.modules.as_slice(),
            &mut self.members,
            number,
        );
        self.modules[number].is_dead = false;
    }

    /// Forgets the last one.
    fn pop(&mut self)
        requires { 0 < length self.old }
        ensures { (last : module_type) × (self.old ≡ self.new ++ last ∷ []) }
    {
        let ModuleAt { path, is_dead: _ } = self.modules.pop().unwrap();
        match self.groups.get(&path) {
            Some(place) => drop_number(&mut self.members, *place),
            None => {}
        }
    }

    /// Forgets the last ones, so that as many are left, the first ones. Where there are no more,
    /// all stay. It takes no memory.
    pub fn cut(&mut self, left: usize)
        ensures { self.new ≡ take left self.old }
    {
        while self.len() > left {
            self.pop();
        }
    }

    /// The first module of that path that lives, where there is one.
    pub fn first(&self, path: &Text) -> Option<usize>
        ensures { result ≡ first_living path.now self.now }
    {
        match self.groups.get(path) {
            Some(place) => find_first(self.modules.as_slice(), self.members.as_slice(), *place),
            None => None,
        }
    }
}
