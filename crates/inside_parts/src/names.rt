//! Names that are found by hashing.

ghost use Rattle.std.specs.Prelude.{◌≡◌, [], not, IfOk, OnOk, slice_get};
ghost use Rattle.std.specs.Option.{option_copied};
ghost use Rattle.inside_parts.specs.Names.{is_one, position_of, with_name};

use indexmap::IndexSet;
use sim_values::NoMemory;
use sim_values::text::Text;
use std::alloc::Global;
use std::marker::Model;

/// Names that are found by hashing, which contracts see as their list. Each stands in it once.
#[derive(Drop)]
pub struct Names {
    names: IndexSet<Text>,
}

impl Model for Names {
    ghost use Rattle.std.specs.Prelude.{List, ℕ};

    ghost Value = { List (List ℕ) };

    ghost view = { λ n. n.names.keys };
}

impl Names {
    /// No names.
    pub fn new(alloc: Global) -> Names
        ensures { result ≡ [] }
    {
        Names {
            names: IndexSet::new(alloc),
        }
    }

    /// Adds a name after the others, unless it is one of them; and answers whether it wasn't.
    pub fn push(&mut self, name: Text) -> Result<bool, NoMemory>
        ensures added { IfOk result (λ added. added ≡ not (is_one name self.old)) }
        ensures names { OnOk result (self.new ≡ with_name name self.old) }
    {
        let added = self.names.insert(name)?;
        Ok(added)
    }

    /// The place of a name.
    pub fn position(&self, name: &Text) -> Option<usize>
        ensures { result ≡ position_of name.now self.now }
    {
        self.names.get_index_of(name)
    }

    /// The name at a place.
    pub fn get(&self, place: usize) -> Option<&Text>
        ensures { option_copied result ≡ slice_get self.now place }
    {
        self.names.get_index(place)
    }
}
