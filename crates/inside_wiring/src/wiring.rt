//! The connections of a compound module while they are made: what is connected, how large the gate
//! vectors are, and the first free gates.

ghost use Rattle.std.specs.Prelude.{◌≡◌, ◌<◌, ◌≤◌, ◌+◌, ◌++◌, ◌∷◌, [], ℕ, IfOk, Option};
ghost use Rattle.std.specs.Prelude.{slice_index, slice_set, length, Some, false};
ghost use Rattle.std.specs.Option.{option_copied};
ghost use Rattle.inside_wiring.specs.Wired.{Wired, key, link_from, link_to, is_free, is_open};
ghost use Rattle.inside_wiring.specs.Wired.{next_index};

use inside_parts::stack::Stack;
use sim_values::NoMemory;
use std::alloc::Global;
use std::collections::HashMap;
use std::marker::Model;

/// A gate: the number of its part, the number of its gate vector among those of the whole inside,
/// and its index.
#[derive(Clone, Copy)]
pub struct GateId {
    pub part: usize,
    pub vector: usize,
    pub index: u32,
}

/// What a connection takes of a gate: the half that messages leave by, the half that they come in
/// by, or both halves.
#[derive(Clone, Copy, PartialEq, Eq)]
pub enum Role {
    Source,
    Target,
    Both,
}

/// The three kinds of channels (OMNeT++ Simulation Manual, "Channels").
#[derive(Clone, Copy, PartialEq, Eq)]
pub enum ChannelKind {
    Ideal,
    Delay,
    Datarate,
}

/// What carries messages along a connection.
#[derive(Clone, Copy, PartialEq, Eq)]
pub struct Carrier {
    pub kind: ChannelKind,
    /// In picoseconds, 0 of an ideal channel.
    pub delay: u64,
    /// In bits per second; 0: a transmission takes no time.
    pub datarate: u64,
    /// It loses each message.
    pub disabled: bool,
}

/// One direction of a connection.
#[derive(Clone, Copy)]
pub struct Link {
    pub from: GateId,
    pub to: GateId,
    pub carrier: Carrier,
}

/// The sizes of the gate vectors and the connections made so far, with tables of what is connected
/// and hints to the first free gates.
#[derive(Drop)]
pub struct Wiring {
    sizes: Vec<u32>,
    links: Stack<Link>,
    sources: HashMap<(usize, u32), Link>,
    targets: HashMap<(usize, u32), Link>,
    source_hints: HashMap<usize, u32>,
    target_hints: HashMap<usize, u32>,
    both_hints: HashMap<usize, u32>,
}

impl Model for Wiring {
    ghost use Rattle.inside_wiring.specs.Wired.{Wired};

    ghost Value = { Wired };

    ghost use Rattle.inside_wiring.specs.Indexed.{IsIndexed};

    ghost view = { λ w. record { sizes = w.sizes.items; links = w.links } };

    ghost invariant = { λ w. IsIndexed w.links w.sources w.targets w.source_hints w.target_hints
        w.both_hints };
}

fn key_of(id: GateId) -> (usize, u32)
    ensures { result ≡ key id }
{
    (id.vector, id.index)
}

impl Wiring {
    /// No connections yet.
    pub fn new(alloc: Global, sizes: Vec<u32>) -> Wiring
        ensures { result ≡ record { sizes = sizes.items; links = [] } }
    {
        Wiring {
            sizes,
            links: Stack::new(alloc),
            sources: HashMap::new(alloc),
            targets: HashMap::new(alloc),
            source_hints: HashMap::new(alloc),
            target_hints: HashMap::new(alloc),
            both_hints: HashMap::new(alloc),
        }
    }

    /// How many gate vectors there are.
    pub fn count(&self) -> usize
        ensures { result ≡ length self.now.sizes }
    {
        self.sizes.len()
    }

    /// One more gate vector of that size, at the end.
    pub fn add(self, size: u32) -> Result<Wiring, NoMemory>
        ensures { IfOk result
            (λ w. w ≡ record { sizes = self.sizes ++ size ∷ []; links = self.links }) }
    {
        let Wiring {
            mut sizes,
            links,
            sources,
            targets,
            source_hints,
            target_hints,
            both_hints,
        } = self;
        sizes.push(size)?;
        Ok(Wiring {
            sizes,
            links,
            sources,
            targets,
            source_hints,
            target_hints,
            both_hints,
        })
    }

    /// The present size of a gate vector.
    pub fn size(&self, vector: usize) -> u32
        requires { vector < length self.now.sizes }
        ensures { result ≡ slice_index self.now.sizes vector }
    {
        self.sizes[vector]
    }

    /// Extends a gate vector by one.
    pub fn extend(&mut self, vector: usize)
        requires known { vector < length self.old.sizes }
        requires room { slice_index self.old.sizes vector < 65536 }
        ensures { self.new ≡ record {
          sizes = slice_set self.old.sizes vector
              (slice_index self.old.sizes vector + 1);
          links = self.old.links;
        } }
    {
        self.sizes[vector] += 1;
    }

    /// The connection that leads away from a gate of a vector.
    pub fn link_from(&self, vector: usize, index: u32) -> Option<Link>
        ensures { result ≡ link_from self.now.links (vector, index) }
    {
        self.sources.get(&(vector, index)).copied()
    }

    /// The connection that leads to a gate of a vector.
    pub fn link_to(&self, vector: usize, index: u32) -> Option<Link>
        ensures { result ≡ link_to self.now.links (vector, index) }
    {
        self.targets.get(&(vector, index)).copied()
    }

    /// Whether a gate of a vector isn't connected yet.
    pub fn is_free(&self, role: Role, vector: usize, index: u32) -> bool
        ensures { result ≡ is_free self.now.links role (vector, index) }
    {
        match role {
            Role::Source => self.link_from(vector, index).is_none(),
            Role::Target => self.link_to(vector, index).is_none(),
            Role::Both => {
                self.link_from(vector, index).is_none() && self.link_to(vector, index).is_none()
            }
        }
    }

    /// Adds a connection. After a refusal they are all dropped.
    pub fn connect(self, link: Link) -> Result<Wiring, NoMemory>
        ensures { IfOk result (λ w. w ≡ record { sizes = self.sizes; links = link ∷ self.links }) }
    {
        let Wiring {
            sizes,
            mut links,
            mut sources,
            mut targets,
            source_hints,
            target_hints,
            both_hints,
        } = self;
        links.push(link)?;
        sources.insert(key_of(link.from), link)?;
        targets.insert(key_of(link.to), link)?;
        Ok(Wiring {
            sizes,
            links,
            sources,
            targets,
            source_hints,
            target_hints,
            both_hints,
        })
    }

    /// An index of a gate vector below which nothing is free.
    fn hint(&self, role: Role, vector: usize) -> u32
        ensures { (i : ℕ) → i < result → is_free self.now.links role (vector, i) ≡ false }
    {
        let hints = match role {
            Role::Source => &self.source_hints,
            Role::Target => &self.target_hints,
            Role::Both => &self.both_hints,
        };
        hints.get(&vector).copied().unwrap_or(0)
    }

    /// Whether a gate of a vector can be taken beside the other end of the same connection.
    pub fn is_open(&self, other: Option<GateId>, role: Role, vector: usize, index: u32) -> bool
        ensures { result ≡ is_open self.now.links other role (vector, index) }
    {
        let apart = match other {
            None => true,
            Some(taken) => key_of(taken) != (vector, index),
        };
        apart && self.is_free(role, vector, index)
    }

    /// `++`: the least index of a gate vector that is free, else its size.
    pub fn next_index(&self, other: Option<GateId>, role: Role, vector: usize) -> u32
        requires { vector < length self.now.sizes }
        ensures least { result ≡ next_index self.now other role vector }
        ensures below { (i : ℕ) → i < result
            → is_open self.now.links other role (vector, i) ≡ false }
    {
        let size = self.size(vector);
        for index in self.hint(role, vector)..size {
            if self.is_open(other, role, vector, index) {
                return index;
            }
        }
        size
    }

    /// Raises a hint.
    fn raise(self, role: Role, vector: usize, index: u32) -> Result<Wiring, NoMemory>
        requires { (i : ℕ) → i < index → is_free self.links role (vector, i) ≡ false }
        ensures { IfOk result (λ w. w ≡ self) }
    {
        let Wiring {
            sizes,
            links,
            sources,
            targets,
            mut source_hints,
            mut target_hints,
            mut both_hints,
        } = self;
        match role {
            Role::Source => source_hints.insert(vector, index)?,
            Role::Target => target_hints.insert(vector, index)?,
            Role::Both => both_hints.insert(vector, index)?,
        };
        Ok(Wiring {
            sizes,
            links,
            sources,
            targets,
            source_hints,
            target_hints,
            both_hints,
        })
    }

    /// Raises the hint of a gate vector to the index that `++` took, unless the other end is in the
    /// same vector.
    pub fn note_next(
        self,
        other: Option<GateId>,
        role: Role,
        id: GateId,
    ) -> Result<Wiring, NoMemory>
        requires { (i : ℕ) → i < id.index → is_open self.links other role (id.vector, i) ≡ false }
        ensures { IfOk result (λ w. w ≡ self) }
    {
        match other {
            Some(taken) if taken.vector == id.vector => Ok(self),
            _ => self.raise(role, id.vector, id.index),
        }
    }
}
