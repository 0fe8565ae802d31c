//! What has a value.

ghost use Rattle.std.specs.Prelude.{◌≡◌, ◌++◌, IfOk, OnOk};
ghost use Rattle.inside_keys.specs.Keys as keys;

use crate::turn::LoopTurn;
use itoa::Buffer;
use sim_values::NoMemory;
use sim_values::text::Text;
use std::alloc::{AllocError, Global};

/// A module that is there, or that would be: it needs no id.
#[derive(PartialEq, Eq, Hash, Drop)]
pub struct Module {
    /// The number of the innermost module, of those around it and itself, that was created while
    /// the model ran; 0 where there is none. Modules of one path can be created one after the
    /// other, with other values.
    pub created: u32,
    /// Its full path.
    pub path: Text,
}

/// Where a connection is written: how many items stand after its own in the section of its type,
/// and how many connections after it in its item.
#[derive(Clone, Copy, PartialEq, Eq, Hash)]
pub struct WrittenAt {
    pub items: usize,
    pub lines: usize,
}

/// The channel of a connection, in one of its directions.
#[derive(PartialEq, Eq, Hash, Drop)]
pub struct ChannelAt {
    /// Its full path: that of the gate that messages leave by, and `.channel`.
    pub path: Text,
    pub written: WrittenAt,
    /// The values of the loop variables in scope, the innermost first.
    pub turn: LoopTurn,
}

/// What of a module has a value. Submodules, gates and parameters go by their names.
#[derive(PartialEq, Eq, Hash, Drop)]
pub enum What {
    /// The number of its type.
    Type,
    /// A parameter.
    Param(Text),
    /// Whether the condition of a submodule holds.
    Condition(Text),
    /// How many elements a vector of submodules has.
    VectorSize(Text),
    /// The size that its type, or its own body, gives a gate vector.
    Declared(Text),
    /// The size of a gate vector, once the connections around it are made.
    GateSize(Text),
    /// `sizeof(g)`, `sizeof(sub)`.
    Sizeof(Text),
    /// `exists(sub)`.
    Exists(Text),
    /// `exists(sub[e])`.
    ExistsAt(Text, i64),
    /// `sub.x`.
    Member(Text, Text),
    /// `sub[e].x`.
    Element(Text, i64, Text),
    /// A parameter of a channel in it.
    Channel(ChannelAt, Text),
    /// What a channel in it does to messages.
    Carrier(ChannelAt),
    /// Its submodules and connections, as far as gate sizes need them: without parameters and
    /// channels.
    Joined,
    /// Its whole inside.
    Inside,
}

/// Something of a module.
#[derive(PartialEq, Eq, Hash, Drop)]
pub struct Key {
    pub site: Module,
    pub what: What,
}

/// Adds a name, with an index in brackets where there is one.
pub(crate) fn push_name(
    path: &mut Vec<u8>,
    name: &[u8],
    index: Option<u32>,
) -> Result<(), AllocError>
    ensures { OnOk result (path.new.items ≡ path.old.items ++ keys.own_name name.now index) }
{
    path.extend_from_slice(name)?;
    let Some(index) = index else {
        return Ok(());
    };
    path.extend_from_slice(b"[")?;
    let mut buffer = Buffer::new();
    path.extend_from_slice(buffer.format(index).as_bytes())?;
    path.extend_from_slice(b"]")
}

impl ChannelAt {
    /// The same channel.
    pub fn copy(&self, alloc: Global) -> Result<ChannelAt, NoMemory>
        ensures { IfOk result (λ c. c ≡ self.now) }
    {
        Ok(ChannelAt {
            path: self.path.copy(alloc)?,
            written: self.written,
            turn: self.turn.copy(alloc)?,
        })
    }
}

impl Module {
    /// The same module.
    pub fn copy(&self, alloc: Global) -> Result<Module, NoMemory>
        ensures { IfOk result (λ m. m ≡ self.now) }
    {
        Ok(Module {
            created: self.created,
            path: self.path.copy(alloc)?,
        })
    }

    /// Its submodule of that name, and of that index where it is an element of a vector.
    pub fn child(&self, alloc: Global, name: &Text, index: Option<u32>) -> Result<Module, NoMemory>
        ensures { IfOk result (λ m. m ≡ keys.child self.now name.now index) }
    {
        let mut path = Vec::from_slice(alloc, self.path.as_bytes())?;
        path.push(b'.')?;
        push_name(&mut path, name.as_bytes(), index)?;
        Ok(Module {
            created: self.created,
            path: Text::from_vec(path),
        })
    }

    /// Something of it.
    pub fn key(&self, alloc: Global, what: What) -> Result<Key, NoMemory>
        ensures { IfOk result (λ k. k ≡ keys.key self.now what) }
    {
        Ok(Key {
            site: self.copy(alloc)?,
            what,
        })
    }
}
