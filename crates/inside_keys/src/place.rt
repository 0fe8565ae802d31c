//! What references mean.

ghost use Rattle.std.specs.Prelude.{◌≡◌, IfOk};
ghost use Rattle.std.specs.Option.{option_copied};
ghost use Rattle.param_eval.specs.References.{reference_of};
ghost use Rattle.inside_keys.specs.Places as places;

use crate::key::{ChannelAt, Key, Module, What};
use ned_trees::expressions::Scope;
use param_eval::names::Name;
use sim_values::NoMemory;
use sim_values::text::Text;
use sim_values::value::Value;
use std::alloc::Global;

/// The section in which an expression stands.
#[derive(Clone, Copy, PartialEq, Eq)]
pub enum Section {
    /// The parameter section of the module's type, or the ini text.
    OfParameters,
    /// What the module's type says of its gates and its inside: sizes of gates, submodules,
    /// connections.
    OfInside,
    /// The body of the submodule that the module is.
    OfBody,
    /// The block of a channel in the module.
    OfBlock,
    /// The parameter section of the type of a channel in the module, or the ini text.
    OfChannel,
}

/// A loop variable, and its value in this turn.
#[derive(Drop)]
pub struct Binding {
    pub variable: Text,
    pub value: i64,
}

/// Where an expression stands.
#[derive(Drop)]
pub struct ExpressionPlace {
    /// The module of which it says something.
    pub own: Module,
    /// The module around that one; there is none around the network.
    pub around: Option<Module>,
    pub section: Section,
    /// The module's index, where it is an element of a vector.
    pub index: Option<i64>,
    /// The index of the module around it.
    pub around_index: Option<i64>,
    /// The channel in that module of which it says something instead.
    pub channel: Option<ChannelAt>,
}

/// What a reference means.
#[derive(Drop)]
pub enum Meaning {
    /// This value.
    Is(Value),
    /// The value of this key.
    Of(Key),
    /// There is no such thing.
    Nothing,
}

/// Something of a module, where there is one.
fn of(alloc: Global, hearer: Option<&Module>, what: What) -> Result<Meaning, NoMemory>
    ensures { IfOk result (λ m. m ≡ places.of (option_copied hearer.entry) what) }
{
    match hearer {
        Some(hearer) => Ok(Meaning::Of(hearer.key(alloc, what)?)),
        None => Ok(Meaning::Nothing),
    }
}

/// An index, where there is one.
fn indexed(index: Option<i64>) -> Meaning
    ensures { result ≡ places.indexed index }
{
    match index {
        Some(index) => Meaning::Is(Value::Whole(index)),
        None => Meaning::Nothing,
    }
}

/// The value of the loop variable of that name, the innermost of these.
pub fn variable_in(scope: &[Binding], name: &Text) -> Option<i64>
    ensures { result ≡ places.variable_in scope.now name.now }
{
    for binding in scope {
        if binding.variable.is(name.as_bytes()) {
            return Some(binding.value);
        }
    }
    None
}

impl ExpressionPlace {
    /// The module whose names bare names are.
    fn hearer(&self) -> Option<&Module>
        ensures { option_copied result ≡ places.hearer self.now }
    {
        match self.section {
            Section::OfParameters | Section::OfInside | Section::OfBlock => Some(&self.own),
            Section::OfBody => self.around.as_ref(),
            Section::OfChannel => None,
        }
    }

    /// The module of whose gates and vectors `sizeof` tells.
    fn sizer(&self) -> Option<&Module>
        ensures { option_copied result ≡ places.sizer self.now }
    {
        match self.section {
            Section::OfParameters | Section::OfChannel => None,
            Section::OfInside | Section::OfBlock => Some(&self.own),
            Section::OfBody => self.around.as_ref(),
        }
    }

    /// The channel's own parameter of that name.
    fn of_channel(&self, alloc: Global, name: &Text) -> Result<Meaning, NoMemory>
        ensures { IfOk result (λ m. m ≡ places.of_channel self.now.own self.now.channel name.now) }
    {
        match &self.channel {
            Some(channel) => {
                let what = What::Channel(channel.copy(alloc)?, name.copy(alloc)?);
                of(alloc, Some(&self.own), what)
            }
            None => Ok(Meaning::Nothing),
        }
    }

    /// What a bare name means.
    fn bare(&self, alloc: Global, name: &Text) -> Result<Meaning, NoMemory>
        ensures { IfOk result (λ m. m ≡ places.bare self.now name.now) }
    {
        match self.section {
            Section::OfChannel => self.of_channel(alloc, name),
            _ => of(alloc, self.hearer(), What::Param(name.copy(alloc)?)),
        }
    }

    /// What `this` before a name means.
    fn this(&self, alloc: Global, name: &Text) -> Result<Meaning, NoMemory>
        ensures { IfOk result (λ m. m ≡ places.this self.now name.now) }
    {
        match self.section {
            Section::OfBlock | Section::OfChannel => self.of_channel(alloc, name),
            _ => of(alloc, Some(&self.own), What::Param(name.copy(alloc)?)),
        }
    }

    /// What `parent` before a name means.
    fn parent(&self, alloc: Global, name: &Text) -> Result<Meaning, NoMemory>
        ensures { IfOk result (λ m. m ≡ places.parent self.now name.now) }
    {
        let what = What::Param(name.copy(alloc)?);
        match self.section {
            Section::OfBlock | Section::OfChannel => of(alloc, Some(&self.own), what),
            _ => of(alloc, self.around.as_ref(), what),
        }
    }

    /// What a reference means in an expression that stands there.
    pub fn meant(&self, alloc: Global, name: Name<'_>) -> Result<Meaning, NoMemory>
        ensures { IfOk result (λ m. m ≡ places.meant self.now (reference_of name.entry)) }
    {
        match name {
            Name::Own(x) => self.bare(alloc, x),
            Name::Scoped(Scope::This, x) => self.this(alloc, x),
            Name::Scoped(Scope::Parent, x) => self.parent(alloc, x),
            Name::Member(sub, x) => {
                of(
                    alloc,
                    self.hearer(),
                    What::Member(sub.copy(alloc)?, x.copy(alloc)?),
                )
            }
            Name::Element(sub, index, x) => {
                let what = What::Element(sub.copy(alloc)?, index, x.copy(alloc)?);
                of(alloc, self.hearer(), what)
            }
            Name::Index => Ok(indexed(self.index)),
            Name::ParentIndex => Ok(indexed(self.around_index)),
            Name::Sizeof(g) => of(alloc, self.sizer(), What::Sizeof(g.copy(alloc)?)),
            Name::Exists(sub) => of(alloc, self.hearer(), What::Exists(sub.copy(alloc)?)),
            Name::ExistsAt(sub, index) => {
                of(
                    alloc,
                    self.hearer(),
                    What::ExistsAt(sub.copy(alloc)?, index),
                )
            }
        }
    }

    /// What a reference means there under loop variables, which hide parameters.
    pub fn meant_under(
        &self,
        alloc: Global,
        scope: &[Binding],
        name: Name<'_>,
    ) -> Result<Meaning, NoMemory>
        ensures { IfOk result
            (λ m. m ≡ places.meant_under scope.now self.now (reference_of name.entry)) }
    {
        if let Name::Own(x) = name {
            if let Some(number) = variable_in(scope, x) {
                return Ok(Meaning::Is(Value::Whole(number)));
            }
        }
        self.meant(alloc, name)
    }
}
