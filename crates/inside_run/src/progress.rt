//! Keys that are being evaluated.

use crate::scene::Stands;
use inside_keys::check::Check;
use inside_keys::found::{Found, State};
use inside_keys::key::{ChannelAt, Key, Module, What};
use inside_keys::place::{Binding, ExpressionPlace};
use inside_parts::names::Names;
use inside_parts::stack::Stack;
use inside_walk::task::{Doing, Ground, Task};
use inside_wiring::wiring::Carrier;
use ned_trees::declarations::{
    ParametricType, SectionLine, Submodule, SubmoduleBody, TypeDeclaration,
};
use param_eval::evaluation::Evaluation;
use sim_values::text::Text;
use sqlite_items::Boxed;

/// An expression that is evaluated.
#[derive(Drop)]
pub struct Posing<'m> {
    pub evaluation: Evaluation<'m>,
    pub place: ExpressionPlace,
    /// The loop variables in scope, the innermost first.
    pub variables: Stack<Binding>,
    /// What its value has to be.
    pub check: Check,
}

/// What is read of a submodule.
#[derive(Drop)]
pub enum Reading {
    /// A parameter, of one that is no vector.
    Member(Text),
    /// A parameter, of an element of a vector.
    Element(i64, Text),
    /// Whether it is there, and is no vector.
    Exists,
    /// Whether it is there, and has an element of that index.
    ExistsAt(i64),
    /// How many elements it has.
    Size,
}

/// An expression that names the type of a submodule, as it is evaluated.
#[derive(Drop)]
pub struct Choosing<'m> {
    pub evaluation: Evaluation<'m>,
    pub place: ExpressionPlace,
    /// The type in whose text the submodule stands.
    pub declared: &'m TypeDeclaration,
    pub parametric: &'m ParametricType,
    pub body: &'m SubmoduleBody,
}

/// A channel whose parameters are asked for.
#[derive(Drop)]
pub struct Carrying<'m> {
    /// The module that it is in.
    pub site: Module,
    pub channel: ChannelAt,
    /// The parameter whose value it waits for.
    pub name: &'m Text,
    /// The lines of its type after that parameter.
    pub lines: &'m [SectionLine],
    /// What it does by the values so far.
    pub carrier: Carrier,
}

/// An inside that is built.
#[derive(Drop)]
pub struct Walking<'m> {
    pub ground: Ground<'m>,
    pub tasks: Stack<Task<'m>>,
    /// What the value is for that was asked for.
    pub doing: Doing<'m>,
    pub state: State,
}

/// A key that is being evaluated, by the value that it waits for. It goes from hand to hand at each
/// value, so what is large in it stands in boxes.
#[derive(Drop)]
pub enum KeyProgress<'m> {
    /// The type of its module.
    OwnType(Module, What),
    /// The type of the second module, which is around the first and declares it under that name.
    /// The first one's type is wanted.
    TypeAround(Module, Module, Text),
    /// Whether the condition of the submodule holds that the first module is, in the second one, which
    /// is of that type. The first one's type is wanted.
    TypeCondition(Module, Module, &'m TypeDeclaration, &'m Submodule),
    /// How many elements the vector has of which the first module is one, for the same.
    TypeSize(Module, Module, &'m TypeDeclaration, &'m Submodule),
    /// The type of the module around, in which a module was created whose type has that name there,
    /// and is wanted.
    TypePlanned(Text),
    /// The type of the module around, for what it says in the body of the module, which is of that
    /// type.
    BodyAround(Module, What, &'m TypeDeclaration, Text),
    /// The type of the module around, which is this, for the finished size of a gate.
    InsideAround(Module, Stands, Text),
    /// The inside of the module around, whose submodules have these names, for the same.
    Joined(&'m Names, Stands, Text),
    /// Whether the condition of a submodule holds.
    Condition(Module, Text, Reading),
    /// How many elements a vector of submodules has.
    VectorSize(Module, Text, Reading),
    /// The value that it has itself.
    Same,
    /// What an expression names.
    Posed(Boxed<Posing<'m>>),
    /// The same, where it names a type.
    Chosen(Boxed<Choosing<'m>>),
    /// The value of a parameter of a channel.
    Carried(Boxed<Carrying<'m>>),
    /// What an inside needs.
    Inside(Boxed<Walking<'m>>),
    /// It has come to its end.
    Over,
}

/// Where a key has come to.
#[derive(Drop)]
pub enum Moved<'m> {
    /// It needs the value of a key.
    Asks(Key, KeyProgress<'m>),
    Done(Found),
}
