//! What is left to be done of an inside.

use inside_keys::found::{Found, State};
use inside_keys::key::{Key, Module};
use inside_keys::place::ExpressionPlace;
use inside_parts::gates::{TypeGate, TypeGates};
use inside_parts::names::Names;
use inside_parts::parts::NamedGate;
use inside_wiring::wiring::{Carrier, GateId};
use ned_trees::connections::{Arrow, Clause, Connection, ConnectionItem, ConnectionLine};
use ned_trees::declarations::{SectionLine, Submodule, TypeDeclaration};
use ned_trees::expressions::Expression;
use param_eval::evaluation::{Evaluation, EvaluationStep};
use sim_values::text::Text;

/// The compound module whose inside is built, and what its names can mean.
#[derive(Drop)]
pub struct Ground<'m> {
    pub site: Module,
    /// Where the expressions of its type stand that speak of its inside.
    pub place: ExpressionPlace,
    /// The names of the submodules that its type declares, in their order.
    pub submodules: &'m Names,
    /// All flat types.
    pub types: &'m [TypeDeclaration],
    /// The gates of each of these.
    pub gates: &'m [TypeGates],
    /// With the values of parameters, or only as far as gate sizes need it.
    pub is_whole: bool,
}

/// Which sizes of gates are asked for.
#[derive(Clone, Copy)]
pub enum Sort {
    /// The finished ones of the module's own gates.
    Own,
    /// The declared ones of a submodule's gates.
    Declared,
}

/// What loops and conditions stand around.
#[derive(Clone, Copy)]
pub enum Body<'m> {
    Connections(&'m [ConnectionLine]),
    Connection(&'m Connection),
}

/// An end of a connection.
#[derive(Clone, Copy)]
pub enum Side {
    Left,
    /// The left end has taken this gate.
    Right(GateId),
}

/// What is left to be done, each once those above it on the stack are done.
#[derive(Drop)]
pub enum Task<'m> {
    /// The parameters that these lines declare are asked for, of a submodule.
    Parameters(Module, &'m [SectionLine]),
    /// The sizes of these gates of the module or of a submodule are asked for.
    Gates(Module, Sort, &'m [TypeGate]),
    /// A line of a submodule speaks of that name, and it is no gate, or is given a size and is no
    /// gate vector: its size is asked for, and refused.
    Misplaced(Module, &'m Text),
    /// So many elements of a vector are left, of so many.
    Elements(&'m Submodule, u32, u32),
    Submodules(&'m [Submodule]),
    Items(&'m [ConnectionItem]),
    Connections(&'m [ConnectionLine]),
    Clauses(&'m [Clause], Body<'m>),
    /// A loop: its variable, the number that this has now, the last one; and what is done in each
    /// turn.
    Turns(&'m Text, i64, i64, &'m [Clause], Body<'m>),
    End(&'m Connection, Side),
}

/// What is done with the value of a key.
#[derive(Clone, Copy)]
pub enum Wait<'m> {
    Parameter,
    Gate,
    Condition(&'m Submodule),
    Size(&'m Submodule),
    /// It is the type of the submodule, of that index where it is an element of a vector.
    Type(&'m Submodule, Option<u32>),
}

/// What is done with the value of an expression.
#[derive(Clone, Copy)]
pub enum Want<'m> {
    If(&'m [Clause], Body<'m>),
    /// The first number of a loop: the last is evaluated next.
    First(&'m Text, &'m Expression, &'m [Clause], Body<'m>),
    /// The last number of a loop, whose first is this.
    Last(&'m Text, i64, &'m [Clause], Body<'m>),
    /// The index of the submodule of that name, which an end names.
    Part(&'m Connection, Side, &'m Text),
    /// The index of a gate vector.
    Index(&'m Connection, Side, NamedGate),
}

/// What is done with what a channel does: two gates are joined.
#[derive(Clone, Copy)]
pub enum Carry {
    /// From the gate of the left end, or of the one that messages leave by.
    Onwards(Arrow, GateId, GateId),
    /// Back, where this carries messages from the gate of the left end.
    Back(Arrow, GateId, GateId, Carrier),
}

/// What is done next.
#[derive(Drop)]
pub enum Next<'m> {
    /// The task on top.
    Go(State),
    /// The value of a key is asked for.
    Ask(Key, Wait<'m>, State),
    /// An expression has come to this.
    At(Evaluation<'m>, EvaluationStep<'m>, Want<'m>, State),
    /// What a channel does is asked for.
    Carry(Key, Carry, State),
}

/// What a value is asked for.
#[derive(Drop)]
pub enum Doing<'m> {
    Key(Wait<'m>),
    Expression(Evaluation<'m>, Want<'m>),
    Carrier(Carry),
}

/// Where building has stopped.
#[derive(Drop)]
pub enum Halt<'m> {
    Asks(Key, Doing<'m>, State),
    Done(Found),
}
