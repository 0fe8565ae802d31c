//! What a NED text declares, as values that the later layers use.

use crate::connections::ConnectionSection;
use crate::expressions::Expression;
use crate::modes::Mode;
use sim_values::text::Text;
use sim_values::value::Dimension;
use sqlite_items::Items;

/// A value that a parameter is given.
#[derive(Drop)]
pub enum ParameterValue {
    /// `= e`: it can't be changed by the ini text.
    Fixed(Expression),
    /// `= default(e)`: it counts where the ini text gives none.
    Default(Expression),
}

/// The word that declares a parameter.
#[derive(Clone, Copy, Debug, PartialEq, Eq)]
pub enum ParameterWord {
    Bool,
    Int,
    Text,
    Double,
}

/// A parameter that a section declares.
#[derive(Drop)]
pub struct Declaration {
    pub name: Text,
    pub word: ParameterWord,
    /// The dimension of its first `@unit(u)` with a known unit u.
    pub unit: Option<Dimension>,
    pub value: Option<ParameterValue>,
}

/// A line without a word: a value for a parameter that is declared elsewhere.
#[derive(Drop)]
pub struct Assignment {
    pub name: Text,
    pub value: Option<ParameterValue>,
}

/// A mode that a statistic names.
#[derive(Clone, Copy, Debug, PartialEq, Eq)]
pub struct RecordedMode {
    pub mode: Mode,
    /// Written with a `?`: recorded only where it is asked for.
    pub optional: bool,
}

/// `@statistic[name](source=..;record=..)`.
#[derive(Drop)]
pub struct Statistic {
    pub name: Text,
    /// The signal that it hears; its own name where no source is written.
    pub source: Text,
    /// In the order of the text; none where no `record` is written.
    pub modes: Items<RecordedMode>,
}

/// A line of a type's parameter section, or of the body of a submodule or a channel, where no
/// property has an effect.
#[derive(Drop)]
pub enum SectionLine {
    Declaration(Declaration),
    Assignment(Assignment),
    Statistic(Statistic),
    /// `@class(Name)`.
    Class(Text),
    /// A property without effect.
    Ignored,
}

/// The way that messages take through a gate.
#[derive(Clone, Copy, Debug, PartialEq, Eq)]
pub enum GateDirection {
    Input,
    Output,
    /// Both: a gate of each direction.
    Inout,
}

/// Whether a gate is a single one or a vector of gates.
#[derive(Drop)]
pub enum GateSize {
    Single,
    /// `[]`: a vector whose size is given elsewhere.
    Open,
    /// `[e]`: a vector of that size.
    Sized(Expression),
}

/// A gate that a type declares.
#[derive(Drop)]
pub struct GateDeclaration {
    pub name: Text,
    pub direction: GateDirection,
    pub size: GateSize,
    /// It may stay unconnected: `@loose`, or `@directIn`.
    pub loose: bool,
}

/// A line without a direction: more of a gate that is declared elsewhere.
#[derive(Drop)]
pub struct GateRefinement {
    pub name: Text,
    /// `[e]`: the size of the vector.
    pub size: Option<Expression>,
    /// It may stay unconnected: `@loose`, or `@directIn`.
    pub loose: bool,
}

/// A line of a gate section.
#[derive(Drop)]
pub enum GateLine {
    Declaration(GateDeclaration),
    Refinement(GateRefinement),
}

/// The type of a submodule.
#[derive(Drop)]
pub enum SubmoduleType {
    /// By its name.
    Named(Text),
    /// `<..> like NAME`: which type of that interface it is, a value says.
    Like(ParametricType),
}

/// `<..> like NAME`.
#[derive(Drop)]
pub struct ParametricType {
    /// `<e>` or `<default(e)>`; none for `<>`.
    pub given: Option<ParameterValue>,
    /// The interface that the type keeps.
    pub interface: Text,
}

/// The body of a submodule, which says more of its parameters and gates.
#[derive(Drop)]
pub struct SubmoduleBody {
    /// Declarations, assignments and ignored properties.
    pub lines: Items<SectionLine>,
    pub gates: Items<GateLine>,
}

/// A submodule, as declared.
pub struct Submodule {
    pub name: Text,
    /// `[e]`: the size of a vector of submodules.
    pub size: Option<Expression>,
    pub submodule_type: SubmoduleType,
    /// `if e`.
    pub condition: Option<Expression>,
    /// One without lines and gates says the same as none.
    pub body: SubmoduleBody,
}

// Written out, so that a crate which drops one need not prove what that does.
impl Drop for Submodule {
    fn drop(self) {
        let Submodule {
            name: _,
            size: _,
            submodule_type: _,
            condition: _,
            body: _,
        } = self;
    }
}

/// The word that declares a type.
#[derive(Clone, Copy, Debug, PartialEq, Eq)]
pub enum TypeKind {
    Simple,
    Module,
    Network,
    Channel,
    ModuleInterface,
    ChannelInterface,
}

/// A type, as declared.
pub struct TypeDeclaration {
    pub kind: TypeKind,
    pub name: Text,
    /// The type that it extends; none for an interface.
    pub base: Option<Text>,
    /// The interfaces that it keeps: those after `like`, and after `extends` where it is an
    /// interface itself.
    pub interfaces: Items<Text>,
    pub lines: Items<SectionLine>,
    pub gates: Items<GateLine>,
    pub submodules: Items<Submodule>,
    pub connections: ConnectionSection,
}

// Written out, so that a crate which drops one need not prove what that does.
impl Drop for TypeDeclaration {
    fn drop(self) {
        let TypeDeclaration {
            kind: _,
            name: _,
            base: _,
            interfaces: _,
            lines: _,
            gates: _,
            submodules: _,
            connections: _,
        } = self;
    }
}

/// A type, with those that its `types:` section declares.
#[derive(Drop)]
pub struct NestedType {
    pub declared: TypeDeclaration,
    /// The types that are declared within it, in order; none but in a module or a network.
    pub types: Items<NestedType>,
}

/// The declarations of a NED text, in order.
#[derive(Drop)]
pub struct NedFile {
    pub types: Items<NestedType>,
}
