//! What entries say.

use ini_pattern::Pattern;
use ned_trees::expressions::Expression;
use ned_trees::modes::Mode;
use sim_values::text::Text;
use sqlite_items::Items;

/// The value of a parameter entry.
#[derive(Drop)]
pub enum EntryValue {
    /// The word `default`: the value is the one of the NED text.
    Default,
    /// A constant expression.
    Given(Expression),
}

/// A value for the parameters, or the submodule types, whose path the pattern matches.
#[derive(Drop)]
pub struct ParameterEntry {
    /// The whole key.
    pub pattern: Pattern,
    pub value: EntryValue,
}

/// An item of the per-object option `result-recording-modes`.
#[derive(Clone, Copy, Debug, PartialEq, Eq)]
pub enum ModeItem {
    /// `default`: the modes that the statistic names without a `?`.
    Default,
    /// `all`: all modes that the statistic names.
    All,
    /// A mode: these are recorded.
    Only(Mode),
    /// `+` and a mode: this one too.
    Plus(Mode),
    /// `-` and a mode: this one not.
    Minus(Mode),
}

/// What a per-object option says.
#[derive(Debug, Drop)]
pub enum ObjectOption {
    /// `result-recording-modes`.
    Modes(Items<ModeItem>),
    /// `scalar-recording`, `vector-recording` or `statistic-recording`: whether it is on.
    Recording(bool),
    /// Another one, without effect.
    Other,
}

/// A per-object option for the objects whose path the pattern matches.
#[derive(Drop)]
pub struct ObjectEntry {
    /// The whole key.
    pub pattern: Pattern,
    /// The last part of the key: the option's name.
    pub option: Text,
    pub says: ObjectOption,
}

/// What an entry says.
#[derive(Drop)]
pub enum EntryMeaning {
    /// The option `network`: the name of the network to be run, with its package or without.
    Network(Text),
    /// The option `extends`: the names of the configurations whose entries follow the own ones.
    Extends(Items<Text>),
    /// The option `sim-time-limit`: the time, in picoseconds, after which no event is executed.
    TimeLimit(u64),
    /// Another option, without effect.
    Other,
    /// A per-object option.
    Object(ObjectEntry),
    /// The type of submodules, where the last part of the key is `typename`.
    Type(ParameterEntry),
    /// A value for parameters.
    Parameter(ParameterEntry),
}
