//! The tokens of a text (OMNeT++ Simulation Manual, "NED Language Grammar").

use sim_values::text::Text;
use sim_values::value::Dimension;

/// A word of the language, which is no name but may name a property.
#[derive(Clone, Copy, PartialEq, Eq)]
pub enum Keyword {
    Package,
    Import,
    Simple,
    Module,
    Network,
    Channel,
    ModuleInterface,
    ChannelInterface,
    Extends,
    Like,
    Parameters,
    Volatile,
    Bool,
    Int,
    Text,
    Double,
    Default,
    Gates,
    Input,
    Output,
    Inout,
    Types,
    Submodules,
    If,
    Connections,
    AllowUnconnected,
    For,
    True,
    False,
    This,
    Parent,
    Index,
    ParentIndex,
    Sizeof,
    Exists,
}

/// A mark: the longest that the bytes begin with.
#[derive(Clone, Copy, PartialEq, Eq)]
pub enum Mark {
    Open,
    Close,
    LeftParen,
    RightParen,
    LeftBracket,
    RightBracket,
    Less,
    Greater,
    Comma,
    Semi,
    Colon,
    Dot,
    Equals,
    At,
    Plus,
    Minus,
    Star,
    Slash,
    Percent,
    Caret,
    Bang,
    Tilde,
    Question,
    Bar,
    Ampersand,
    Hash,
    DotDot,
    Equal,
    NotEqual,
    AtMost,
    AtLeast,
    ShiftLeft,
    ShiftRight,
    And,
    Or,
    Xor,
    PlusPlus,
    /// `$i`: the input half of a gate.
    InHalf,
    /// `$o`: its output half.
    OutHalf,
    ArrowRight,
    ArrowLeft,
    ArrowBoth,
}

/// A token of a line. Whatever begins none of the others is a stray byte.
#[derive(Drop)]
pub enum Token {
    Word(Keyword),
    Mark(Mark),
    Name(Text),
    /// A number up to 2^63 - 1.
    Number(u64),
    /// Quantities in a row, summed, in ps, bps or b.
    Quantity(Dimension, u64),
    /// A text in quotes.
    Literal(Text),
    /// A text in quotes with an escape that only a property's body may have.
    OddLiteral,
    /// A text in quotes that goes on after the line's end, which a backslash escapes.
    OpenLiteral,
    /// What may stand nowhere: a text in quotes without its end, or a line that isn't UTF-8.
    Broken,
    /// A byte, number or quantity that is no token, which only a property's body may have.
    Stray(u8),
}
