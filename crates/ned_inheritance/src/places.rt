//! Where types break a rule.

ghost use Rattle.std.specs.Prelude.{◌≡◌};
ghost use Rattle.ned_inheritance.specs.Places.{placed};

/// What of a type breaks a rule. Numbers count from 0. Lines, gates, submodules and interfaces are
/// those of the flat type where the rule speaks of flat types: it has those of its bases before its
/// own.
#[derive(Clone, Copy)]
pub enum Member {
    /// The type itself: its name, or that it stands within a network.
    Whole,
    /// What it extends.
    Base,
    /// The interface of that number.
    Interface(usize),
    /// The type of the submodule of that number, or its interface after `like`.
    Submodule(usize),
    /// The name of a channel: of the item of connections of the first number, its connection of the
    /// second.
    Channel(usize, usize),
    /// The line of that number declares a parameter that one before it declares.
    DeclaredAgain(usize),
    /// It gives a value to a parameter that no line declares.
    Undeclared(usize),
    /// It gives a value to a parameter that has a fixed one.
    GivenAgain(usize),
    /// The line of gates of that number declares one that a line before it declares.
    GateAgain(usize),
    /// The submodule of that number has the name of one before it.
    SubmoduleAgain(usize),
    /// The body of the first number has a line of the second that can't stand over the lines of the
    /// submodule's type.
    Unfit(usize, usize),
    /// The body of the first number has a line of the second that gives a value to a parameter with
    /// a fixed one in the body.
    UnfitAgain(usize, usize),
    /// The body of the first number has a line of gates of the second that declares one.
    BodyGate(usize, usize),
    /// Of the item of connections of the first number the connection of the second names no channel
    /// as its channel.
    OtherChannel(usize, usize),
    /// The block of its channel has a line of the third number that can't stand over the lines of
    /// the channel.
    UnfitBlock(usize, usize, usize),
    /// The block of its channel has a line of the third number that gives a value to a parameter
    /// with a fixed one in the block.
    UnfitBlockAgain(usize, usize, usize),
    /// The type lacks the parameter that the interface of the first number declares in its line of
    /// the second.
    LacksParameter(usize, usize),
    /// It lacks the gate that the interface of the first number declares in its line of gates of
    /// the second.
    LacksGate(usize, usize),
}

/// The place of a fault: the type of that number among the types of the files, and what of it.
#[derive(Clone, Copy)]
pub struct FaultPlace {
    pub number: usize,
    pub member: Member,
}

/// The place of that member of the type of that number, where there is one.
pub(crate) fn placed(number: usize, member: Option<Member>) -> Option<FaultPlace>
    ensures { result ≡ placed number member }
{
    match member {
        Some(member) => Some(FaultPlace { number, member }),
        None => None,
    }
}
