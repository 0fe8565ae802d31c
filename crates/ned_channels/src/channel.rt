//! What the channel of a connection is.
//! See OMNeT++ Simulation Manual, "Channels".

ghost use Rattle.std.specs.Prelude.{◌≡◌};
ghost use Rattle.std.specs.Option.{option_copied};
ghost use Rattle.ned_types.specs.Clashes.{channel_name, channel_of_block, lines_of_channel};
ghost use Rattle.ned_types.specs.Clashes.{sets_delay, sets_rate};
ghost use Rattle.ned_types.specs.Types.{is_given};

use ned_trees::connections::Channel;
use ned_trees::declarations::{SectionLine, TypeDeclaration, TypeKind};
use ned_types::given::gives;

/// Whether the lines give the parameter of that name a value.
fn is_given(name: &[u8], lines: &[SectionLine]) -> bool
    ensures { result ≡ is_given name.now lines.now }
{
    lines.iter().any(|line| gives(name, line))
}

fn sets_rate(lines: &[SectionLine]) -> bool
    ensures { result ≡ sets_rate lines.now }
{
    is_given(b"datarate", lines) || is_given(b"ber", lines) || is_given(b"per", lines)
}

fn sets_delay(lines: &[SectionLine]) -> bool
    ensures { result ≡ sets_delay lines.now }
{
    is_given(b"delay", lines) || is_given(b"disabled", lines)
}

/// The built-in channel that a block alone means: it tells it by what it sets.
fn channel_of_block(lines: &[SectionLine]) -> &'static [u8]
    ensures { result.now ≡ channel_of_block lines.now }
{
    if sets_rate(lines) {
        return b"DatarateChannel";
    }
    if sets_delay(lines) {
        return b"DelayChannel";
    }
    b"IdealChannel"
}

/// The name of a channel's type: the one that is written, or that which its block means.
pub fn channel_name(channel: &Channel) -> &[u8]
    ensures { result.now ≡ channel_name channel.now }
{
    match &channel.type_name {
        Some(name) => name.as_bytes(),
        None => channel_of_block(channel.lines.as_slice()),
    }
}

/// The lines of a type, where it is a channel.
pub fn lines_of_channel(declared: Option<&TypeDeclaration>) -> Option<&[SectionLine]>
    ensures { option_copied result ≡ lines_of_channel (option_copied declared.entry) }
{
    match declared {
        Some(found) => match found.kind {
            TypeKind::Channel => Some(found.lines.as_slice()),
            _ => None,
        },
        None => None,
    }
}
