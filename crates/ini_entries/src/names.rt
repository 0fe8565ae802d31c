//! Names of NED, and of sections.

ghost use Rattle.std.specs.Prelude.{◌≡◌};
ghost use Rattle.std.specs.List.{list_all};
ghost use Rattle.ini_entries.specs.Names as names;

use ned_tokens::runs::{Class, is_in, is_letter};
use ned_tokens::words::keyword_of;

#[tactic(auto, unfolding(crate::specs::Names::begins_name))]
fn begins_name(byte: u8) -> bool
    ensures { result ≡ names.begins_name byte }
{
    is_letter(byte) || byte == b'_'
}

#[tactic(auto, unfolding(crate::specs::Names::goes_on_name))]
fn goes_on_name(byte: u8) -> bool
    ensures { result ≡ names.goes_on_name byte }
{
    is_in(Class::Name, byte)
}

fn all_go_on(bytes: &[u8]) -> bool
    ensures { result ≡ list_all names.goes_on_name bytes.now }
{
    bytes.iter().all(|b| goes_on_name(*b))
}

fn is_spelled(bytes: &[u8]) -> bool
    ensures { result ≡ names.is_spelled bytes.now }
{
    match bytes {
        [] => false,
        [first, rest @ ..] => begins_name(*first) && all_go_on(rest),
    }
}

/// Whether the bytes are a name of NED: a letter or `_`, then letters, digits and `_`, and no word
/// of the language.
fn is_name(bytes: &[u8]) -> bool
    ensures { result ≡ names.is_name bytes.now }
{
    is_spelled(bytes) && keyword_of(bytes).is_none()
}

/// Whether the bytes are names separated by dots.
pub fn is_dotted_name(bytes: &[u8]) -> bool
    ensures { result ≡ names.is_dotted_name bytes.now }
{
    bytes.split(|b| *b == b'.').all(|name| is_name(name))
}

#[tactic(auto, unfolding(crate::specs::Names::is_config_byte))]
fn is_config_byte(byte: u8) -> bool
    ensures { result ≡ names.is_config_byte byte }
{
    goes_on_name(byte) || byte == b'-'
}

fn are_config_bytes(bytes: &[u8]) -> bool
    ensures { result ≡ list_all names.is_config_byte bytes.now }
{
    bytes.iter().all(|b| is_config_byte(*b))
}

/// Whether the bytes are the name of a section: letters, digits, `_` and `-`, one at least.
pub fn is_config_name(bytes: &[u8]) -> bool
    ensures { result ≡ names.is_config_name bytes.now }
{
    match bytes {
        [] => false,
        [_, ..] => are_config_bytes(bytes),
    }
}
