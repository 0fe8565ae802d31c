//! What a key is for.

ghost use Rattle.std.specs.Prelude.{◌≡◌, true};
ghost use Rattle.std.specs.List.{list_all};
ghost use Rattle.std.specs.Option.{option_copied};
ghost use Rattle.ini_entries.specs.Keys as keys;
ghost use Rattle.ini_entries.specs.Meaning.{is_key, is_key_byte};

use crate::blanks::is_blank;

/// Where a byte of a key stands.
#[derive(Clone, Copy)]
pub(crate) enum KeyPlace {
    /// In no braces or brackets.
    Open,
    /// In a set.
    InSet,
    /// Between brackets.
    InBrackets,
    /// In a set between brackets.
    InSetInBrackets,
}

/// Where the bytes after this one stand, where each `[` is taken for a bracket.
fn place_behind(place: KeyPlace, byte: u8) -> KeyPlace
    ensures { result ≡ keys.place_behind place byte true }
{
    match place {
        KeyPlace::Open if byte == b'{' => KeyPlace::InSet,
        KeyPlace::Open if byte == b'[' => KeyPlace::InBrackets,
        KeyPlace::InSet if byte == b'}' => KeyPlace::Open,
        KeyPlace::InBrackets if byte == b']' => KeyPlace::Open,
        KeyPlace::InBrackets if byte == b'{' => KeyPlace::InSetInBrackets,
        KeyPlace::InSetInBrackets if byte == b'}' => KeyPlace::InBrackets,
        _ => place,
    }
}

/// What is found after this byte: the last part, if no `]` closes the bracket that it is in.
fn found_behind<'a>(
    place: KeyPlace,
    byte: u8,
    after: &'a [u8],
    found: Option<&'a [u8]>,
    kept: Option<&'a [u8]>,
) -> Option<&'a [u8]>
    ensures { option_copied result ≡ keys.found_behind place byte after.now
        (option_copied found.entry) (option_copied kept.entry) }
{
    match place {
        KeyPlace::Open if byte == b'.' => Some(after),
        KeyPlace::InBrackets if byte == b']' => kept,
        KeyPlace::InBrackets if byte == b'.' => Some(after),
        _ => found,
    }
}

/// What was found outside brackets, after this byte.
fn kept_behind<'a>(
    place: KeyPlace,
    byte: u8,
    found: Option<&'a [u8]>,
    kept: Option<&'a [u8]>,
) -> Option<&'a [u8]>
    ensures { option_copied result
        ≡ keys.kept_behind place byte (option_copied found.entry) (option_copied kept.entry) }
{
    match place {
        KeyPlace::Open if byte == b'[' => found,
        _ => kept,
    }
}

/// What stands after the last dot that parts the key.
pub(crate) fn last_part(key: &[u8]) -> Option<&[u8]>
    ensures { option_copied result ≡ keys.last_part key.now }
{
    let mut place = KeyPlace::Open;
    let mut escaped = false;
    let mut found = None;
    let mut kept = None;
    let mut rest = key;
    'bytes: while let Some((byte, after)) = rest.split_first() {
        if escaped {
            escaped = false;
        } else {
            let behind = found_behind(place, *byte, after, found, kept);
            kept = kept_behind(place, *byte, found, kept);
            found = behind;
            place = place_behind(place, *byte);
            escaped = *byte == b'\\';
        }
        rest = after;
    }
    found
}

/// Whether the bytes after this one stand in a set.
fn in_set_behind(in_set: bool, byte: u8) -> bool
    ensures { result ≡ keys.in_set_behind in_set byte }
{
    if in_set { byte != b'}' } else { byte == b'{' }
}

/// Whether a byte is a `-` outside a set.
fn is_hyphen(in_set: bool, byte: u8) -> bool
    ensures { result ≡ keys.is_hyphen in_set byte }
{
    !in_set && byte == b'-'
}

/// Whether a `-` stands in a last part, outside `{}`.
#[tactic(auto, unfolding(crate::specs::Keys::has_hyphen_from))]
pub(crate) fn has_hyphen(part: &[u8]) -> bool
    ensures { result ≡ keys.has_hyphen part.now }
{
    let mut in_set = false;
    let mut escaped = false;
    for byte in part {
        if is_hyphen(in_set, *byte) {
            return true;
        }
        if escaped {
            escaped = false;
        } else {
            in_set = in_set_behind(in_set, *byte);
            escaped = *byte == b'\\';
        }
    }
    false
}

// ---- the bytes of a key

#[tactic(auto, unfolding(crate::specs::Meaning::is_key_byte))]
fn is_key_byte(byte: u8) -> bool
    ensures { result ≡ is_key_byte byte }
{
    byte < 128 && !is_blank(byte)
}

fn are_key_bytes(bytes: &[u8]) -> bool
    ensures { result ≡ list_all is_key_byte bytes.now }
{
    bytes.iter().all(|b| is_key_byte(*b))
}

/// Whether the bytes can be a key: ASCII without blanks, one byte at least.
pub fn is_key(bytes: &[u8]) -> bool
    ensures { result ≡ is_key bytes.now }
{
    match bytes {
        [] => false,
        [_, ..] => are_key_bytes(bytes),
    }
}
