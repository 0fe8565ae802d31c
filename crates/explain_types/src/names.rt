//! Names as they are shown, and names that are near to one another.

ghost use Rattle.std.specs.Prelude.{◌≡◌, ◌≤◌};
ghost use Rattle.explain_types.specs.Names.{shown};

/// The characters of a name.
pub fn shown(bytes: &[u8]) -> &str
    ensures { result.now ≡ shown bytes.now }
{
    match std::str::from_utf8(bytes) {
        Ok(text) => text,
        Err(_) => "?",
    }
}

/// How many bytes of a text are shown, at most.
pub const MOST_SHOWN: usize = 200;

/// Whether a character goes on at that place.
fn goes_on_at(bytes: &[u8], at: usize) -> bool {
    match bytes.get(at) {
        Some(byte) => *byte & 0xc0 == 0x80,
        None => false,
    }
}

/// Where the last of the characters ends that are shown of a longer text: a character has at most
/// four bytes.
fn end_of_shown(bytes: &[u8]) -> usize
    ensures { result ≤ 200 }
{
    if !goes_on_at(bytes, 200) {
        200
    } else if !goes_on_at(bytes, 199) {
        199
    } else if !goes_on_at(bytes, 198) {
        198
    } else {
        197
    }
}

/// What is shown of a text: no more than its first 200 bytes.
pub fn front_shown(bytes: &[u8]) -> &[u8] {
    if bytes.len() <= MOST_SHOWN {
        bytes
    } else {
        &bytes[..end_of_shown(bytes)]
    }
}

/// How many bytes two texts have in common, from their front on.
fn common(one: &[u8], other: &[u8]) -> usize {
    let mut count = 0usize;
    for (a, b) in one.iter().zip(other.iter()) {
        if a != b {
            break;
        }
        count = count.saturating_add(1);
    }
    count
}

/// How many bytes two texts have in common, from their end on.
fn common_end(one: &[u8], other: &[u8]) -> usize {
    let mut count = 0usize;
    for (a, b) in one.iter().rev().zip(other.iter().rev()) {
        if a != b {
            break;
        }
        count = count.saturating_add(1);
    }
    count
}

/// Whether the texts differ in one place only, where at most two bytes stand in each.
pub fn is_near(one: &[u8], other: &[u8]) -> bool {
    let same = common(one, other)
        .saturating_add(common_end(one, other))
        .saturating_add(2);
    one != other && one.len().max(other.len()) <= same && same >= 4
}

/// What stands after the last dot of a name: what a type within another is called there.
pub fn last_part(name: &[u8]) -> &[u8] {
    let mut last = name;
    for (at, byte) in name.iter().enumerate() {
        if *byte == b'.' {
            last = &name[at + 1..];
        }
    }
    last
}

/// Whether it is the name of a type within another.
pub fn is_inner(name: &[u8]) -> bool {
    name.contains(&b'.')
}
