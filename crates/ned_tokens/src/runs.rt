//! Classes of bytes, and the longest run of one.

ghost use Rattle.std.specs.Prelude.{◌≡◌};
ghost use Rattle.ned_tokens.specs.Runs as runs;

/// What a run is made of.
#[derive(Clone, Copy)]
pub enum Class {
    /// Decimal digits.
    Digit,
    /// Hexadecimal digits.
    Hex,
    /// ASCII letters.
    Letter,
    /// Letters, digits and `_`.
    Name,
    /// Spaces and tabs.
    Space,
    /// Spaces, tabs and CR.
    Blank,
}

/// Whether a byte is an ASCII letter.
pub fn is_letter(b: u8) -> bool
    ensures { result ≡ runs.is_letter b }
{
    b.is_ascii_uppercase() || b.is_ascii_lowercase()
}

/// Whether a byte is a decimal digit.
pub(crate) fn is_digit(b: u8) -> bool
    ensures { result ≡ runs.is_digit b }
{
    b.is_ascii_digit()
}

fn is_hex(b: u8) -> bool
    ensures { result ≡ runs.is_hex b }
{
    is_digit(b) || (b >= b'A' && b <= b'F') || (b >= b'a' && b <= b'f')
}

/// Whether a byte may stand in a run of this class.
pub fn is_in(class: Class, b: u8) -> bool
    ensures { result ≡ runs.is_in class b }
{
    match class {
        Class::Digit => is_digit(b),
        Class::Hex => is_hex(b),
        Class::Letter => is_letter(b),
        Class::Name => is_letter(b) || is_digit(b) || b == b'_',
        Class::Space => b == b' ' || b == b'\t',
        Class::Blank => b == b' ' || b == b'\t' || b == b'\r',
    }
}

/// The longest run of this class at the front, and what is after it.
pub(crate) fn split_run(class: Class, bytes: &[u8]) -> (&[u8], &[u8])
    ensures run { result.0.now ≡ runs.run class bytes.now }
    ensures behind { result.1.now ≡ runs.behind class bytes.now }
{
    let mut end = 0;
    while end < bytes.len() && is_in(class, bytes[end]) {
        end += 1;
    }
    bytes.split_at(end)
}

/// What is after the longest run of this class.
pub(crate) fn behind(class: Class, bytes: &[u8]) -> &[u8]
    ensures { result.now ≡ runs.behind class bytes.now }
{
    let (_, after) = split_run(class, bytes);
    after
}

/// Whether the first byte is of this class.
pub(crate) fn begins(class: Class, bytes: &[u8]) -> bool
    ensures { result ≡ runs.begins class bytes.now }
{
    match bytes {
        [] => false,
        [b, ..] => is_in(class, *b),
    }
}
