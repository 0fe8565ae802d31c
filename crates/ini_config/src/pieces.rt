//! The pieces of an ini text: its lines, and what stands before a comment.

ghost use Rattle.std.specs.Prelude.{◌≡◌, ◌+◌, ◌<◌, ◌≤◌, ◌∷◌, false, length, take, option_map};
ghost use Rattle.std.specs.Prelude.{IfSome};
ghost use Rattle.ini_config.specs.Texts as texts;

use ini_entries::blanks::{after_blanks, before_blanks};

/// What is after an LF, where the text begins with one.
fn after_feed(bytes: &[u8]) -> Option<&[u8]>
    ensures { option_map (λ rest. rest.now) result ≡ texts.after_feed bytes.now }
{
    match bytes {
        [] => None,
        [first, rest @ ..] => if *first == b'\n' { Some(rest) } else { None },
    }
}

/// What is after the end of a line, where the text begins with one.
fn after_line_end(bytes: &[u8]) -> Option<&[u8]>
    ensures { option_map (λ rest. rest.now) result ≡ texts.after_line_end bytes.now }
{
    match bytes {
        [] => None,
        [first, rest @ ..] => {
            if *first == b'\n' {
                Some(rest)
            } else if *first == b'\r' {
                after_feed(rest)
            } else {
                None
            }
        }
    }
}

/// The first line, without its end, and what is after that.
pub(crate) fn first_ini_line(bytes: &[u8]) -> (&[u8], &[u8])
    requires { 0 < length bytes.now }
    ensures lines { texts.lines_of_ini bytes.now ≡ result.0.now ∷ texts.lines_of_ini result.1.now }
    ensures shorter { length result.1.now < length bytes.now }
{
    let mut end = 0;
    'bytes: while end < bytes.len() {
        let (line, rest) = bytes.split_at(end);
        if let Some(after) = after_line_end(rest) {
            return (line, after);
        }
        end += 1;
    }
    (bytes, &[])
}

/// Whether this byte of a text literal ends it, where a `\` before takes it along or not.
fn ends_literal(taken: bool, byte: u8) -> bool
    ensures { result ≡ texts.ends_literal taken byte }
{
    !taken && byte == b'"'
}

/// Whether this byte of a text literal takes the next one along.
fn takes_next(taken: bool, byte: u8) -> bool
    ensures { result ≡ texts.takes_next taken byte }
{
    !taken && byte == b'\\'
}

/// How many bytes a text literal still has, after its first `"`.
fn literal_rest(bytes: &[u8]) -> Option<usize>
    ensures value { result ≡ texts.literal_rest false bytes.now }
    ensures within { IfSome result (λ n. n ≤ length bytes.now) }
{
    let mut taken = false;
    for (at, b) in bytes.iter().enumerate() {
        if ends_literal(taken, *b) {
            return Some(at + 1);
        }
        taken = takes_next(taken, *b);
    }
    None
}

/// The length of what stands before the first `#`.
fn plain_length(bytes: &[u8]) -> usize
    ensures within { result ≤ length bytes.now }
    ensures text { take result bytes.now ≡ texts.before_hash bytes.now }
{
    let mut end = 0;
    'bytes: while end < bytes.len() && bytes[end] != b'#' {
        end += 1;
    }
    end
}

/// The length of what stands before the first `#` outside a text literal.
fn uncommented_length(bytes: &[u8]) -> usize
    ensures within { result ≤ length bytes.now }
    ensures text { take result bytes.now ≡ texts.uncommented 0 bytes.now }
{
    let mut end = 0;
    'bytes: while end < bytes.len() {
        let byte = bytes[end];
        if byte == b'#' {
            return end;
        }
        end += 1;
        if byte == b'"' {
            let (_, rest) = bytes.split_at(end);
            // Where this literal isn't closed, no later one is.
            let Some(length) = literal_rest(rest) else {
                return end + plain_length(rest);
            };
            end += length;
        }
    }
    end
}

/// The value, of what is after the `=`.
pub(crate) fn value_text(bytes: &[u8]) -> &[u8]
    ensures { result.now ≡ texts.value_text bytes.now }
{
    let end = uncommented_length(bytes);
    before_blanks(after_blanks(&bytes[..end]))
}

/// Whether `${` is in the text.
#[tactic(auto, unfolding(crate::specs::Texts::holds_variable))]
pub(crate) fn holds_variable(bytes: &[u8]) -> bool
    ensures { result ≡ texts.holds_variable 0 bytes.now }
{
    let mut before = 0;
    for b in bytes {
        if before == b'$' && *b == b'{' {
            return true;
        }
        before = *b;
    }
    false
}
