//! Texts as rows write them: `\n`, `\r` and `\t` are LF, CR and tab, `\\` is a backslash, and
//! `\xNN` is the byte of two hexadecimal digits. After `\*COUNT*TIMES*` the last COUNT bytes stand
//! so many times in all.

use crate::telling::Telling;
use std::alloc::{AllocError, Global};

/// The value of a hexadecimal digit; 0 of another byte.
fn digit(byte: u8) -> u8 {
    match byte {
        b'0'..=b'9' => byte - b'0',
        b'a'..=b'f' => byte - b'a' + 10,
        _ => 0,
    }
}

/// The number that a text is, 0 of another text.
pub fn number(text: &str) -> usize {
    match text.parse::<usize>() {
        Ok(number) => number,
        Err(_) => 0,
    }
}

/// The text before the first mark and the one after it, empty where there is no mark.
pub fn parted(text: &str, mark: char) -> (&str, &str) {
    match text.split_once(mark) {
        Some(parts) => parts,
        None => (text, ""),
    }
}

/// The bytes that a row writes, as long as memory suffices.
struct RowBytes {
    bytes: Vec<u8>,
    error: Option<AllocError>,
}

impl RowBytes {
    /// Adds bytes.
    fn push(&mut self, bytes: &[u8]) {
        if let Err(error) = self.bytes.extend_from_slice(bytes) {
            self.error = Some(error);
        }
    }

    /// Adds a byte and more bytes.
    fn push_byte(&mut self, byte: u8, rest: &[u8]) {
        self.push([byte].as_slice());
        self.push(rest);
    }

    /// Adds what stands after a backslash, without the escape that it begins with.
    fn push_escape(&mut self, part: &[u8]) {
        match part {
            [b'n', rest @ ..] => self.push_byte(b'\n', rest),
            [b'r', rest @ ..] => self.push_byte(b'\r', rest),
            [b't', rest @ ..] => self.push_byte(b'\t', rest),
            [b'x', high, low, rest @ ..] => {
                self.push_byte(digit(*high) << 4 | digit(*low), rest);
            }
            _ => self.push_byte(b'\\', part),
        }
    }

    /// Adds the last bytes, so many of those that are there, once more.
    fn push_last(&mut self, count: usize) {
        let from = self.bytes.len().saturating_sub(count);
        if let Err(error) = self.bytes.extend_from_within(from..) {
            self.error = Some(error);
        }
    }

    /// Adds what `COUNT*TIMES*` and a text say: the last bytes stand there once.
    fn push_repeated(&mut self, said: &str) {
        let (count, behind) = parted(said, '*');
        let (times, rest) = parted(behind, '*');
        let count = number(count).min(self.bytes.len());
        for _ in 1..number(times) {
            self.push_last(count);
        }
        self.push(rest.as_bytes());
    }

    /// Adds a part of a text that stands after a backslash.
    fn push_part(&mut self, part: &str) {
        match part.strip_prefix('*') {
            Some(said) => self.push_repeated(said),
            None => self.push_escape(part.as_bytes()),
        }
    }

    /// Adds the text that a row writes.
    fn push_text(&mut self, text: &str) {
        let mut is_plain = true;
        for part in text.split('\\') {
            if is_plain {
                self.push(part.as_bytes());
                is_plain = false;
            } else {
                self.push_part(part);
                // Of two backslashes the second begins no escape.
                is_plain = part.is_empty();
            }
        }
    }
}

/// The text that a row writes, after a head. It is cut off where memory runs out, which is then
/// noted.
pub fn unescaped_behind(alloc: Global, told: &mut Telling, head: &[u8], text: &str) -> Vec<u8> {
    let mut written = RowBytes {
        bytes: Vec::new(alloc),
        error: None,
    };
    written.push(head);
    written.push_text(text);
    let RowBytes { bytes, error } = written;
    if let Some(error) = error {
        told.fail(error);
    }
    bytes
}

/// The text that a row writes.
pub fn unescaped(alloc: Global, told: &mut Telling, text: &str) -> Vec<u8> {
    unescaped_behind(alloc, told, b"", text)
}
