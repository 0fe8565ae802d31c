//! Texts and lines of sources that give a little at a time, fail, or have more than is read.

use crate::part_rows::{first_part, number};
use crate::source::Drip;
use crate::telling::Telling;
use input_lines::line::NextLine;
use input_lines::reader::LineReader;
use input_texts::reader::NotedReader;
use input_texts::reading::{ReadFault, read_text};
use std::alloc::{AllocError, Global};
use std::io::ErrorKind;

/// Adds the bytes that a text says: `~` is LF, `^` is CR.
fn add_bytes(bytes: &mut Vec<u8>, text: &str) -> Result<(), AllocError> {
    for byte in text.as_bytes() {
        bytes.push(match *byte {
            b'~' => b'\n',
            b'^' => b'\r',
            other => other,
        })?;
    }
    Ok(())
}

/// Tells bytes, as a row says them.
fn tell_bytes(told: &mut Telling, bytes: &[u8]) {
    for byte in bytes {
        told.shown(&match *byte {
            b'\n' => '~',
            b'\r' => '^',
            other => other as char,
        });
    }
}

/// Adds so many equal bytes.
fn add_equal(bytes: &mut Vec<u8>, byte: u8, count: usize) -> Result<(), AllocError> {
    for _ in 0..count {
        bytes.push(byte)?;
    }
    Ok(())
}

/// Adds the bytes of a long text from one place to another, of which no part of 251 bytes or fewer
/// is like the next.
fn add_cycle(bytes: &mut Vec<u8>, from: usize, to: usize) -> Result<(), AllocError> {
    for at in from..to {
        bytes.push((at % 251) as u8)?;
    }
    Ok(())
}

/// Tells why nothing was read.
fn tell_fault(told: &mut Telling, fault: &ReadFault) {
    match fault {
        ReadFault::Failed(error) if error.kind() == ErrorKind::TimedOut => told.text(" failed;"),
        ReadFault::Failed(_) => told.text(" failed otherwise;"),
        ReadFault::NoMemory(error) => told.fail(error.error()),
    }
}

/// Tells how many bytes of a text were read, which are its first.
fn tell_front(told: &mut Telling, read: &[u8], text: &[u8]) {
    if text.starts_with(read) {
        told.text(" ");
        told.shown(&read.len());
        told.text(" bytes;");
    } else {
        told.text(" other bytes;");
    }
}

/// Tells what is read of a text that comes in parts of that length, of a source that fails after so
/// many bytes.
fn tell_read(alloc: Global, told: &mut Telling, text: &[u8], step: usize, until_failure: usize) {
    let mut source = NotedReader::new(Drip {
        left: text,
        step,
        until_failure,
        fails_once: false,
    });
    match read_text(alloc, &mut source) {
        Ok(read) => tell_front(told, read.as_slice(), text),
        Err(fault) => tell_fault(told, &fault),
    }
}

/// Tells a line; of a long one how often it has its one byte.
fn tell_line(told: &mut Telling, line: &[u8]) {
    told.text(" ");
    match line {
        [first, rest @ ..] if rest.len() > 100 && line.starts_with(rest) => {
            told.shown(&line.len());
            told.text(" times ");
            told.shown(&(*first as char));
        }
        _ => tell_bytes(told, line),
    }
    told.text(";");
}

/// Tells what was read.
fn tell_next(told: &mut Telling, next: Result<NextLine, ReadFault>) {
    match next {
        Ok(NextLine::Line(line)) => tell_line(told, line.as_bytes()),
        Ok(NextLine::TooLong) => told.text(" too long;"),
        Ok(NextLine::End) => told.text(" end;"),
        Ok(NextLine::Spent) => told.text(" spent;"),
        Err(fault) => tell_fault(told, &fault),
    }
}

/// Tells what five calls read.
fn tell_five(told: &mut Telling, lines: &mut LineReader<NotedReader<Drip<'_>>>) {
    for _ in 0..5 {
        tell_next(told, lines.next());
    }
}

/// Tells the lines of a text that comes in parts of that length, of a source that fails once, after
/// so many bytes.
fn tell_lines(alloc: Global, told: &mut Telling, text: &[u8], step: usize, until_failure: usize) {
    let source = Drip {
        left: text,
        step,
        until_failure,
        fails_once: true,
    };
    let mut lines = LineReader::new(alloc, NotedReader::new(source));
    tell_five(told, &mut lines);
}

/// Adds a line of 65,536 bytes, one of 65,537, and one after them.
fn add_long_lines(bytes: &mut Vec<u8>) -> Result<(), AllocError> {
    add_equal(bytes, b'a', 65_536)?;
    bytes.push(b'\n')?;
    add_equal(bytes, b'b', 65_537)?;
    bytes.extend_from_slice(b"\nrun 1\n")
}

/// Adds the bytes of a row's text.
fn add_text(bytes: &mut Vec<u8>, word: &str, text: &str) -> Result<(), AllocError> {
    match word {
        "cycle" => {
            let (from, to) = first_part(text);
            add_cycle(bytes, number(from), number(to))
        }
        "long_lines" => add_long_lines(bytes),
        _ => add_bytes(bytes, text),
    }
}

/// After how many bytes a source fails.
fn until(word: &str) -> usize {
    match word {
        "never" => usize::MAX,
        _ => number(word),
    }
}

/// Tells what is read of a text, or of the lines of one: the most bytes that a call gives, after
/// how many the source fails, and the text. That of a `cycle` is a part of a long one, from a place
/// to another, and that of `long_lines` is always the same.
pub fn tell_text(alloc: Global, told: &mut Telling, word: &str, row: &str) {
    told.text(" ->");
    let (step, rest) = first_part(row);
    let (until_failure, text) = first_part(rest);
    let (step, until_failure) = (number(step), until(until_failure));
    let mut bytes = Vec::new(alloc);
    if let Err(error) = add_text(&mut bytes, word, text) {
        told.fail(error);
        return;
    }
    match word {
        "text" | "cycle" => tell_read(alloc, told, bytes.as_slice(), step, until_failure),
        _ => tell_lines(alloc, told, bytes.as_slice(), step, until_failure),
    }
}
