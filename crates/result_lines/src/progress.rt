//! Writing a text piece by piece.

ghost use Rattle.std.specs.Prelude.{◌≡◌, ◌+◌, ◌^◌, ◌≤◌, ◌<◌, length, ◌∷◌, [], ◌++◌};
ghost use Rattle.std.specs.Fmt.{decimal, signed_decimal};
ghost use Rattle.result_lines.specs.Written.{Adds, written_in};
ghost use Rattle.result_lines.specs.Fields.{field};

use crate::writer::Out;
use itoa::Buffer;

/// How far the writing of a text has come.
#[derive(Clone, Copy, PartialEq, Eq)]
pub enum WriteProgress {
    /// So many bytes were written, all that there were so far.
    Whole(u128),
    /// The device failed or took nothing after so many bytes, and no more were written.
    Short(u128),
}

/// Writes a piece of a text that stands after so many bytes.
fn put_all<O: Out>(out: &mut O, before: u128, piece: &[u8]) -> WriteProgress
    requires { before < 2 ^ 127 }
    ensures { Adds (WriteProgress.Whole before) (O.taken out.old) result
        (O.taken out.new) piece.now }
{
    let mut sent = 0;
    while sent < piece.len() {
        match out.write(&piece[sent..]) {
            Ok(taken) if taken > 0 => sent += taken,
            _ => return WriteProgress::Short(before + sent as u128),
        }
    }
    WriteProgress::Whole(before + sent as u128)
}

/// Writes a piece of a text, unless the device failed before.
pub fn put<O: Out>(out: &mut O, progress: WriteProgress, piece: &[u8]) -> WriteProgress
    requires { written_in progress < 2 ^ 127 }
    ensures adds { Adds progress (O.taken out.old) result (O.taken out.new) piece.now }
    ensures short { written_in result ≤ written_in progress + length piece.now }
{
    match progress {
        WriteProgress::Whole(before) => put_all(out, before, piece),
        WriteProgress::Short(written) => WriteProgress::Short(written),
    }
}

/// Writes a text and the byte that ends it.
pub fn put_field<O: Out>(
    out: &mut O,
    progress: WriteProgress,
    text: &[u8],
    end: u8,
) -> WriteProgress
    requires { written_in progress < 2 ^ 126 }
    ensures adds { Adds progress (O.taken out.old) result (O.taken out.new) (field text.now end) }
    ensures short { written_in result ≤ written_in progress + length text.now + 1 }
{
    let progress = put(out, progress, text);
    put(out, progress, &[end])
}

/// Writes a number and the byte that ends it.
pub fn put_number<O: Out>(
    out: &mut O,
    progress: WriteProgress,
    number: u64,
    end: u8,
) -> WriteProgress
    requires { written_in progress < 2 ^ 126 }
    ensures adds { Adds progress (O.taken out.old) result (O.taken out.new)
        (field (decimal number) end) }
    ensures short { written_in result ≤ written_in progress + 64 }
{
    let mut buffer = Buffer::new();
    put_field(out, progress, buffer.format(number).as_bytes(), end)
}

/// Writes a number of up to 128 bits that may be negative and the byte that ends it.
pub fn put_wide<O: Out>(
    out: &mut O,
    progress: WriteProgress,
    number: i128,
    end: u8,
) -> WriteProgress
    requires { written_in progress < 2 ^ 126 }
    ensures adds { Adds progress (O.taken out.old) result (O.taken out.new)
        (field (signed_decimal number) end) }
    ensures short { written_in result ≤ written_in progress + 64 }
{
    let mut buffer = Buffer::new();
    put_field(out, progress, buffer.format(number).as_bytes(), end)
}
