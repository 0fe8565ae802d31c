//! The bytes of a value's line, put together in place. They are written from the last to the first,
//! so that each number is written where it stays.

ghost use Rattle.std.specs.Prelude.{◌≡◌, ◌+◌, ◌^◌, ◌≤◌, ◌<◌, ◌∷◌, ◌++◌, length, drop};
ghost use Rattle.std.specs.Fmt.{decimal, signed_decimal};
ghost use Rattle.sim_time.specs.Text.{low_digits, without_last_zeros, part_text, text_of_time};
ghost use Rattle.result_lines.specs.Fields.{field};
ghost use Rattle.result_lines.specs.VectorText.{data_line};

use itoa::write_digits;
use run_semantics::traces::Emission;
use sim_time::SimTime;

const PS_PER_SECOND: u64 = 1_000_000_000_000;

/// Room for the longest line: three numbers of up to 20 bytes, a time of up to 21, and a byte after
/// each.
pub const MAX_LINE: usize = 96;

/// Writes a byte before that place, and answers where it stands.
fn byte_before(line: &mut [u8], end: usize, byte: u8) -> usize
    requires { (1 ≤ end) × (end ≤ length line.old) }
    ensures start { result + 1 ≡ end }
    ensures written { drop result line.new ≡ byte ∷ drop end line.old }
{
    line[end - 1] = byte;
    end - 1
}

/// Writes a number and the byte that ends it before that place, and answers where they begin.
fn number_before(line: &mut [u8], end: usize, number: u64, mark: u8) -> usize
    requires { (21 ≤ end) × (end ≤ length line.old) }
    ensures within { result ≤ end }
    ensures short { end ≤ result + 21 }
    ensures written { drop result line.new ≡ field (decimal number) mark ++ drop end line.old }
{
    let at = byte_before(line, end, mark);
    write_digits(number, line, at)
}

/// Writes a number that may be negative and the byte that ends it before that place, and answers
/// where they begin.
fn signed_before(line: &mut [u8], end: usize, number: i64, mark: u8) -> usize
    requires { (21 ≤ end) × (end ≤ length line.old) }
    ensures within { result ≤ end }
    ensures short { end ≤ result + 21 }
    ensures written { drop result line.new
        ≡ field (signed_decimal number) mark ++ drop end line.old }
{
    let at = byte_before(line, end, mark);
    let start = write_digits(number.unsigned_abs(), line, at);
    if number >= 0 {
        return start;
    }
    byte_before(line, start, b'-')
}

/// The number that has a one, and after it the digits of a part of a second, in picoseconds, up to
/// the last that is not zero.
fn part_digits(part: u64) -> u64
    requires { (0 < part) × (part < 10 ^ 12) }
    ensures short { result < 10 ^ 13 }
    ensures digits { decimal result ≡ 49 ∷ without_last_zeros (low_digits 12 part) }
{
    let mut digits = PS_PER_SECOND + part;
    while digits % 10 == 0 {
        digits /= 10;
    }
    digits
}

/// Writes a point and a part of a second, in picoseconds, before that place, nothing where it is
/// zero, and answers where that begins. The digits are written as one number with a one before
/// them, in whose place the point then stands.
fn part_before(line: &mut [u8], end: usize, part: u64) -> usize
    requires { (part < 10 ^ 12) × (13 ≤ end) × (end ≤ length line.old) }
    ensures within { result ≤ end }
    ensures short { end ≤ result + 13 }
    ensures written { drop result line.new ≡ part_text part ++ drop end line.old }
{
    if part == 0 {
        return end;
    }
    let start = write_digits(part_digits(part), line, end);
    line[start] = b'.';
    start
}

/// Writes a time in seconds and the byte that ends it before that place, and answers where they
/// begin.
fn time_before(line: &mut [u8], end: usize, time: SimTime, mark: u8) -> usize
    requires { (22 ≤ end) × (end ≤ length line.old) }
    ensures within { result ≤ end }
    ensures short { end ≤ result + 22 }
    ensures written { drop result line.new ≡ field (text_of_time time) mark ++ drop end line.old }
{
    let ps = time.ps();
    let at = byte_before(line, end, mark);
    let at = part_before(line, at, ps % PS_PER_SECOND);
    write_digits(ps / PS_PER_SECOND, line, at)
}

/// Writes the line of a value in the vector of that number at the end of the room for it, and
/// answers where it begins.
pub fn data_line_start(line: &mut [u8; MAX_LINE], number: u64, emission: &Emission) -> usize
    ensures within { result ≤ 96 }
    ensures written { drop result line.new ≡ data_line number emission.now }
{
    let at = signed_before(line, MAX_LINE, emission.value, b'\n');
    let at = time_before(line, at, emission.time, b'\t');
    let at = number_before(line, at, emission.event, b'\t');
    number_before(line, at, number, b'\t')
}
