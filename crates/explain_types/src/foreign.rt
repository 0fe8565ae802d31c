//! What OMNeT++ has and the profile of this program has not, with what to write instead.

use crate::explanation::Explanation;
use ned_tokens::lines::tokenize;
use ned_tokens::token::Token;
use ned_tokens::unit_of;
use sim_values::NoMemory;
use sim_values::value::Dimension;
use std::alloc::Global;

/// What is said of a thing that is OMNeT++'s own, before what to write instead.
const FOREIGN: &str = "OMNeT++'s own, and not of this profile: ";

/// The units.
const UNITS: &str =
    "there are d, h, min, s, ms, us, ns and ps, bps, kbps, Mbps and Gbps, b, B, KiB and MiB";

/// Units of OMNeT++'s that are not there.
const OTHER_UNITS: &str =
    "as fs m km cm mm um nm mps kmps kmph kmh mph C K degC degK Hz mHz kHz MHz GHz THz W kW MW GW mW uW nW pW fW Wh kWh mWh Ws J kJ MJ GJ mJ uJ nJ pJ fJ V kV mV uV nV A kA mA uA nA pA fA Ah mAh As mAs Ohm mOhm kOhm MOhm F mF uF nF pF dB dBW dBm dBmW dBV dBmV dBA dBmA kB MB GB TB PB GiB TiB PiB kb Mb Gb Tb Kib Mib Gib Tib Bps kBps MBps GBps Tbps Kibps Mibps Gibps deg rad mol kg g mg pct percent ratio x";

/// What is said of a whole number that is not read.
const LARGE: &str = " is too large: a number is at most 9223372036854775807, which is 2^63 - 1";

/// Functions of OMNeT++'s that draw random numbers.
const RANDOM: &str =
    "uniform exponential normal truncnormal gamma_d beta erlang_k chi_square student_t cauchy triang lognormal weibull pareto_shifted intuniform intuniformexcl bernoulli binomial geometric negbinomial poisson";

/// Functions of OMNeT++'s that compute with real numbers.
const REAL: &str =
    "ceil floor round fabs abs sign sqrt exp log log10 pow sin cos tan asin acos atan atan2 hypot fmod fmin fmax acot";

/// Functions of OMNeT++'s that make one kind or unit of another.
const CONVERSIONS: &str = "int double bool string dropUnit replaceUnit convertUnit unitOf typename";

/// Functions of OMNeT++'s of texts and of what a file or a module says of itself.
const TEXTS: &str =
    "length contains substring substringBefore substringAfter substringBeforeLast substringAfterLast startsWith endsWith indexOf choose tail head replace replaceFirst trim toUpper toLower select firstAvailable firstAvailableOrEmpty fullPath fullName moduleListByPath moduleListByNedType simTime eval expr";

/// Functions and words of OMNeT++'s of XML.
const XML: &str = "xml xmldoc";

/// The words with which OMNeT++ declares parameters of kinds that are not there.
const KINDS: &str = "xml object long int64 uint64 float bigint";

/// The recording modes of OMNeT++ that are not there.
const MODES: &str =
    "mean avg timeavg stats histogram first stddev timeavg removeRepeats minmax warmup none weightedStats weightedHistogram";

/// Whether one of the words, with blanks between them, is this one.
fn has_word(words: &str, wanted: &[u8]) -> bool {
    for word in words.split(' ') {
        if word.as_bytes() == wanted {
            return true;
        }
    }
    false
}

/// Whether a byte is one of names.
fn is_of_name(byte: u8) -> bool {
    byte.is_ascii_alphanumeric() || byte == b'_'
}

/// How many bytes at the front are of a name.
fn name_length(bytes: &[u8]) -> usize {
    let mut count = 0usize;
    for byte in bytes {
        if !is_of_name(*byte) {
            return count;
        }
        count = count.saturating_add(1);
    }
    count
}

/// What is after so many bytes.
fn behind(bytes: &[u8], count: usize) -> &[u8] {
    match bytes.split_at_checked(count) {
        Some((_, rest)) => rest,
        None => b"".as_slice(),
    }
}

/// So many bytes at the front.
fn front(bytes: &[u8], count: usize) -> &[u8] {
    match bytes.split_at_checked(count) {
        Some((front, _)) => front,
        None => bytes,
    }
}

/// What stands in place of a function of OMNeT++'s.
fn instead_of_function(name: &[u8]) -> Option<&'static str> {
    if has_word(RANDOM, name) {
        return Some("there are no random numbers, and every run is the same; write a fixed value");
    }
    if has_word(REAL, name) {
        return Some(
            "values are exact, and of functions there are min and max; write the value itself",
        );
    }
    if has_word(CONVERSIONS, name) {
        return Some("write the value in the kind and the unit that the parameter takes");
    }
    if has_word(XML, name) {
        return Some("a parameter is a truth value, a number, a quantity or a text");
    }
    if has_word(TEXTS, name) {
        return Some("write the value itself");
    }
    None
}

/// Says that a function is OMNeT++'s own, where this one is.
fn tell_function(told: &mut Explanation, name: &[u8]) -> bool {
    let Some(instead) = instead_of_function(name) else {
        return false;
    };
    told.say("; the function ");
    told.say_name(name);
    told.say(" is ");
    told.say(FOREIGN);
    told.say(instead);
    true
}

/// Whether what is called is after a name: blanks, perhaps, and a parenthesis.
fn is_called(rest: &[u8]) -> bool {
    rest.trim_ascii_start().starts_with(b"(")
}

/// How many bytes at the front are digits.
fn digits_length(bytes: &[u8]) -> usize {
    let mut count = 0usize;
    for byte in bytes {
        if !byte.is_ascii_digit() {
            return count;
        }
        count = count.saturating_add(1);
    }
    count
}

/// How many bytes at the front are letters.
fn letters_length(bytes: &[u8]) -> usize {
    let mut count = 0usize;
    for byte in bytes {
        if !byte.is_ascii_alphabetic() {
            return count;
        }
        count = count.saturating_add(1);
    }
    count
}

/// How many bytes at the front are blanks, as they may stand between quantities.
fn blanks_length(bytes: &[u8]) -> usize {
    let mut count = 0usize;
    for byte in bytes {
        if *byte != b' ' && *byte != b'\t' {
            return count;
        }
        count = count.saturating_add(1);
    }
    count
}

/// Whether a digit stands at the front.
fn begins_number(bytes: &[u8]) -> bool {
    bytes.first().is_some_and(|byte| byte.is_ascii_digit())
}

/// Whether hexadecimal digits are to follow.
fn is_hexadecimal(number: &[u8]) -> bool {
    number.starts_with(b"0x") || number.starts_with(b"0X")
}

/// The digits of a number, perhaps with a point and digits after it: how long they are.
fn amount_length(bytes: &[u8]) -> usize {
    let whole = digits_length(bytes);
    let rest = behind(bytes, whole);
    let fraction = digits_length(behind(rest, 1));
    if !rest.starts_with(b".") || fraction == 0 {
        return whole;
    }
    whole.saturating_add(1).saturating_add(fraction)
}

/// Whether the `e` of an exponent and its digits, with a sign or without, stand at the front.
fn begins_exponent(bytes: &[u8]) -> bool {
    if letters_length(bytes) != 1 || !(bytes.starts_with(b"e") || bytes.starts_with(b"E")) {
        return false;
    }
    let rest = behind(bytes, 1);
    if rest.starts_with(b"-") || rest.starts_with(b"+") {
        return begins_number(behind(rest, 1));
    }
    begins_number(rest)
}

/// How long the exponent at the front is, with a unit after it.
fn exponent_length(bytes: &[u8]) -> usize {
    let before = if begins_number(behind(bytes, 1)) {
        1usize
    } else {
        2usize
    };
    before.saturating_add(name_length(behind(bytes, before)))
}

/// How long the number at the front is: digits after `0x`, or an amount with a unit, an exponent or
/// neither.
fn number_length(bytes: &[u8]) -> usize {
    if is_hexadecimal(bytes) {
        return name_length(bytes);
    }
    let amount = amount_length(bytes);
    let rest = behind(bytes, amount);
    if begins_exponent(rest) {
        return amount.saturating_add(exponent_length(rest));
    }
    amount.saturating_add(letters_length(rest))
}

/// Whether a number is a quantity, after which another may stand: it has a unit, or a point.
fn is_quantity(number: &[u8]) -> bool {
    !is_hexadecimal(number) && digits_length(number) < number.len()
}

/// How long the number at the front is, or the quantities, which may stand in a row with blanks
/// between them.
fn row_length(bytes: &[u8]) -> usize {
    let mut length = number_length(bytes);
    if !is_quantity(front(bytes, length)) {
        return length;
    }
    for _number in 0..bytes.len() {
        let rest = behind(bytes, length);
        let blanks = blanks_length(rest);
        let next = behind(rest, blanks);
        if !begins_number(next) {
            break;
        }
        length = length
            .saturating_add(blanks)
            .saturating_add(number_length(next));
    }
    length
}

/// Whether a number, or quantities in a row, are read.
fn is_read(alloc: Global, number: &[u8]) -> Result<bool, NoMemory> {
    let list = tokenize(alloc, number)?;
    Ok(!matches!(list.tokens.get(0), Some(Token::Stray(_))))
}

/// What is after the amount of a number.
fn unit_in(number: &[u8]) -> &[u8] {
    behind(number, amount_length(number))
}

/// Whether the digits after the point of a number make a whole number of ps, bps or b with its
/// unit.
fn is_whole_behind_point(alloc: Global, number: &[u8]) -> Result<bool, NoMemory> {
    let mut part = Vec::from_slice(alloc, b"0".as_slice())?;
    part.extend_from_slice(behind(number, digits_length(number)))?;
    is_read(alloc, part.as_slice())
}

/// Of what a quantity is a whole number.
fn parts_of(dimension: Dimension) -> &'static str {
    match dimension {
        Dimension::Time => "picoseconds",
        Dimension::Rate => "bits per second",
        Dimension::Length => "bits",
    }
}

/// The largest quantity.
fn largest_of(dimension: Dimension) -> &'static str {
    match dimension {
        Dimension::Time => "a time is at most 9223372.036854775807s",
        Dimension::Rate => "a rate is at most 9223372036854775807bps",
        Dimension::Length => "a length is at most 9223372036854775807b",
    }
}

/// Says why a number with a unit that is known is not read.
fn tell_amount(told: &mut Explanation, number: &[u8], dimension: Dimension) {
    match is_whole_behind_point(told.alloc(), number) {
        Ok(true) => {
            told.say(" is too large: ");
            told.say(largest_of(dimension));
        }
        Ok(false) => {
            told.say(" is not a whole number of ");
            told.say(parts_of(dimension));
        }
        Err(error) => told.refuse(error),
    }
}

/// Says that there is no such unit, and which there are.
fn tell_unit(told: &mut Explanation, unit: &[u8]) {
    if has_word(OTHER_UNITS, unit) {
        told.say(" has a unit that is ");
        told.say(FOREIGN);
    } else {
        told.say(" has no unit that is known: ");
    }
    told.say(UNITS);
    told.say("; write a number without a unit");
}

/// Says that a number is a real one.
fn tell_real(told: &mut Explanation) {
    told.say(" is a real number, which is ");
    told.say(FOREIGN);
    told.say("write a whole number, or a quantity as 500ms");
}

/// Says why a number is not read that begins with `0x` or `0X`.
fn tell_hexadecimal(told: &mut Explanation, number: &[u8]) {
    let digits = behind(number, 2);
    if number.starts_with(b"0X") || !digits.first().is_some_and(|byte| byte.is_ascii_hexdigit()) {
        return told.say(" is no number: hexadecimal digits stand after 0x");
    }
    told.say(LARGE);
}

/// Says why a number is not read.
fn tell_number(told: &mut Explanation, number: &[u8]) {
    told.say("; ");
    told.say_name(number);
    if is_hexadecimal(number) {
        return tell_hexadecimal(told, number);
    }
    let unit = unit_in(number);
    if begins_exponent(unit) {
        return tell_real(told);
    }
    match unit_of(unit) {
        Some((dimension, _)) => tell_amount(told, number, dimension),
        None if !unit.is_empty() => tell_unit(told, unit),
        None if is_quantity(number) => tell_real(told),
        None => told.say(LARGE),
    }
}

/// Says why quantities in a row are not read, of which each is by itself.
fn tell_row(told: &mut Explanation, row: &[u8]) {
    told.say("; ");
    told.say_name(row);
    told.say(
        " is no quantity: of several in a row each has a unit, all are times, all rates or all lengths, and the sum is below 2^63",
    );
}

/// The first of the numbers in a row that is not read by itself.
fn unread_in(alloc: Global, row: &[u8]) -> Result<Option<&[u8]>, NoMemory> {
    let mut rest = row;
    for _number in 0..row.len() {
        let number = front(rest, number_length(rest));
        if number.is_empty() {
            break;
        }
        if !is_read(alloc, number)? {
            return Ok(Some(number));
        }
        let after = behind(rest, number.len());
        rest = behind(after, blanks_length(after));
    }
    Ok(None)
}

/// Says why a number, or quantities in a row, are not read.
fn tell_numbers(told: &mut Explanation, row: &[u8]) {
    match unread_in(told.alloc(), row) {
        Ok(Some(number)) => tell_number(told, number),
        Ok(None) => tell_row(told, row),
        Err(error) => told.refuse(error),
    }
}

/// Says what is foreign at the front of an expression, which begins with a digit or a letter.
/// Answers how many bytes that is, and whether it was said.
fn tell_front(told: &mut Explanation, text: &[u8]) -> (usize, bool) {
    if !begins_number(text) {
        let length = name_length(text);
        let is_told = is_called(behind(text, length)) && tell_function(told, front(text, length));
        return (length, is_told);
    }
    let row = front(text, row_length(text));
    match is_read(told.alloc(), row) {
        Ok(true) => (row.len(), false),
        Ok(false) => {
            tell_numbers(told, row);
            (row.len(), true)
        }
        Err(error) => {
            told.refuse(error);
            (row.len(), true)
        }
    }
}

/// How long the text in quotes at the front is.
fn quoted_length(text: &[u8]) -> usize {
    let mut count = 1usize;
    for byte in behind(text, 1) {
        count = count.saturating_add(1);
        if *byte == b'"' {
            return count;
        }
    }
    count
}

/// Says the first thing in an expression that is OMNeT++'s own, with what to write instead, or the
/// first number in it that is not read, and why. Answers whether there is one.
pub fn tell_foreign(told: &mut Explanation, expression: &[u8]) -> bool {
    let mut rest = expression;
    for _byte in 0..expression.len() {
        let Some(byte) = rest.first() else {
            return false;
        };
        let (length, is_told) = match *byte {
            b'"' => (quoted_length(rest), false),
            byte if is_of_name(byte) => tell_front(told, rest),
            _ => (1, false),
        };
        if is_told {
            return true;
        }
        rest = behind(rest, length.max(1));
    }
    false
}

/// Says that a list or an object is OMNeT++'s own, where a value is one. Answers whether it is.
pub fn tell_braces(told: &mut Explanation, value: &[u8]) -> bool {
    let is_one = value.starts_with(b"{") || value.starts_with(b"[");
    if is_one {
        told.say("; values with braces or brackets are ");
        told.say(FOREIGN);
        told.say("a parameter is a truth value, a number, a quantity or a text");
    }
    is_one
}

/// Says that a recording mode is OMNeT++'s own, where this one is. Answers whether it is.
pub fn tell_mode(told: &mut Explanation, mode: &[u8]) -> bool {
    let is_one = has_word(MODES, mode);
    if is_one {
        told.say("; the recording mode ");
        told.say_name(mode);
        told.say(" is ");
        told.say(FOREIGN);
        told.say("record sum and count, or a vector, and compute it from these");
    }
    is_one
}

/// Says that a kind of parameters is OMNeT++'s own, where this is its word.
pub fn tell_kind(told: &mut Explanation, word: &[u8]) {
    if has_word(KINDS, word) {
        told.say("; parameters of the kind ");
        told.say_name(word);
        told.say(" are ");
        told.say(FOREIGN);
        told.say("declare a bool, an int, a double or a string");
    }
}

/// Says that what stands in `source` or as a recording mode is OMNeT++'s own.
pub fn tell_filter(told: &mut Explanation) {
    told.say("; filters and expressions are ");
    told.say(FOREIGN);
    told.say(
        "'source' is the name of a signal, and 'record' is a list of recording modes, both without quotes",
    );
}

/// Says that values for patterns of paths are OMNeT++'s own in NED.
pub fn tell_pattern(told: &mut Explanation) {
    told.say("; values for paths and patterns of parameters are in NED ");
    told.say(FOREIGN);
    told.say("write the entry into the ini file, or the value into the body of the submodule");
}

/// Says that a `double` without a unit of this profile is OMNeT++'s own.
pub fn tell_double(told: &mut Explanation) {
    told.say("; a double without a unit, or with another than there are, is ");
    told.say(FOREIGN);
    told.say(UNITS);
    told.say(", as in '@unit(s)'; for a whole number declare an int");
}

/// Says that a file begins with a byte order mark.
pub fn tell_mark(told: &mut Explanation) {
    told.say("the file begins with a byte order mark: save it as UTF-8 without one");
}

/// Whether a text begins with a byte order mark.
pub fn has_mark(text: &[u8]) -> bool {
    text.starts_with(b"\xef\xbb\xbf")
}
