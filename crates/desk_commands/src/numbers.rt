//! Numbers in command lines.

ghost use Rattle.std.specs.Prelude.{◌≡◌};
ghost use Rattle.desk_commands.specs.Numbers.{below_zero, from_zero, number_after, number_of};
ghost use Rattle.desk_commands.specs.Numbers.{short, short_of, signed_of};

/// The number that further digits make, where the digits so far made this one. There is none where
/// a byte is no digit, or where it doesn't fit in 64 bits.
fn number_after(so_far: u64, digits: &[u8]) -> Option<u64>
    ensures { result ≡ number_after so_far digits.now }
{
    let mut number = so_far;
    let mut rest = digits;
    'digits: while let [digit, after @ ..] = rest {
        if *digit < b'0' || *digit > b'9' {
            return None;
        }
        let next = number as u128 * 10 + (*digit - b'0') as u128;
        if next > u64::MAX as u128 {
            return None;
        }
        number = next as u64;
        rest = after;
    }
    Some(number)
}

/// The number that a word of decimal digits writes.
pub fn number_of(word: &[u8]) -> Option<u64>
    ensures { result ≡ number_of word.now }
{
    if word.is_empty() {
        return None;
    }
    number_after(0, word)
}

/// The number, where 32 bits hold it.
fn short(number: u64) -> Option<u64>
    ensures { result ≡ short number }
{
    if number > 4_294_967_295 {
        return None;
    }
    Some(number)
}

/// The number of 32 bits that a word of decimal digits writes.
pub(crate) fn short_of(word: &[u8]) -> Option<u64>
    ensures { result ≡ short_of word.now }
{
    short(number_of(word)?)
}

/// The number, where 16 bits with a sign hold it.
fn from_zero(number: u64) -> Option<i16>
    ensures { result ≡ from_zero number }
{
    if number > 32_767 {
        return None;
    }
    Some(number as i16)
}

/// The number so far below zero, where 16 bits hold it.
fn below_zero(number: u64) -> Option<i16>
    ensures { result ≡ below_zero number }
{
    if number > 32_768 {
        return None;
    }
    Some((-(number as i32)) as i16)
}

/// The number of 16 bits that a word of decimal digits writes, with a `-` before them where it is
/// below zero.
#[tactic(auto, unfolding(crate::specs::Numbers::signed_of))]
pub(crate) fn signed_of(word: &[u8]) -> Option<i16>
    ensures { result ≡ signed_of word.now }
{
    match word {
        [b'-', digits @ ..] => below_zero(number_of(digits)?),
        _ => from_zero(number_of(word)?),
    }
}
