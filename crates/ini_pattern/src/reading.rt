//! Texts by their characters.

ghost use Rattle.std.specs.Prelude.{◌≡◌, ◌↔◌, ◌<◌, [], ◌∷◌, ◌++◌, length, IsTrue, MatchOption};
ghost use Rattle.std.specs.Prelude.{false};
ghost use Rattle.std.specs.Str.{chars};
ghost use Rattle.ini_pattern.specs.PatternOf.{begins_with, digits_front, after_digits};
ghost use Rattle.ini_pattern.specs.Reading.{IsReadingOf, EndsNotWith};

/// The first character of a text, and what follows it.
pub(crate) fn first_char(text: &str) -> Option<(char, &str)>
    ensures { MatchOption result (chars text.now ≡ [])
        (λ first. chars text.now ≡ first.0 ∷ chars first.1.now) }
{
    let mut characters = text.chars();
    let first = characters.next()?;
    Some((first, characters.as_str()))
}

/// What stands before this character, where a text ends with it.
pub(crate) fn before_char(text: &str, wanted: char) -> Option<&str>
    ensures { MatchOption result (EndsNotWith wanted (chars text.now))
        (λ rest. chars text.now ≡ chars rest.now ++ (wanted ∷ [])) }
{
    let mut characters = text.chars();
    let last = characters.next_back()?;
    let rest = characters.as_str();
    if last == wanted { Some(rest) } else { None }
}

/// Digits of a number.
#[derive(Clone, Copy)]
pub(crate) struct Digits {
    /// How many they are, or 19 where they are more than 18.
    pub count: u32,
    /// Their value, where they are no more than 18.
    pub value: u64,
}

/// The digits that a text begins with, and what follows them.
pub(crate) fn digit_run(text: &str) -> (Digits, &str)
    ensures digits { IsReadingOf (digits_front (chars text.now)) result.0 }
    ensures rest { chars result.1.now ≡ after_digits (chars text.now) }
{
    let mut count: u32 = 0;
    let mut value: u64 = 0;
    let mut rest = text;
    while let Some((digit, after)) = first_char(rest) {
        if !digit.is_ascii_digit() {
            break;
        }
        if count < 18 {
            value = value * 10 + (u64::from(digit) - 48);
        }
        count = (count + 1).min(19);
        rest = after;
    }
    (Digits { count, value }, rest)
}

/// Whether a text begins with more than 18 digits. It looks at no more than 19 of them.
pub(crate) fn is_long_run(text: &str) -> bool
    ensures { IsTrue result ↔ (18 < length (digits_front (chars text.now))) }
{
    let mut count: u32 = 0;
    let mut rest = text;
    while let Some((digit, after)) = first_char(rest) {
        if !digit.is_ascii_digit() {
            return false;
        }
        if count == 18 {
            return true;
        }
        count += 1;
        rest = after;
    }
    false
}

/// What follows this character, where a text begins with it.
pub(crate) fn after_char(text: &str, wanted: char) -> Option<&str>
    ensures { MatchOption result (begins_with wanted (chars text.now) ≡ false)
        (λ rest. chars text.now ≡ wanted ∷ chars rest.now) }
{
    let (first, rest) = first_char(text)?;
    if first == wanted { Some(rest) } else { None }
}
