//! Blanks: spaces and tabs.

ghost use Rattle.std.specs.Prelude.{◌≡◌};
ghost use Rattle.ini_entries.specs.Texts as texts;

/// Whether a byte is a space or a tab.
pub fn is_blank(byte: u8) -> bool
    ensures { result ≡ texts.is_blank byte }
{
    byte == b' ' || byte == b'\t'
}

/// The text without the blanks at its front.
pub fn after_blanks(bytes: &[u8]) -> &[u8]
    ensures { result.now ≡ texts.after_blanks bytes.now }
{
    let mut rest = bytes;
    'blanks: while let [b, after @ ..] = rest {
        if !is_blank(*b) {
            return rest;
        }
        rest = after;
    }
    rest
}

/// The text without the blanks at its end.
pub fn before_blanks(bytes: &[u8]) -> &[u8]
    ensures { result.now ≡ texts.before_blanks bytes.now }
{
    let mut end = bytes.len();
    'blanks: while end > 0 && is_blank(bytes[end - 1]) {
        end -= 1;
    }
    &bytes[..end]
}
