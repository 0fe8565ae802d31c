//! Texts as they are printed.

use crate::telling::Telling;
use sim_values::text::Text;

/// The text that bytes are.
pub fn text_of(bytes: &[u8]) -> &str {
    match std::str::from_utf8(bytes) {
        Ok(text) => text,
        Err(_) => "no UTF-8",
    }
}

/// The characters of a text.
pub fn written(text: &Text) -> &str {
    text_of(text.as_bytes())
}

/// Tells names, each with a blank after it.
pub fn tell_names(told: &mut Telling, names: &[Text]) {
    for name in names {
        told.text(written(name));
        told.text(" ");
    }
}
