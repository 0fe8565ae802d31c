//! What edits make of texts.

use ini_config::edits::{with_inserted, with_removed, with_replaced};
use ini_config::error::EditError;
use ini_trees::lines::IniText;
use model_edits::edit::Edit;
use ned_trees::texts::NedTexts;
use sim_values::NoMemory;
use sim_values::text::Text;
use std::alloc::{AllocError, Global};

/// The ini text that an edit makes, or why it makes none. None of an edit of something else.
pub fn changed_ini(
    alloc: Global,
    ini: &IniText,
    edit: &Edit,
) -> Option<Result<IniText, EditError>> {
    match edit {
        Edit::InsertIni(line, text) => Some(with_inserted(alloc, ini, *line, text.as_bytes())),
        Edit::ReplaceIni(line, text) => Some(with_replaced(alloc, ini, *line, text.as_bytes())),
        Edit::RemoveIni(line) => Some(with_removed(alloc, ini, *line)),
        _ => None,
    }
}

/// The line of that number of the ini text that an edit makes, where it is the edit of that text.
pub fn changed_line<'a>(ini: &'a IniText, edit: &'a Edit, number: usize) -> &'a [u8] {
    let before = number.saturating_sub(1);
    let place = match edit {
        Edit::InsertIni(line, text) | Edit::ReplaceIni(line, text) if *line == number => {
            return text.as_bytes();
        }
        Edit::InsertIni(line, _) if *line < number => before.saturating_sub(1),
        Edit::RemoveIni(line) if *line <= number => number,
        _ => before,
    };
    match ini.lines().get(place) {
        Some(line) => line.text.as_bytes(),
        None => b"".as_slice(),
    }
}

/// The bytes of an ini text: its lines, each with its line feed.
pub fn bytes_of(alloc: Global, ini: &IniText) -> Result<Vec<u8>, AllocError> {
    let mut bytes = Vec::new(alloc);
    for line in ini.lines() {
        bytes.extend_from_slice(line.text.as_bytes())?;
        bytes.push(b'\n')?;
    }
    Ok(bytes)
}

/// Equal texts.
pub fn copied(alloc: Global, texts: &[Text]) -> Result<NedTexts, NoMemory> {
    let mut copy = NedTexts::new(alloc);
    for text in texts {
        copy.push(text.as_bytes())?;
    }
    Ok(copy)
}

/// Equal texts, but for this one in that place.
pub fn with_text(
    alloc: Global,
    texts: &[Text],
    number: usize,
    text: &[u8],
) -> Result<NedTexts, NoMemory> {
    let mut changed = NedTexts::new(alloc);
    for (at, old) in texts.iter().enumerate() {
        if at == number {
            changed.push(text)?;
        } else {
            changed.push(old.as_bytes())?;
        }
    }
    Ok(changed)
}

/// Equal paths.
pub fn paths_copied(alloc: Global, paths: &[String]) -> Result<Vec<String>, AllocError> {
    let mut copy = Vec::new(alloc);
    for path in paths {
        copy.push(String::from_str(alloc, path.as_str())?)?;
    }
    Ok(copy)
}

/// Equal paths, but for this one in that place.
pub fn with_path(
    alloc: Global,
    paths: &[String],
    number: usize,
    path: &str,
) -> Result<Vec<String>, AllocError> {
    let mut changed = Vec::new(alloc);
    for (at, old) in paths.iter().enumerate() {
        let chosen = if at == number { path } else { old.as_str() };
        changed.push(String::from_str(alloc, chosen)?)?;
    }
    Ok(changed)
}
