//! The files of a run.

use ned_trees::texts::NedTexts;

/// The files of a run, as the program was given them, or as edits made them.
#[derive(Clone, Copy)]
pub struct Sources<'a> {
    pub ini_path: &'a str,
    pub ini: &'a [u8],
    /// The paths of the NED files, in the order of their texts.
    pub ned_paths: &'a [String],
    pub texts: &'a NedTexts,
    /// The name of the configuration.
    pub config: &'a str,
    /// Whether connections were added or taken out, which stand in no text.
    pub has_other_connections: bool,
}

impl Sources<'_> {
    /// The path of the NED file of that number, counted from 0.
    pub fn path(&self, file: usize) -> &str {
        match self.ned_paths.get(file) {
            Some(path) => path.as_str(),
            None => "",
        }
    }

    /// The text of the NED file of that number, counted from 0.
    pub fn text(&self, file: usize) -> &[u8] {
        match self.texts.get(file) {
            Some(text) => text,
            None => b"".as_slice(),
        }
    }
}
