//! The texts of a session.

use crate::changes::{changed_ini, copied, paths_copied, with_path, with_text};
use explain_types::names::shown;
use explain_types::sources::Sources;
use ini_config::error::{EditError, IniError};
use ini_config::parse::parse_ini;
use ini_trees::lines::IniText;
use model_edits::edit::Edit;
use ned_trees::texts::NedTexts;
use sim_values::NoMemory;
use sim_values::text::spells;
use sqlite_items::Items;
use std::alloc::Global;

/// The texts of a session: the files as they were read, with the edits that were made since.
#[derive(Drop)]
pub struct SessionTexts {
    alloc: Global,
    ini_path: String,
    pub ini: IniText,
    /// The paths of the NED files, in the order of their texts.
    paths: Vec<String>,
    texts: NedTexts,
    /// The name of the configuration.
    config: String,
    has_other_connections: bool,
}

/// The lines of an ini text that was read before; none where it was not.
fn lines_of(alloc: Global, bytes: &[u8]) -> Result<IniText, NoMemory> {
    match parse_ini(alloc, bytes) {
        Ok(text) => Ok(text),
        Err(IniError::NoMemory(error)) => Err(error),
        Err(_) => Ok(IniText::of_lines(Items::new(alloc))),
    }
}

impl SessionTexts {
    /// The texts of files to which no edit was made.
    pub fn new(alloc: Global, sources: &Sources<'_>) -> Result<SessionTexts, NoMemory> {
        Ok(SessionTexts {
            alloc,
            ini_path: String::from_str(alloc, sources.ini_path)?,
            ini: lines_of(alloc, sources.ini)?,
            paths: paths_copied(alloc, sources.ned_paths)?,
            texts: copied(alloc, sources.texts.as_slice())?,
            config: String::from_str(alloc, sources.config)?,
            has_other_connections: sources.has_other_connections,
        })
    }

    /// The path of the ini file.
    pub fn path(&self) -> &str {
        self.ini_path.as_str()
    }

    /// The name of the configuration that is selected.
    pub fn config(&self) -> &str {
        self.config.as_str()
    }

    /// The path of the NED file of that number.
    pub fn ned_path(&self, number: usize) -> Option<&str> {
        match self.paths.get(number) {
            Some(path) => Some(path.as_str()),
            None => None,
        }
    }

    /// The text of the NED file of that number.
    pub fn ned_text(&self, number: usize) -> Option<&[u8]> {
        self.texts.get(number)
    }

    /// Whether connections were put in or taken out, which stand in no text.
    pub fn has_other_connections(&self) -> bool {
        self.has_other_connections
    }

    /// Whether the configuration of that name is selected.
    pub fn is_selected(&self, name: &[u8]) -> bool {
        spells(self.config.as_bytes(), name)
    }

    /// The texts as files, with these bytes of the ini text.
    pub fn sources<'a>(&'a self, ini: &'a [u8]) -> Sources<'a> {
        Sources {
            ini_path: self.ini_path.as_str(),
            ini,
            ned_paths: self.paths.as_slice(),
            texts: &self.texts,
            config: self.config.as_str(),
            has_other_connections: self.has_other_connections,
        }
    }

    /// Changes the ini text as an edit of it says that was made.
    fn take_ini(&mut self, edit: &Edit) -> Result<(), NoMemory> {
        match changed_ini(self.alloc, &self.ini, edit) {
            Some(Ok(changed)) => {
                self.ini = changed;
                Ok(())
            }
            Some(Err(EditError::NoMemory(error))) => Err(error),
            _ => Ok(()),
        }
    }

    /// Changes the texts as an edit says that was made, and that is none of a NED file.
    pub fn take(&mut self, edit: &Edit) -> Result<(), NoMemory> {
        match edit {
            Edit::SelectConfig(name) => {
                self.config = String::from_str(self.alloc, shown(name.as_bytes()))?;
            }
            Edit::AddConnection(_, _, _) | Edit::RemoveConnection(_, _) => {
                self.has_other_connections = true;
            }
            _ => self.take_ini(edit)?,
        }
        Ok(())
    }

    /// The NED file of that number is this text now, which the file of that path holds.
    pub fn take_ned(&mut self, number: usize, path: &[u8], text: &[u8]) -> Result<(), NoMemory> {
        let texts = with_text(self.alloc, self.texts.as_slice(), number, text)?;
        self.paths = with_path(self.alloc, self.paths.as_slice(), number, shown(path))?;
        self.texts = texts;
        Ok(())
    }
}
