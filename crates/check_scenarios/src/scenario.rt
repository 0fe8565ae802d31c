//! A scenario: the texts of a model, and what a desk is asked.

ghost use Rattle.std.specs.Prelude.{◌≤◌, IfOk};

use ned_trees::texts::NedTexts;
use sim_values::NoMemory;
use std::alloc::Global;

/// What stands before the name of a part.
const MARK: &str = "--- ";

/// The interval where a scenario gives none.
const INTERVAL: u64 = 10;

/// One scenario. Its file has parts, each after a line `--- ini`, `--- ned`, `--- config`, `---
/// interval`, `--- do` or `--- file PATH`. What comes before them says what it shows.
#[derive(Drop)]
pub struct Scenario<'a> {
    /// The NED files, in order.
    pub texts: NedTexts,
    /// The ini text, empty where there is none.
    pub ini: &'a str,
    /// The name of the configuration, `General` where none is named.
    pub config: &'a str,
    /// A run leaves a position after each multiple of so many events, of 10 where no number is
    /// given, or zero.
    pub interval: u64,
    /// What the desk is asked, a line for each. `scalars` and `vectors` ask for the files of the
    /// last run.
    pub asked: &'a str,
    /// All that the file has.
    pub all: &'a str,
}

/// What stands in the part `--- file PATH` of a scenario; nothing where it has none of that path.
pub fn file_in<'a>(all: &'a str, path: &[u8]) -> &'a str {
    for part in all.split(MARK) {
        if let Some((head, body)) = part.split_once('\n') {
            if is_file(head.as_bytes(), path) {
                return body;
            }
        }
    }
    ""
}

/// Whether the head of a part is that of the file of that path.
fn is_file(head: &[u8], path: &[u8]) -> bool {
    head.starts_with(b"file ") && head.ends_with(path) && head.len() == path.len().saturating_add(5)
}

/// The interval of that text.
fn interval_of(text: &str) -> u64
    ensures { 1 ≤ result }
{
    match text.trim_end().parse::<u64>() {
        Ok(interval) if interval >= 1 => interval,
        _ => INTERVAL,
    }
}

impl<'a> Scenario<'a> {
    /// The scenario that a file describes.
    pub fn read(alloc: Global, text: &'a str) -> Result<Scenario<'a>, NoMemory>
        ensures interval { IfOk result (λ scenario. 1 ≤ scenario.interval) }
    {
        let mut texts = NedTexts::new(alloc);
        let mut ini = "";
        let mut config = "General";
        let mut interval = INTERVAL;
        let mut asked = "";
        for part in text.split(MARK) {
            match part.split_once('\n') {
                Some(("ned", body)) => texts.push(body.as_bytes())?,
                Some(("ini", body)) => ini = body,
                Some(("config", body)) => config = body.trim_end(),
                Some(("interval", body)) => interval = interval_of(body),
                Some(("do", body)) => asked = body,
                _ => {}
            }
        }
        Ok(Scenario {
            texts,
            ini,
            config,
            interval,
            asked,
            all: text,
        })
    }
}
