//! Where modules stand, by their paths.

ghost use Rattle.std.specs.Prelude.{◌≡◌, ◌<◌, IfOk, IfSome, length};
ghost use Rattle.std.specs.Option.{option_copied};
ghost use Rattle.model_settings.specs.Standings.{around_of, before_last, bracket_of, dots_in};
ghost use Rattle.model_settings.specs.Standings.{index_after, index_behind, index_in, is_too_deep};
ghost use Rattle.model_settings.specs.Standings.{name_before, name_in};

use ini_trees::speaks::last_name;
use inside_keys::key::Module;
use sim_values::NoMemory;
use sim_values::text::Text;
use std::alloc::Global;

/// How many dots the path of a module has at most.
const MAX_DOTS: usize = 31;

/// What stands before the last dot of a path: the path of the module around.
pub fn before_last(path: &[u8]) -> Option<&[u8]>
    ensures { option_copied result ≡ before_last path.now }
{
    let own = last_name(path);
    if own.len() < path.len() {
        Some(&path[..path.len() - (own.len() + 1)])
    } else {
        None
    }
}

/// The module around one.
pub fn around_of(alloc: Global, site: &Module) -> Result<Option<Module>, NoMemory>
    ensures { IfOk result (λ around. around ≡ around_of site.now) }
{
    match before_last(site.path.as_bytes()) {
        Some(path) => Ok(Some(Module {
            created: site.created,
            path: Text::from_bytes(alloc, path)?,
        })),
        None => Ok(None),
    }
}

/// Where the bracket of an index begins in a module's name.
fn bracket_of(own: &[u8]) -> Option<usize>
    ensures value { result ≡ bracket_of own.now }
    ensures within { IfSome result (λ at. at < length own.now) }
{
    own.iter().position(|byte| *byte == b'[')
}

/// A module's name, from what stands after the last dot of its path.
pub fn name_in(own: &[u8]) -> &[u8]
    ensures { result.now ≡ name_in own.now }
{
    match bracket_of(own) {
        Some(at) => &own[..at],
        None => own,
    }
}

/// The number that digits make, after those that made this one, up to the bracket that ends them.
fn index_after(so_far: u32, digits: &[u8]) -> Option<u32>
    ensures { result ≡ index_after so_far digits.now }
{
    let mut number = so_far;
    let mut rest = digits;
    'digits: while let [digit, after @ ..] = rest {
        if *digit == b']' {
            return Some(number);
        }
        if *digit < b'0' || *digit > b'9' {
            return None;
        }
        let next = number as u64 * 10 + (*digit - b'0') as u64;
        if next > u32::MAX as u64 {
            return None;
        }
        number = next as u32;
        rest = after;
    }
    None
}

/// A module's index, from what stands after the last dot of its path.
pub fn index_in(own: &[u8]) -> Option<u32>
    ensures { result ≡ index_in own.now }
{
    let at = bracket_of(own)?;
    index_after(0, &own[at + 1..])
}

/// How many dots a path has.
fn dots_in(path: &[u8]) -> usize
    ensures { result ≡ dots_in path.now }
{
    let mut dots = 0;
    for byte in path {
        if *byte == b'.' {
            dots += 1;
        }
    }
    dots
}

/// Whether a path has more than 32 names.
pub fn is_too_deep(path: &[u8]) -> bool
    ensures { result ≡ is_too_deep path.now }
{
    dots_in(path) > MAX_DOTS
}
