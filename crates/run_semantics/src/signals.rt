//! Names of signals, shared by the emissions that have them.

ghost use Rattle.std.specs.Prelude.{◌≡◌, IfOk, IfSome, [], ◌∷◌};
ghost use Rattle.std.specs.Str.{bytes_eq};

use module_api::name::Name;
use module_api::names::are_same;
use sim_values::text::Text;
use sqlite_items::Items;
use std::alloc::{AllocError, Global};
use std::marker::Model;
use std::rc::Rc;

/// How many names are kept to be shared.
const MAX_NAMES: usize = 64;

/// The name of a signal. All that share it have its bytes in one place, which counts them.
/// Contracts see the list of its bytes.
#[derive(Drop)]
pub struct SignalName {
    text: Rc<Text>,
}

impl Model for SignalName {
    ghost use Rattle.std.specs.Prelude.{List, ℕ};

    ghost Value = { List ℕ };

    ghost view = { λ n. n.text.value };
}

impl SignalName {
    /// A name of these bytes.
    pub fn new(alloc: Global, text: Text) -> Result<SignalName, AllocError>
        ensures { IfOk result (λ name. name ≡ text) }
    {
        Ok(SignalName {
            text: Rc::new(alloc, text)?,
        })
    }

    /// The same name, which takes no memory.
    pub fn share(&self) -> Result<SignalName, AllocError>
        ensures { IfOk result (λ name. name ≡ self.now) }
    {
        Ok(SignalName {
            text: self.text.clone()?,
        })
    }

    /// Whether these are its bytes.
    pub fn is(&self, bytes: &[u8]) -> bool
        ensures { result ≡ bytes_eq self.now bytes.now }
    {
        are_same(self.text.as_bytes(), bytes)
    }
}

/// The names that were made last, so that emissions of one signal share its name. After so many
/// names all are forgotten: what is looked through for an emission stays short, and a name that is
/// in use comes again.
#[derive(Drop)]
pub struct SignalNames {
    names: Items<SignalName>,
}

impl SignalNames {
    /// No name was made.
    pub fn new(alloc: Global) -> SignalNames {
        SignalNames {
            names: Items::new(alloc),
        }
    }

    /// The name of a signal: one that was made, or a new one.
    pub fn shared(&mut self, alloc: Global, signal: &Name) -> Result<SignalName, AllocError>
        ensures { IfOk result (λ name. name ≡ signal.now) }
    {
        match known(self.names.as_slice(), signal.as_bytes()) {
            Some(name) => name.share(),
            None => self.made(alloc, signal),
        }
    }

    /// A new name, which is kept to be shared.
    fn made(&mut self, alloc: Global, signal: &Name) -> Result<SignalName, AllocError>
        ensures { IfOk result (λ name. name ≡ signal.now) }
    {
        let name = SignalName::new(alloc, signal.text(alloc)?)?;
        let kept = name.share()?;
        if self.names.len() >= MAX_NAMES {
            self.names = Items::new(alloc);
        }
        self.names.push(kept)?;
        Ok(name)
    }
}

/// The first name of these bytes, if there is one.
fn known<'a>(names: &'a [SignalName], bytes: &[u8]) -> Option<&'a SignalName>
    ensures { IfSome result (λ name. name.now ≡ bytes.now) }
{
    for name in names {
        if name.is(bytes) {
            return Some(name);
        }
    }
    None
}
