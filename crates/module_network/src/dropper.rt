//! A module that loses messages.

ghost use Rattle.std.specs.Prelude.{◌≡◌, codes, IfOk};
ghost use Rattle.module_parts.specs.Asking.{told};
ghost use Rattle.module_network.specs.Dropper.{is_lost, passed, heard, dropper_script};

use module_api::call::{Call, CallReason};
use module_api::message::{Message, Outgoing};
use module_api::reply::{Action, Reply};
use module_parts::cues::is_from;
use module_parts::looks::Looks;
use module_parts::numbers::Number;
use module_parts::player::Scripted;
use module_parts::replies::{emit, nothing, send};
use module_stock::held::kept;
use sim_values::NoMemory;
use sim_values::text::Text;
use sqlite_items::Items;
use std::alloc::Global;

/// A module that sends each message on, but for those that its `pattern` marks.
#[derive(Drop)]
pub struct Dropper {
    /// How many messages have come.
    pub n: Number,
}

impl Scripted for Dropper {
    ghost kind = { codes "Dropper" };

    ghost script = { dropper_script };

    fn name(&self) -> &str {
        "Dropper"
    }

    #[tactic(auto, unfolding(crate::specs::Dropper::dropper_script))]
    fn answer(&mut self, alloc: Global, call: &Call) -> Result<Reply, NoMemory> {
        if let CallReason::Message(message) = &call.prompt {
            if is_from("in", &message.origin) {
                return self.pass(alloc, call, message);
            }
        }
        Ok(nothing(alloc))
    }

    #[tactic(auto, unfolding(crate::specs::Dropper::dropper_script), using(module_parts::specs::NumberLaws::number_reads_back))]
    fn reads_back(&self) {
        let _n = self.n.signed();
    }

    #[tactic(auto, unfolding(crate::specs::Dropper::dropper_script))]
    fn save(&self, alloc: Global) -> Result<Text, NoMemory> {
        self.n.bytes(alloc)
    }

    #[tactic(auto, unfolding(crate::specs::Dropper::dropper_script))]
    fn load(&mut self, _alloc: Global, state: &[u8]) -> Result<(), NoMemory> {
        self.n = Number::of_bytes(state);
        Ok(())
    }
}

impl Dropper {
    /// A Dropper that no message has reached.
    pub fn new() -> Dropper
        ensures { result ≡ record { n = 0 } }
    {
        Dropper { n: Number::zero() }
    }

    /// Sends a message on, or loses it.
    fn pass(&mut self, alloc: Global, call: &Call, message: &Message) -> Result<Reply, NoMemory>
        ensures { IfOk result (λ reply. told (heard self.old message.now) call.now
            ≡ record { reply = reply; state = self.new }) }
    {
        let n = self.n.next();
        let mut looks = Looks::new(alloc);
        let pattern = looks.text(alloc, call, "pattern")?;
        let repeat = looks.truth(alloc, call, "repeat")?;
        let lost = is_lost(pattern.as_bytes(), repeat, self.n);
        let actions = passed(alloc, lost, n, kept(alloc, message)?)?;
        self.n = looks.left(self.n, n);
        looks.reply(alloc, actions)
    }
}

/// Sends a message on, or loses it.
fn passed(
    alloc: Global,
    lost: bool,
    n: Number,
    message: Outgoing,
) -> Result<Items<Action>, NoMemory>
    ensures { IfOk result (λ actions. actions ≡ passed lost n message) }
{
    let mut actions = Items::new(alloc);
    if lost {
        emit(&mut actions, "dropped", n.signed())?;
    } else {
        send(&mut actions, "out", 0, message)?;
    }
    Ok(actions)
}

/// Whether the message of that number, from 0 on, is lost.
fn is_lost(pattern: &[u8], repeat: bool, n: Number) -> bool
    ensures { result ≡ is_lost pattern.now repeat n }
{
    let n = n.signed() as usize;
    if n < pattern.len() {
        return pattern[n] == 120;
    }
    if repeat && pattern.len() > 0 {
        return pattern[n % pattern.len()] == 120;
    }
    false
}
