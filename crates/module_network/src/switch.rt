//! A module that sends frames on by their destination.

ghost use Rattle.std.specs.Prelude.{◌≡◌, codes, IfOk};
ghost use Rattle.module_parts.specs.Asking.{told};
ghost use Rattle.module_network.specs.Switch.{forwarded, dropped, port_for, switched, switch_script};

use crate::frame::{Frame, port_of};
use module_api::call::{Call, CallReason};
use module_api::message::{Message, Outgoing};
use module_api::reply::{Action, Reply};
use module_parts::cues::is_timer;
use module_parts::looks::Looks;
use module_parts::player::Scripted;
use module_parts::replies::{emit, nothing, send, simply};
use module_stock::held::kept;
use sim_values::NoMemory;
use sim_values::text::Text;
use sqlite_items::Items;
use std::alloc::Global;

/// A module that sends each frame on through the element of its gate `port` that its `table` has
/// for the destination.
#[derive(Drop)]
pub struct Switch {}

impl Scripted for Switch {
    ghost kind = { codes "Switch" };

    ghost script = { switch_script };

    fn name(&self) -> &str {
        "Switch"
    }

    #[tactic(auto, unfolding(crate::specs::Switch::switch_script))]
    fn answer(&mut self, alloc: Global, call: &Call) -> Result<Reply, NoMemory> {
        if let CallReason::Message(message) = &call.prompt {
            if !is_timer(&message.origin) {
                return self.switch(alloc, call, message);
            }
        }
        Ok(nothing(alloc))
    }

    #[tactic(auto, unfolding(crate::specs::Switch::switch_script))]
    fn reads_back(&self) {}

    #[tactic(auto, unfolding(crate::specs::Switch::switch_script))]
    fn save(&self, alloc: Global) -> Result<Text, NoMemory> {
        Ok(Text::empty(alloc))
    }

    #[tactic(auto, unfolding(crate::specs::Switch::switch_script))]
    fn load(&mut self, _alloc: Global, _state: &[u8]) -> Result<(), NoMemory> {
        Ok(())
    }
}

impl Switch {
    /// Sends a frame on, or drops what is none.
    fn switch(&self, alloc: Global, call: &Call, message: &Message) -> Result<Reply, NoMemory>
        ensures { IfOk result (λ reply. told (switched self.now message.now) call.now
            ≡ record { reply = reply; state = self.now }) }
    {
        match Frame::read(message.payload.as_bytes()) {
            None => Ok(simply(alloc, dropped(alloc)?)),
            Some(frame) => {
                let mut looks = Looks::new(alloc);
                let table = looks.text(alloc, call, "table")?;
                let size = looks.ports(alloc, call, "port")?;
                let k = port_for(table.as_bytes(), frame.destination);
                let actions = forwarded(alloc, size, k, kept(alloc, message)?)?;
                looks.reply(alloc, actions)
            }
        }
    }
}

/// What is done with a message that goes nowhere.
fn dropped(alloc: Global) -> Result<Items<Action>, NoMemory>
    ensures { IfOk result (λ actions. actions ≡ dropped) }
{
    let mut actions = Items::new(alloc);
    emit(&mut actions, "dropped", 1)?;
    Ok(actions)
}

/// The port that a table has for an address, 255 where it has none.
fn port_for(table: &[u8], address: u16) -> u8
    ensures { result ≡ port_for table.now address }
{
    let address = address as usize;
    if address < table.len() {
        port_of(table[address])
    } else {
        255
    }
}

/// Sends a message through port k, where there is one.
fn forwarded(alloc: Global, size: u32, k: u8, message: Outgoing) -> Result<Items<Action>, NoMemory>
    ensures { IfOk result (λ actions. actions ≡ forwarded size k message) }
{
    if (k as u32) < size && k < 255 {
        let mut actions = Items::new(alloc);
        emit(&mut actions, "forwarded", k as i64)?;
        send(&mut actions, "port$o", k as u32, message)?;
        Ok(actions)
    } else {
        dropped(alloc)
    }
}
