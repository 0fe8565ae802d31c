//! A module that sends messages on.

ghost use Rattle.std.specs.Prelude.{◌≡◌, codes, IfOk};
ghost use Rattle.module_parts.specs.Asking.{told};
ghost use Rattle.module_stock.specs.Router.{stripped, passed, routed, router_script};

use crate::arrivals::received;
use module_api::call::{Call, CallReason};
use module_api::message::{Message, Outgoing};
use module_api::reply::{Action, Reply};
use module_parts::cues::is_timer;
use module_parts::looks::Looks;
use module_parts::player::Scripted;
use module_parts::replies::{fail, nothing, send, simply};
use sim_values::NoMemory;
use sim_values::text::Text;
use sqlite_items::Items;
use std::alloc::Global;

/// A module that sends each message on through the element of its gate `port` that the first byte
/// of the payload names, without that byte. A message with an empty payload ends here.
#[derive(Drop)]
pub struct Router {}

impl Scripted for Router {
    ghost kind = { codes "Router" };

    ghost script = { router_script };

    fn name(&self) -> &str {
        "Router"
    }

    #[tactic(auto, unfolding(crate::specs::Router::router_script))]
    fn answer(&mut self, alloc: Global, call: &Call) -> Result<Reply, NoMemory> {
        if let CallReason::Message(message) = &call.prompt {
            if !is_timer(&message.origin) {
                return self.route(alloc, call, message);
            }
        }
        Ok(nothing(alloc))
    }

    #[tactic(auto, unfolding(crate::specs::Router::router_script))]
    fn reads_back(&self) {}

    #[tactic(auto, unfolding(crate::specs::Router::router_script))]
    fn save(&self, alloc: Global) -> Result<Text, NoMemory> {
        Ok(Text::empty(alloc))
    }

    #[tactic(auto, unfolding(crate::specs::Router::router_script))]
    fn load(&mut self, _alloc: Global, _state: &[u8]) -> Result<(), NoMemory> {
        Ok(())
    }
}

impl Router {
    /// Sends a message on, or ends it.
    fn route(&self, alloc: Global, call: &Call, message: &Message) -> Result<Reply, NoMemory>
        ensures { IfOk result (λ reply. told (routed self.now message.now message.now.payload)
            call.now ≡ record { reply = reply; state = self.now }) }
    {
        match message.payload.as_bytes() {
            [] => Ok(simply(alloc, received(alloc, message.bits)?)),
            [k, rest @ ..] => {
                let mut looks = Looks::new(alloc);
                let size = looks.ports(alloc, call, "port")?;
                let actions = passed(alloc, size, *k, stripped(alloc, message, rest)?)?;
                looks.reply(alloc, actions)
            }
        }
    }
}

/// The same message, with the rest of its payload.
fn stripped(alloc: Global, message: &Message, rest: &[u8]) -> Result<Outgoing, NoMemory>
    ensures { IfOk result (λ on. on ≡ stripped message.now rest.now) }
{
    Ok(Outgoing {
        kind: message.kind,
        priority: message.priority,
        bits: message.bits,
        payload: Text::from_bytes(alloc, rest)?,
    })
}

/// Sends a message through port k, where there is one.
fn passed(alloc: Global, size: u32, k: u8, message: Outgoing) -> Result<Items<Action>, NoMemory>
    ensures { IfOk result (λ actions. actions ≡ passed size k message) }
{
    let mut actions = Items::new(alloc);
    if (k as u32) < size {
        send(&mut actions, "port$o", k as u32, message)?;
    } else {
        fail(&mut actions, alloc, "route")?;
    }
    Ok(actions)
}
