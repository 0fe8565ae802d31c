//! A module at which messages end.

ghost use Rattle.std.specs.Prelude.{codes};
ghost use Rattle.module_stock.specs.Sink.{sink_script};

use crate::arrivals::received;
use module_api::call::{Call, CallReason};
use module_api::reply::Reply;
use module_parts::cues::is_from;
use module_parts::player::Scripted;
use module_parts::replies::{nothing, simply};
use sim_values::NoMemory;
use sim_values::text::Text;
use std::alloc::Global;

/// A module that emits how long the messages are that reach its gate `in`, or that come from
/// outside.
#[derive(Drop)]
pub struct Sink {}

impl Scripted for Sink {
    ghost kind = { codes "Sink" };

    ghost script = { sink_script };

    fn name(&self) -> &str {
        "Sink"
    }

    #[tactic(auto, unfolding(crate::specs::Sink::sink_script))]
    fn answer(&mut self, alloc: Global, call: &Call) -> Result<Reply, NoMemory> {
        if let CallReason::Message(message) = &call.prompt {
            if is_from("in", &message.origin) {
                return Ok(simply(alloc, received(alloc, message.bits)?));
            }
        }
        Ok(nothing(alloc))
    }

    #[tactic(auto, unfolding(crate::specs::Sink::sink_script))]
    fn reads_back(&self) {}

    #[tactic(auto, unfolding(crate::specs::Sink::sink_script))]
    fn save(&self, alloc: Global) -> Result<Text, NoMemory> {
        Ok(Text::empty(alloc))
    }

    #[tactic(auto, unfolding(crate::specs::Sink::sink_script))]
    fn load(&mut self, _alloc: Global, _state: &[u8]) -> Result<(), NoMemory> {
        Ok(())
    }
}
