//! A module that deletes another, as an example, and a catalogue that knows it.

ghost use Rattle.std.specs.Prelude.{codes};
ghost use Rattle.check_runs.specs.Reaper.{reaper_script};

use module_api::call::Call;
use module_api::catalogue::Catalogue;
use module_api::reply::Reply;
use module_parts::cues::Cue;
use module_parts::player::Scripted;
use module_parts::replies::{delete, nothing, set_timer, simply};
use sim_time::SimTime;
use sim_values::NoMemory;
use sim_values::text::Text;
use sqlite_items::Items;
use std::alloc::Global;

/// A Reaper deletes `N.h` after 2.5 s.
#[derive(Drop)]
pub struct Reaper {}

impl Scripted for Reaper {
    ghost kind = { codes "Reaper" };

    ghost script = { reaper_script };

    fn name(&self) -> &str {
        "Reaper"
    }

    #[tactic(auto, unfolding(crate::specs::Reaper::reaper_script))]
    fn answer(&mut self, alloc: Global, call: &Call) -> Result<Reply, NoMemory> {
        let mut actions = Items::new(alloc);
        match Cue::of(call) {
            Cue::Start => {
                set_timer(
                    &mut actions,
                    SimTime::from_ps(2_500_000_000_000).unwrap(),
                    0,
                )?;
                Ok(simply(alloc, actions))
            }
            Cue::Timer => {
                delete(&mut actions, alloc, "N.h".as_bytes(), false)?;
                Ok(simply(alloc, actions))
            }
            Cue::Other => Ok(nothing(alloc)),
        }
    }

    #[tactic(auto, unfolding(crate::specs::Reaper::reaper_script))]
    fn reads_back(&self) {}

    #[tactic(auto, unfolding(crate::specs::Reaper::reaper_script))]
    fn save(&self, alloc: Global) -> Result<Text, NoMemory> {
        Ok(Text::empty(alloc))
    }

    #[tactic(auto, unfolding(crate::specs::Reaper::reaper_script))]
    fn load(&mut self, _alloc: Global, _state: &[u8]) -> Result<(), NoMemory> {
        Ok(())
    }
}

/// The catalogue that knows it, and the stock modules Source and Sink.
pub struct Reaping;

impl Catalogue for Reaping {
    ghost use Rattle.check_runs.specs.Reaper.{reaped, reaped_lawful};

    ghost behaviour = { reaped };

    ghost lawful = { reaped_lawful };
}
