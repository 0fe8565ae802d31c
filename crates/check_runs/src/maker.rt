//! A module that creates and deletes others, as an example, and a catalogue that knows it.

ghost use Rattle.std.specs.Prelude.{◌≡◌, ◌++◌, [], ◌∷◌, true, codes, IfOk, OnOk};
ghost use Rattle.module_api.specs.declared.reply.Action.TheVariants.{Delete};
ghost use Rattle.module_parts.specs.Asking.{told};
ghost use Rattle.module_stock.specs.Spawner.{soon};
ghost use Rattle.check_runs.specs.Maker.{begun, by_task, first, last, made_in, maker_script};
ghost use Rattle.check_runs.specs.Maker.{stepped};

use module_api::call::Call;
use module_api::catalogue::Catalogue;
use module_api::reply::{Action, Reply};
use module_parts::cues::Cue;
use module_parts::looks::Looks;
use module_parts::player::Scripted;
use module_parts::replies::{create, delete, nothing, plan_of};
use module_stock::spawner::set_soon;
use sim_values::NoMemory;
use sim_values::text::Text;
use sqlite_items::Items;
use std::alloc::Global;

/// A Maker creates modules, as its parameter `task` says, and may delete them.
#[derive(Drop)]
pub struct Maker {
    /// How many steps it has done.
    pub step: u8,
}

/// The deepest module of a network in which modules stand in one another.
pub const DEEPEST: &str = "N.a.a.a.a.a.a.a.a.a.a.a.a.a.a.a.a.a.a.a.a.a.a.a.a.a.a.a.a.a.a.a";

/// Creates a module of that name and type, in the module of that path.
fn make(
    actions: &mut Items<Action>,
    alloc: Global,
    around: &'static str,
    name: &'static str,
    type_name: &'static str,
) -> Result<(), NoMemory>
    ensures { OnOk result
        (actions.new ≡ actions.old ++ made_in around.now name.now type_name.now ∷ []) }
{
    let plan = plan_of(alloc, type_name)?;
    create(actions, alloc, around.as_bytes(), name, None, plan)
}

/// What a task does at the start.
fn begun(alloc: Global, task: u64) -> Result<Items<Action>, NoMemory>
    ensures { IfOk result (λ actions. actions ≡ begun task) }
{
    let mut actions = Items::new(alloc);
    if task == 0 {
        make(&mut actions, alloc, "N", "w.x", "Sink")?;
    } else {
        set_soon(&mut actions)?;
    }
    Ok(actions)
}

/// Creates one, and deletes it at once.
fn undone(actions: &mut Items<Action>, alloc: Global) -> Result<(), NoMemory>
    ensures { OnOk result (actions.new ≡ actions.old
        ++ made_in (codes "N") (codes "w") (codes "Sink") ∷ Delete (codes "N.w") true ∷ []) }
{
    make(actions, alloc, "N", "w", "Sink")?;
    delete(actions, alloc, "N.w".as_bytes(), true)
}

/// Creates one in `N.h`, and waits for the last step.
fn housed(actions: &mut Items<Action>, alloc: Global) -> Result<(), NoMemory>
    ensures { OnOk result (actions.new ≡ actions.old
        ++ made_in (codes "N.h") (codes "w") (codes "Sink") ∷ soon ∷ []) }
{
    make(actions, alloc, "N.h", "w", "Sink")?;
    set_soon(actions)
}

/// What a task does a second later.
fn first(alloc: Global, task: u64) -> Result<Items<Action>, NoMemory>
    ensures { IfOk result (λ actions. actions ≡ first task) }
{
    let mut actions = Items::new(alloc);
    if task == 1 {
        make(&mut actions, alloc, "N", "m", "Sink")?;
    } else if task == 2 {
        make(&mut actions, alloc, "N", "w", "Zed")?;
    } else if task == 3 {
        make(&mut actions, alloc, DEEPEST, "w", "Sink")?;
    } else if task == 4 {
        undone(&mut actions, alloc)?;
    } else {
        housed(&mut actions, alloc)?;
    }
    Ok(actions)
}

impl Maker {
    /// A Maker that has not done anything yet.
    pub fn new() -> Maker
        ensures { result ≡ record { step = 0 } }
    {
        Maker { step: 0 }
    }

    /// Begins its task.
    fn begin(&self, alloc: Global, call: &Call) -> Result<Reply, NoMemory>
        ensures { IfOk result (λ reply. told (by_task begun self.now self.now) call.now
            ≡ record { reply = reply; state = self.now }) }
    {
        let mut looks = Looks::new(alloc);
        let task = looks.bits(alloc, call, "task")?;
        looks.reply(alloc, begun(alloc, task)?)
    }

    /// Does its next step.
    fn step_on(&mut self, alloc: Global, call: &Call) -> Result<Reply, NoMemory>
        ensures { IfOk result (λ reply. told (stepped self.old.step self.old) call.now
            ≡ record { reply = reply; state = self.new }) }
    {
        match self.step {
            0 => self.step_first(alloc, call),
            _ => self.step_last(alloc, call),
        }
    }

    /// Does its first step.
    fn step_first(&mut self, alloc: Global, call: &Call) -> Result<Reply, NoMemory>
        ensures { IfOk result
            (λ reply. told (by_task first self.old (record { step = 1 })) call.now
            ≡ record { reply = reply; state = self.new }) }
    {
        let mut looks = Looks::new(alloc);
        let task = looks.bits(alloc, call, "task")?;
        self.step = looks.left(self.step, 1);
        looks.reply(alloc, first(alloc, task)?)
    }

    /// Does its last step.
    fn step_last(&mut self, alloc: Global, call: &Call) -> Result<Reply, NoMemory>
        ensures { IfOk result
            (λ reply. told (by_task (λ task. last) self.old (record { step = 2 })) call.now
            ≡ record { reply = reply; state = self.new }) }
    {
        let mut looks = Looks::new(alloc);
        let _task = looks.bits(alloc, call, "task")?;
        let mut actions = Items::new(alloc);
        delete(&mut actions, alloc, "N.h".as_bytes(), true)?;
        self.step = looks.left(self.step, 2);
        looks.reply(alloc, actions)
    }
}

impl Scripted for Maker {
    ghost kind = { codes "Maker" };

    ghost script = { maker_script };

    fn name(&self) -> &str {
        "Maker"
    }

    #[tactic(auto, unfolding(crate::specs::Maker::maker_script))]
    fn answer(&mut self, alloc: Global, call: &Call) -> Result<Reply, NoMemory> {
        match Cue::of(call) {
            Cue::Start => self.begin(alloc, call),
            Cue::Timer => self.step_on(alloc, call),
            Cue::Other => Ok(nothing(alloc)),
        }
    }

    #[tactic(auto, unfolding(crate::specs::Maker::maker_script))]
    fn reads_back(&self) {}

    #[tactic(auto, unfolding(crate::specs::Maker::maker_script))]
    fn save(&self, alloc: Global) -> Result<Text, NoMemory> {
        Ok(Text::from_bytes(alloc, &[self.step])?)
    }

    #[tactic(auto, unfolding(crate::specs::Maker::maker_script))]
    fn load(&mut self, _alloc: Global, state: &[u8]) -> Result<(), NoMemory> {
        if let [step] = state {
            self.step = *step;
        }
        Ok(())
    }
}

/// The catalogue that knows it, and the stock modules Sink and Spawner.
pub struct Making;

impl Catalogue for Making {
    ghost use Rattle.check_runs.specs.Maker.{made, made_lawful};

    ghost behaviour = { made };

    ghost lawful = { made_lawful };
}
