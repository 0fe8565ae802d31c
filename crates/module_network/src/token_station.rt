//! A station of a token ring.

ghost use Rattle.std.specs.Prelude.{◌≡◌, ◌<◌, [], ◌∷◌, ◌++◌, length, drop, codes, IfOk, OnOk};
ghost use Rattle.module_parts.specs.Asking.{told};
ghost use Rattle.module_parts.specs.Cues.{is_from};
ghost use Rattle.module_parts.specs.Looking.{allowed, left};
ghost use Rattle.module_stock.specs.Held.{Fits, kept, can_be_held};
ghost use Rattle.module_network.specs.TokenStation.{token, token_sent, first_token, begun};
ghost use Rattle.module_network.specs.TokenStation.{length_emitted, joined, joined_if, front_sent};
ghost use Rattle.module_network.specs.TokenStation.{token_taken, delivered, passed_on, heard};
ghost use Rattle.module_network.specs.TokenStation.{token_station_script};

use crate::frame::Frame;
use crate::waiting::Waiting;
use module_api::call::{Call, CallReason};
use module_api::message::{Message, Outgoing};
use module_api::reply::{Action, Reply};
use module_parts::cues::is_from;
use module_parts::looks::Looks;
use module_parts::player::Scripted;
use module_parts::replies::{emit, nothing, send};
use module_stock::held::{can_be_held, kept};
use sim_values::NoMemory;
use sim_values::text::Text;
use sqlite_items::Items;
use std::alloc::Global;

/// A module that holds the frames of its gate `in` until the token comes through its gate `ringIn`,
/// then sends one of them and the token on, and takes off the ring what is for its address.
#[derive(Drop)]
pub struct TokenStation {
    /// The frames that wait for the token.
    pub held: Waiting,
}

impl Scripted for TokenStation {
    ghost kind = { codes "TokenStation" };

    ghost script = { token_station_script };

    fn name(&self) -> &str {
        "TokenStation"
    }

    #[tactic(auto, unfolding(crate::specs::TokenStation::token_station_script))]
    fn answer(&mut self, alloc: Global, call: &Call) -> Result<Reply, NoMemory> {
        match &call.prompt {
            CallReason::Initialize(_) => self.begin(alloc, call),
            CallReason::Message(message) => self.hear(alloc, call, message),
            CallReason::Finish => Ok(nothing(alloc)),
        }
    }

    #[tactic(auto, unfolding(crate::specs::TokenStation::token_station_script), using(module_stock::specs::HeldLaws::held_reads_back))]
    fn reads_back(&self) {
        let _held = self.held.count();
    }

    #[tactic(auto, unfolding(crate::specs::TokenStation::token_station_script))]
    fn save(&self, alloc: Global) -> Result<Text, NoMemory> {
        self.held.bytes(alloc)
    }

    #[tactic(auto, unfolding(crate::specs::TokenStation::token_station_script))]
    fn load(&mut self, alloc: Global, state: &[u8]) -> Result<(), NoMemory> {
        self.held = Waiting::of_bytes(alloc, state)?;
        Ok(())
    }
}

impl TokenStation {
    /// A TokenStation that holds no frame.
    pub fn new(alloc: Global) -> TokenStation
        ensures { result ≡ record { held = [] } }
    {
        TokenStation {
            held: Waiting::new(alloc),
        }
    }

    /// The first token, where it is this station's.
    fn begin(&self, alloc: Global, call: &Call) -> Result<Reply, NoMemory>
        ensures { IfOk result
            (λ reply. told (begun self.now) call.now ≡ record { reply = reply; state = self.now }) }
    {
        let mut looks = Looks::new(alloc);
        let first = looks.truth(alloc, call, "first")?;
        let bits = looks.bits(alloc, call, "tokenBits")?;
        let actions = first_token(alloc, first, bits)?;
        looks.reply(alloc, actions)
    }

    /// Answers a message.
    fn hear(&mut self, alloc: Global, call: &Call, message: &Message) -> Result<Reply, NoMemory>
        ensures { IfOk result
            (λ reply. told (heard (is_from (codes "in") message.now.origin) self.old message.now)
            call.now ≡ record { reply = reply; state = self.new }) }
    {
        if is_from("in", &message.origin) {
            return self.join(alloc, call, message);
        }
        if !is_from("ringIn", &message.origin) {
            return Ok(nothing(alloc));
        }
        if message.kind == 2 {
            self.take_token(alloc, call)
        } else {
            self.take_frame(alloc, call, message)
        }
    }

    /// Holds one more frame, or drops it.
    fn join(&mut self, alloc: Global, call: &Call, message: &Message) -> Result<Reply, NoMemory>
        ensures { IfOk result (λ reply. told (joined_if (can_be_held message.now) self.old.held
            (kept message.now)) call.now ≡ record { reply = reply; state = self.new }) }
    {
        if !can_be_held(message) {
            return Ok(nothing(alloc));
        }
        self.line_up(alloc, call, kept(alloc, message)?)
    }

    /// Holds one more frame, or drops it.
    fn line_up(&mut self, alloc: Global, call: &Call, message: Outgoing) -> Result<Reply, NoMemory>
        requires { Fits message }
        ensures { IfOk result (λ reply. told (joined self.old.held message) call.now
            ≡ record { reply = reply; state = self.new }) }
    {
        let mut looks = Looks::new(alloc);
        let capacity = looks.whole(alloc, call, "capacity")?;
        if self.held.signed_count() < capacity {
            self.admit(alloc, looks, message)
        } else {
            let mut actions = Items::new(alloc);
            emit(&mut actions, "dropped", 1)?;
            looks.reply(alloc, actions)
        }
    }

    /// Holds one more frame.
    fn admit(&mut self, alloc: Global, looks: Looks, message: Outgoing) -> Result<Reply, NoMemory>
        requires { Fits message }
        ensures reply { IfOk result (λ reply. reply ≡ record {
          reads = looks.reads;
          actions = allowed looks.verdict (length_emitted (self.old.held ++ message ∷ []) ∷ []);
        }) }
        ensures state { OnOk result (self.new
            ≡ left looks.verdict self.old (record { held = self.old.held ++ message ∷ [] })) }
    {
        let mut actions = Items::new(alloc);
        emit(&mut actions, "length", self.held.next_count())?;
        if looks.is_good() {
            self.held.push(message)?;
        }
        looks.reply(alloc, actions)
    }

    /// The token comes: one frame goes before it.
    fn take_token(&mut self, alloc: Global, call: &Call) -> Result<Reply, NoMemory>
        ensures { IfOk result (λ reply. told (token_taken self.old.held) call.now
            ≡ record { reply = reply; state = self.new }) }
    {
        if self.held.count() > 0 {
            self.use_token(alloc, call)
        } else {
            self.pass_token(alloc, call)
        }
    }

    /// No frame waits for the token.
    fn pass_token(&self, alloc: Global, call: &Call) -> Result<Reply, NoMemory>
        requires { length self.now.held < 1 }
        ensures { IfOk result (λ reply. told (token_taken self.now.held) call.now
            ≡ record { reply = reply; state = self.now }) }
    {
        let mut looks = Looks::new(alloc);
        let bits = looks.bits(alloc, call, "tokenBits")?;
        let mut actions = Items::new(alloc);
        send(&mut actions, "ringOut", 0, token(alloc, bits))?;
        looks.reply(alloc, actions)
    }

    /// One frame goes before the token.
    #[tactic(auto, using(crate::specs::TokenStationLaws::taken_some))]
    fn use_token(&mut self, alloc: Global, call: &Call) -> Result<Reply, NoMemory>
        requires { 0 < length self.old.held }
        ensures { IfOk result (λ reply. told (token_taken self.old.held) call.now
            ≡ record { reply = reply; state = self.new }) }
    {
        let mut looks = Looks::new(alloc);
        let bits = looks.bits(alloc, call, "tokenBits")?;
        if looks.is_good() {
            self.send_front(alloc, looks, bits)
        } else {
            looks.reply(alloc, Items::new(alloc))
        }
    }

    /// One frame goes before the token.
    fn send_front(&mut self, alloc: Global, looks: Looks, bits: u64) -> Result<Reply, NoMemory>
        requires { 0 < length self.old.held }
        ensures reply { IfOk result (λ reply. reply ≡ record {
          reads = looks.reads;
          actions = allowed looks.verdict (front_sent self.old.held ++ token_sent bits ∷ []);
        }) }
        ensures state { OnOk result (self.new ≡ record { held = drop 1 self.old.held }) }
    {
        let front = self.held.take_front();
        let mut actions = Items::new(alloc);
        send(&mut actions, "ringOut", 0, front)?;
        emit(&mut actions, "length", self.held.signed_count())?;
        send(&mut actions, "ringOut", 0, token(alloc, bits))?;
        looks.reply(alloc, actions)
    }

    /// A frame comes along the ring.
    fn take_frame(&self, alloc: Global, call: &Call, message: &Message) -> Result<Reply, NoMemory>
        ensures { IfOk result (λ reply. told (passed_on self.now message.now) call.now
            ≡ record { reply = reply; state = self.now }) }
    {
        let mut looks = Looks::new(alloc);
        let address = looks.short(alloc, call, "address")?;
        let actions = deliver(alloc, address, message)?;
        looks.reply(alloc, actions)
    }
}

/// The token, where it is the first one.
fn first_token(alloc: Global, first: bool, bits: u64) -> Result<Items<Action>, NoMemory>
    ensures { IfOk result (λ actions. actions ≡ first_token first bits) }
{
    let mut actions = Items::new(alloc);
    if first {
        send(&mut actions, "ringOut", 0, token(alloc, bits))?;
    }
    Ok(actions)
}

/// The token.
fn token(alloc: Global, bits: u64) -> Outgoing
    ensures { result ≡ token bits }
{
    Outgoing {
        kind: 2,
        priority: 0,
        bits,
        payload: Text::empty(alloc),
    }
}

/// What becomes of a message of the ring at the station of that address.
fn deliver(alloc: Global, address: u16, message: &Message) -> Result<Items<Action>, NoMemory>
    ensures { IfOk result (λ actions. actions ≡ delivered address message.now) }
{
    let mut actions = Items::new(alloc);
    match Frame::read(message.payload.as_bytes()) {
        Some(frame) => {
            if frame.destination == address {
                send(&mut actions, "out", 0, kept(alloc, message)?)?;
            } else if frame.source == address {
                emit(&mut actions, "returned", 1)?;
            } else {
                send(&mut actions, "ringOut", 0, kept(alloc, message)?)?;
            }
        }
        None => emit(&mut actions, "dropped", 1)?,
    }
    Ok(actions)
}
