//! The modules of this crate as one type, so that a box of any of them is made in one place.

ghost use Rattle.std.specs.Prelude.{◌≡◌, ◌↔◌, ◌⊎◌, ℕ, List, IsTrue, IsSome, IfSome, codes};
ghost use Rattle.module_api.specs.Meaning.{IsFresh};
ghost use Rattle.module_network.specs.Network.{network};
ghost use Rattle.module_network.specs.Modules.{module_of};

use crate::dropper::Dropper;
use crate::generator::Generator;
use crate::l2_queue::L2Queue;
use crate::meter::Meter;
use crate::receiver::Receiver;
use crate::sender::Sender;
use crate::switch::Switch;
use crate::token_station::TokenStation;
use module_api::call::Call;
use module_api::reply::Reply;
use module_api::simple_module::SimpleModule;
use module_parts::player::Player;
use sim_values::NoMemory;
use sim_values::text::Text;
use std::alloc::Global;

/// A module that networks are built of.
#[derive(Drop)]
pub enum NetworkModule {
    Generator(Player<Generator>),
    Meter(Player<Meter>),
    L2Queue(Player<L2Queue>),
    Switch(Player<Switch>),
    Dropper(Player<Dropper>),
    TokenStation(Player<TokenStation>),
    Sender(Player<Sender>),
    Receiver(Player<Receiver>),
}

impl NetworkModule {
    /// A fresh module of that kind, or none where this catalogue does not know it. The allocator is
    /// for what holds a collection.
    #[tactic(auto, unfolding(crate::specs::Network::network))]
    pub fn of_kind(alloc: Global, kind: &[u8]) -> Option<NetworkModule>
        ensures known { IsSome result ↔ IsTrue (network.known kind.now) }
        ensures fresh { IfSome result (λ m. IsFresh network kind.now (module_of m)) }
    {
        if kind == "Generator".as_bytes() {
            Some(NetworkModule::Generator(Player(Generator::new())))
        } else if kind == "Meter".as_bytes() {
            Some(NetworkModule::Meter(Player(Meter::new())))
        } else if kind == "L2Queue".as_bytes() {
            Some(NetworkModule::L2Queue(Player(L2Queue::new(alloc))))
        } else if kind == "Switch".as_bytes() {
            Some(NetworkModule::Switch(Player(Switch {})))
        } else if kind == "Dropper".as_bytes() {
            Some(NetworkModule::Dropper(Player(Dropper::new())))
        } else if kind == "TokenStation".as_bytes() {
            Some(NetworkModule::TokenStation(Player(TokenStation::new(alloc))))
        } else if kind == "Sender".as_bytes() {
            Some(NetworkModule::Sender(Player(Sender::new())))
        } else if kind == "Receiver".as_bytes() {
            Some(NetworkModule::Receiver(Player(Receiver::new())))
        } else {
            None
        }
    }
}

impl SimpleModule for NetworkModule {
    ghost meaning = { module_of };

    fn kind(&self) -> &str {
        match self {
            NetworkModule::Generator(m) => m.kind(),
            NetworkModule::Meter(m) => m.kind(),
            NetworkModule::L2Queue(m) => m.kind(),
            NetworkModule::Switch(m) => m.kind(),
            NetworkModule::Dropper(m) => m.kind(),
            NetworkModule::TokenStation(m) => m.kind(),
            NetworkModule::Sender(m) => m.kind(),
            NetworkModule::Receiver(m) => m.kind(),
        }
    }

    fn stages(&self) -> u8 {
        match self {
            NetworkModule::Generator(m) => m.stages(),
            NetworkModule::Meter(m) => m.stages(),
            NetworkModule::L2Queue(m) => m.stages(),
            NetworkModule::Switch(m) => m.stages(),
            NetworkModule::Dropper(m) => m.stages(),
            NetworkModule::TokenStation(m) => m.stages(),
            NetworkModule::Sender(m) => m.stages(),
            NetworkModule::Receiver(m) => m.stages(),
        }
    }

    fn initialize(&mut self, alloc: Global, call: &Call) -> Result<Reply, NoMemory> {
        match self {
            NetworkModule::Generator(m) => m.initialize(alloc, call),
            NetworkModule::Meter(m) => m.initialize(alloc, call),
            NetworkModule::L2Queue(m) => m.initialize(alloc, call),
            NetworkModule::Switch(m) => m.initialize(alloc, call),
            NetworkModule::Dropper(m) => m.initialize(alloc, call),
            NetworkModule::TokenStation(m) => m.initialize(alloc, call),
            NetworkModule::Sender(m) => m.initialize(alloc, call),
            NetworkModule::Receiver(m) => m.initialize(alloc, call),
        }
    }

    fn handle_message(&mut self, alloc: Global, call: &Call) -> Result<Reply, NoMemory> {
        match self {
            NetworkModule::Generator(m) => m.handle_message(alloc, call),
            NetworkModule::Meter(m) => m.handle_message(alloc, call),
            NetworkModule::L2Queue(m) => m.handle_message(alloc, call),
            NetworkModule::Switch(m) => m.handle_message(alloc, call),
            NetworkModule::Dropper(m) => m.handle_message(alloc, call),
            NetworkModule::TokenStation(m) => m.handle_message(alloc, call),
            NetworkModule::Sender(m) => m.handle_message(alloc, call),
            NetworkModule::Receiver(m) => m.handle_message(alloc, call),
        }
    }

    fn finish(&mut self, alloc: Global, call: &Call) -> Result<Reply, NoMemory> {
        match self {
            NetworkModule::Generator(m) => m.finish(alloc, call),
            NetworkModule::Meter(m) => m.finish(alloc, call),
            NetworkModule::L2Queue(m) => m.finish(alloc, call),
            NetworkModule::Switch(m) => m.finish(alloc, call),
            NetworkModule::Dropper(m) => m.finish(alloc, call),
            NetworkModule::TokenStation(m) => m.finish(alloc, call),
            NetworkModule::Sender(m) => m.finish(alloc, call),
            NetworkModule::Receiver(m) => m.finish(alloc, call),
        }
    }

    fn save(&self, alloc: Global) -> Result<Text, NoMemory> {
        match self {
            NetworkModule::Generator(m) => m.save(alloc),
            NetworkModule::Meter(m) => m.save(alloc),
            NetworkModule::L2Queue(m) => m.save(alloc),
            NetworkModule::Switch(m) => m.save(alloc),
            NetworkModule::Dropper(m) => m.save(alloc),
            NetworkModule::TokenStation(m) => m.save(alloc),
            NetworkModule::Sender(m) => m.save(alloc),
            NetworkModule::Receiver(m) => m.save(alloc),
        }
    }

    fn load(&mut self, alloc: Global, state: &[u8]) -> Result<(), NoMemory> {
        match self {
            NetworkModule::Generator(m) => m.load(alloc, state),
            NetworkModule::Meter(m) => m.load(alloc, state),
            NetworkModule::L2Queue(m) => m.load(alloc, state),
            NetworkModule::Switch(m) => m.load(alloc, state),
            NetworkModule::Dropper(m) => m.load(alloc, state),
            NetworkModule::TokenStation(m) => m.load(alloc, state),
            NetworkModule::Sender(m) => m.load(alloc, state),
            NetworkModule::Receiver(m) => m.load(alloc, state),
        }
    }
}

/// Exactly these eight kinds are known. It does nothing: its contract is the law.
pub fn network_kinds_are_known()
    ensures { (kind : List ℕ)
        → IsTrue (network.known kind) ↔ ((kind ≡ codes "Generator") ⊎ ((kind ≡ codes "Meter")
        ⊎ ((kind ≡ codes "L2Queue") ⊎ ((kind ≡ codes "Switch") ⊎ ((kind ≡ codes "Dropper")
        ⊎ ((kind ≡ codes "TokenStation") ⊎ ((kind ≡ codes "Sender")
        ⊎ (kind ≡ codes "Receiver")))))))) }
{}
