//! A client at a desk with boxes of the modules that come with the program: it asks one thing after
//! the other, and hears what comes of it.

ghost use Rattle.std.specs.Prelude.{◌≡◌, ◌<◌, ◌≤◌, ℕ, [], ◌∷◌, ◌++◌, Some, None, IsSome, OnOk};
ghost use Rattle.std.specs.Prelude.{IfOk, IfErr};
ghost use Rattle.model_data.specs.declared.model.Model.{Model};
ghost use Rattle.model_reading.specs.Models.{IsModelOf, IsRuledOut, Refuses};
ghost use Rattle.module_network.specs.Library.{library};
ghost use Rattle.edit_session.specs.Editing.{wanted_of, IsFor};
ghost use Rattle.edit_session.specs.Files.{AreFilesOf};
ghost use Rattle.desk_answers.specs.Turns.{editing_at, IsOfDesk};
ghost use Rattle.desk_server.specs.Served.{fresh_machine};
ghost use Rattle.desk_commands.specs.declared.commands.Command.TheVariants as commands;
ghost use Rattle.desk_server.specs.Served.{command_asked};
ghost use Rattle.desk_server.specs.Serving.{AreFilled, ComesTo, Ends, HearsNext, IsMetIn};
ghost use Rattle.desk_server.specs.Serving.{IsHeldAt, IsNextServing, IsReady, IsRunIn, IsServer};
ghost use Rattle.desk_server.specs.Serving.{IsServingTurn, MayStopAt, MayStopIn, Serves, Tells};
ghost use Rattle.result_lines.specs.Taken.{untouched};
ghost use Rattle.transcripts.specs.Heard.{Answer, OutOfMemory};
ghost use Rattle.desk_client.specs.Answers.{IsTold};
ghost use Rattle.desk_client.specs.Devices.{HasFailed};
ghost use Rattle.desk_client.specs.declared.clients.ServeEnd.TheVariants as why;

use checkpoint_runs::observer::Observer;
use desk_answers::desk::{Desk, DeskTurn};
use desk_client::clients::{Client, Gone, Page, Pages, ServeEnd};
use desk_client::told::AnswerContent;
use desk_commands::commands::{Command, command_of};
use edit_session::session::{Session, SupplyReason};
use kernel::request::Request;
use model_edits::edit::Edit;
use model_reading::begin::BeginFault;
use module_api::simple_module::SimpleModule;
use module_network::library::{Library, LibraryModule};
use ned_trees::texts::NedTexts;
use result_files::files::ResultFiles;
use result_lines::writer::Out;
use sim_values::NoMemory;
use sim_values::text::Text;
use std::alloc::Global;
use std::marker::PhantomData;
use transcripts::asked::AskedLine;

/// What comes next.
#[derive(Drop)]
enum Next {
    /// The next turn.
    GoOn,
    Stop(ServeEnd),
}

/// What a turn came to.
#[derive(Drop)]
enum ServerStep {
    /// A run waits for a box, and this goes into it.
    Need(LibraryModule),
    /// The turn is over, and this comes next.
    Over(Next),
}

/// A desk with a client.
#[derive(Drop)]
struct Server<O, K> {
    desk: Desk<Library>,
    client: K,
    /// The limit of the run that is going on.
    running: Option<u64>,
    pages: PhantomData<O>,
    /// What the desk holds, so that contracts can name what boxes say of themselves.
    holds: PhantomData<Box<dyn SimpleModule>>,
}

impl<O: Out + Drop, K: Client<O> + Drop> Server<O, K> {
    /// The client hears an answer to this command, and what it tells.
    fn hear(&mut self, answer: &[u8], told: &AnswerContent) -> Next
        requires kept { K.keeps self.old.client }
        requires told { IsTold told.now answer.now }
        ensures { Tells K.asked K.heard K.left K.keeps K.label K.stops
            (Answer answer.now) self.old.running self.old self.new result }
    {
        match self.client.hear(answer, told) {
            Ok(()) => Next::GoOn,
            Err(Gone) => Next::Stop(ServeEnd::Gone),
        }
    }

    /// What a run needs that waits for a box: a module of that kind, or to hear that there is none.
    fn need_of(&mut self, alloc: Global, request: &Request) -> ServerStep
        requires waits { let editing = editing_at SimpleModule-box self.old.desk in
            wanted_of library editing ≡ Some request.now }
        requires sound { IsServer library SimpleModule-box self.old }
        ensures sound { IsServer library SimpleModule-box self.new }
        ensures client { self.new.client ≡ self.old.client }
        ensures running { self.new.running ≡ self.old.running }
        ensures met { let before = editing_at SimpleModule-box self.old.desk in
            IsMetIn library before (editing_at SimpleModule-box self.new.desk) result }
    {
        match LibraryModule::of_kind(alloc, request.kind.as_bytes()) {
            Some(made) => ServerStep::Need(made),
            None => {
                let _declined = self.desk.decline();
                ServerStep::Over(Next::GoOn)
            }
        }
    }

    /// Begins the run to that limit, or goes on with it.
    fn run<W: Observer>(&mut self, alloc: Global, limit: u64, observer: &mut W) -> ServerStep
        requires sound { IsServer library SimpleModule-box self.old }
        requires kept { K.keeps self.old.client }
        ensures { Serves library SimpleModule-box K.asked K.heard K.left K.keeps K.label K.stops
            MayStopIn (IsRunIn library limit) self.old self.new result }
    {
        match self.desk.run(limit, observer) {
            Ok(DeskTurn::Text(answer)) => {
                self.running = None;
                ServerStep::Over(self.hear(answer.text.as_bytes(), &answer.told))
            }
            Ok(DeskTurn::Want(request)) => {
                self.running = Some(limit);
                self.need_of(alloc, &request)
            }
            Err(error) => ServerStep::Over(self.out_of_memory(error)),
        }
    }

    /// The client hears that memory ran out, with that error. No run goes on.
    fn out_of_memory(&mut self, error: NoMemory) -> Next
        requires { K.keeps self.old.client }
        ensures { Tells K.asked K.heard K.left K.keeps K.label K.stops
            OutOfMemory None self.old self.new result }
    {
        self.running = None;
        match self.client.hear_no_memory(error) {
            Ok(()) => Next::GoOn,
            Err(Gone) => Next::Stop(ServeEnd::Gone),
        }
    }

    /// Tells what the desk answers to a command that needs nothing but it.
    fn tell(&mut self, command: Command) -> Next
        requires ready { IsReady library SimpleModule-box K.keeps self.old }
        requires plain { IsOfDesk command }
        ensures { Serves library SimpleModule-box K.asked K.heard K.left K.keeps K.label K.stops
            MayStopAt (HearsNext library command) self.old self.new result }
    {
        match self.desk.reply(command) {
            Ok(answer) => self.hear(answer.text.as_bytes(), &answer.told),
            Err(error) => self.out_of_memory(error),
        }
    }

    /// Changes the NED file of that number to what the file of that path holds, which the client
    /// reads; or tells why not.
    fn ned(&mut self, number: u64, path: Text) -> Next
        requires { IsReady library SimpleModule-box K.keeps self.old }
        ensures { Serves library SimpleModule-box K.asked K.heard K.left K.keeps K.label K.stops
            MayStopAt (HearsNext library (commands.Ned number path)) self.old self.new result }
    {
        match self.client.read(path.as_bytes()) {
            Ok(text) => self.tell(Command::Edit(Edit::ReplaceNed(number as usize, text))),
            Err(Gone) => Next::Stop(ServeEnd::Gone),
        }
    }

    /// Writes the files of the last run, the scalar file first.
    fn write(&mut self) -> Next
        requires { IsReady library SimpleModule-box K.keeps self.old }
        ensures { Serves library SimpleModule-box K.asked K.heard K.left K.keeps K.label K.stops
            MayStopAt (HearsNext library commands.Write) self.old self.new result }
    {
        match self.desk.files() {
            Ok(None) => self.hear(b"refused NotDone".as_slice(), &AnswerContent::NotDone),
            Ok(Some(files)) => self.write_files(&files),
            Err(error) => self.out_of_memory(error),
        }
    }

    /// Writes the files of the last run, which need this, to devices that the client opens.
    fn write_files(&mut self, files: &ResultFiles) -> Next
        requires ready { IsReady library SimpleModule-box K.keeps self.old }
        requires files { let editing = editing_at SimpleModule-box self.old.desk in
            AreFilesOf library editing.model editing.done files.now }
        ensures { Serves library SimpleModule-box K.asked K.heard K.left K.keeps K.label K.stops
            MayStopAt (HearsNext library commands.Write) self.old self.new result }
    {
        match self.client.open(self.desk.config()) {
            Ok(pages) => self.fill(files, pages),
            Err(Gone) => Next::Stop(ServeEnd::Gone),
        }
    }

    /// Writes the files of the last run, which need this, to these devices, which the client then
    /// keeps.
    fn fill(&mut self, files: &ResultFiles, pages: Pages<O>) -> Next
        requires ready { IsReady library SimpleModule-box K.keeps self.old }
        requires files { let editing = editing_at SimpleModule-box self.old.desk in
            AreFilesOf library editing.model editing.done files.now }
        requires config { pages.config.bytes
            ≡ (editing_at SimpleModule-box self.old.desk).model.config }
        requires scalars { O.taken pages.scalars ≡ untouched }
        requires vectors { O.taken pages.vectors ≡ untouched }
        ensures { Serves library SimpleModule-box K.asked K.heard K.left K.keeps K.label K.stops
            MayStopAt (HearsNext library commands.Write) self.old self.new result }
    {
        let mut pages = pages;
        match self.write_both(files, &mut pages) {
            Ok(()) => match self.client.keep(pages) {
                Ok(()) => self.hear(b"written".as_slice(), &AnswerContent::Written),
                Err(Gone) => Next::Stop(ServeEnd::Gone),
            },
            Err((page, written)) => {
                self.client.lose(pages, page, written);
                Next::Stop(ServeEnd::Device(page, written))
            }
        }
    }

    /// Writes both files of the last run, which need this. Answers which device failed, and after
    /// how many bytes.
    fn write_both(&self, files: &ResultFiles, pages: &mut Pages<O>) -> Result<(), (Page, u128)>
        requires sound { IsServer library SimpleModule-box self.now }
        requires files { let editing = editing_at SimpleModule-box self.now.desk in
            AreFilesOf library editing.model editing.done files.now }
        requires scalars { O.taken pages.old.scalars ≡ untouched }
        requires vectors { O.taken pages.old.vectors ≡ untouched }
        ensures config { pages.new.config ≡ pages.old.config }
        ensures written { let editing = editing_at SimpleModule-box self.now.desk in
            OnOk result (AreFilled library editing.model editing.done
            (O.taken pages.new.scalars).bytes (O.taken pages.new.vectors).bytes) }
        ensures failed { IfErr result (λ fault.
            HasFailed fault.0 fault.1 (O.taken pages.new.scalars) (O.taken pages.new.vectors)) }
    {
        match self.desk.put_scalars(files, &mut pages.scalars) {
            Ok(()) => match self.desk.put_vectors(files, &mut pages.vectors) {
                Ok(()) => Ok(()),
                Err(device) => Err((Page::Vectors, device.written)),
            },
            Err(device) => Err((Page::Scalars, device.written)),
        }
    }

    /// Does what a command asks for: a run needs boxes, which are made here, and files need the
    /// client; the desk answers all else.
    fn command<W: Observer>(
        &mut self,
        alloc: Global,
        command: Command,
        observer: &mut W,
    ) -> ServerStep
        requires { IsReady library SimpleModule-box K.keeps self.old }
        ensures { Serves library SimpleModule-box K.asked K.heard K.left K.keeps K.label K.stops
            MayStopIn (ComesTo library command) self.old self.new result }
    {
        match command {
            Command::Run(limit) => self.run(alloc, limit, observer),
            Command::Ned(number, path) => ServerStep::Over(self.ned(number, path)),
            Command::Write => ServerStep::Over(self.write()),
            command => ServerStep::Over(self.tell(command)),
        }
    }

    /// Does what was asked.
    fn answer<W: Observer>(
        &mut self,
        alloc: Global,
        asked: AskedLine,
        observer: &mut W,
    ) -> ServerStep
        requires { IsReady library SimpleModule-box K.keeps self.old }
        ensures { Serves library SimpleModule-box K.asked K.heard K.left K.keeps K.label K.stops
            MayStopIn (ComesTo library (command_asked asked)) self.old self.new result }
    {
        match asked {
            AskedLine::Line(text) => match command_of(alloc, text.as_bytes()) {
                Ok(command) => self.command(alloc, command, observer),
                Err(error) => ServerStep::Over(self.out_of_memory(error)),
            },
            AskedLine::TooLong => self.command(alloc, Command::TooLarge, observer),
        }
    }

    /// Goes on with the run, or does what the client asks next.
    fn turn<W: Observer>(&mut self, alloc: Global, observer: &mut W) -> ServerStep
        requires sound { IsServer library SimpleModule-box self.old }
        requires kept { K.keeps self.old.client }
        ensures { Serves library SimpleModule-box K.asked K.heard K.left K.keeps K.label K.stops
            MayStopIn (IsServingTurn library) self.old self.new result }
    {
        if let Some(limit) = self.running {
            return self.run(alloc, limit, observer);
        }
        match self.client.next() {
            Ok(Some(asked)) => self.answer(alloc, asked, observer),
            Ok(None) => ServerStep::Over(Next::Stop(ServeEnd::End)),
            Err(Gone) => ServerStep::Over(Next::Stop(ServeEnd::Gone)),
        }
    }

    /// Gives the run that waits its box.
    fn supply(&mut self, held: Box<dyn SimpleModule>) -> Next
        requires wanted { let editing = editing_at SimpleModule-box self.old.desk in
            IsFor library (wanted_of library editing) (meaning held) }
        requires waits { let editing = editing_at SimpleModule-box self.old.desk in
            IsSome (wanted_of library editing) }
        requires going { IsHeldAt self.old.running
            (editing_at SimpleModule-box self.old.desk) }
        requires sound { IsServer library SimpleModule-box self.old }
        requires kept { K.keeps self.old.client }
        ensures { Serves library SimpleModule-box K.asked K.heard K.left K.keeps K.label K.stops
            MayStopAt (IsNextServing library) self.old self.new result }
    {
        match self.desk.supply(held) {
            Ok(()) => Next::GoOn,
            Err(fault) => match fault.reason {
                SupplyReason::NoMemory(error) => self.give_up(error),
                SupplyReason::NotWanted => unreachable!(),
            },
        }
    }

    /// Gives up the run that waits, as memory ran out for its box, and the client hears that.
    fn give_up(&mut self, error: NoMemory) -> Next
        requires going { IsHeldAt self.old.running
            (editing_at SimpleModule-box self.old.desk) }
        requires sound { IsServer library SimpleModule-box self.old }
        requires kept { K.keeps self.old.client }
        ensures { Serves library SimpleModule-box K.asked K.heard K.left K.keeps K.label K.stops
            MayStopAt (IsNextServing library) self.old self.new result }
    {
        self.desk.give_up_run();
        self.out_of_memory(error)
    }

    /// The client, which is served no more.
    fn into_client(self) -> K
        ensures { result ≡ self.client }
    {
        let Server {
            desk,
            client,
            running: _,
            pages: _,
            holds: _,
        } = self;
        drop(desk);
        client
    }
}

/// Serves a client at a desk of the model that these texts make with the configuration of that
/// name, with boxes of the modules that come with the program, until it asks nothing more, can't go
/// on, or a device of a file fails. A run leaves a position after each multiple of `interval`
/// events. The observer is told of the events of each run. Answers the client, and why; or why the
/// texts make no model.
pub fn serve<O: Out + Drop, K: Client<O> + Drop, W: Observer>(
    alloc: Global,
    texts: &NedTexts,
    ini: &[u8],
    config: &[u8],
    interval: u64,
    client: K,
    observer: &mut W,
) -> Result<(K, ServeEnd), BeginFault>
    requires interval { 1 ≤ interval }
    requires unasked { K.asked client ≡ [] }
    requires unheard { K.heard client ≡ [] }
    requires kept { K.keeps client }
    // THE LAW OF A CLIENT: what it hears is what the plain machine says, whatever it asks.
    ensures served { IfOk result (λ r. (model : Model)
        × IsModelOf texts.now ini.now config.now model
        × Ends library (fresh_machine model interval) (K.asked r.0) (K.heard r.0) r.1) }
    // It is served no more only where that is true of it which it says of the reason: it has
    // nothing more to ask, can't go on, or heard that a device failed, which one, and after how
    // many bytes.
    ensures stopped { IfOk result (λ r. K.stops r.0 r.1) }
    // The client keeps true of itself what it says.
    ensures kept { IfOk result (λ r. K.keeps r.0) }
    ensures label { IfOk result (λ r. K.label r.0 ≡ K.label client) }
    ensures refused { IfErr result (λ fault. Refuses texts.now ini.now config.now fault) }
    // Where the texts make a model the client is served, unless memory runs out.
    ensures complete { IfErr result (λ fault. IsRuledOut texts.now ini.now config.now fault) }
{
    let session = Session::<Library>::begin(alloc, texts, ini, config, interval)?;
    let mut server = Server {
        desk: Desk::of_session(alloc, session),
        client,
        running: None,
        pages: PhantomData,
        holds: PhantomData,
    };
    'turns: loop {
        let next = match server.turn(alloc, observer) {
            ServerStep::Need(made) => match Box::new(alloc, made) {
                Ok(held) => {
                    let held: Box<dyn SimpleModule> = held;
                    server.supply(held)
                }
                Err(failed) => server.give_up(failed.into()),
            },
            ServerStep::Over(next) => next,
        };
        if let Next::Stop(stop) = next {
            return Ok((server.into_client(), stop));
        }
    }
}
