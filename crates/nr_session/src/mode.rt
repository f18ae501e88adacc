// The mode of a connection: its open transaction and what it is subscribed to decide what each request asks for (Redis, transactions
// and pub/sub).
ghost use Rattle.std.specs.Prelude.{◌≡◌, None, Some, IfOk, OnOk, drop, if◌then◌else◌};
ghost use Rattle.nr_model.specs.Names.{after_subscribe, after_unsubscribe};
ghost use Rattle.nr_model.specs.Items.{Say, Act, Run, Abort, End};
ghost use Rattle.nr_model.specs.Modes as modes;
ghost use Rattle.nr_model.specs.Modes.{asks};
ghost use Rattle.nr_model.specs.Commands.{served, row_of};
ghost use Rattle.nr_model.specs.Commands.Texts.{ok};
ghost use Rattle.nr_model.specs.declared.command.Command.TheVariants as commands;
ghost use Rattle.nr_model.specs.declared.command.Session.TheVariants as sessions;
ghost use Rattle.nr_resp.specs.Check.{call, call_of};
ghost use Rattle.nr_entry.specs.Kinds.{deed_of, queued_command, session_command};
ghost use Rattle.nr_resp.specs.Seen.{reply_of};

use crate::texts::{
    not_in_transaction, not_while_subscribed, subscribed_ping, unknown, wrong_count,
};
use nr_blob::{Blob, Memory};
use nr_entry::{JobKind, Queueable, Queued, Read, SessionUpdate, Transaction, Update};
use nr_model::command::{Command, Kind, Look, Operation, ServerLook, Session};
use nr_pubsub::Holding;
use nr_resp::{Cmd, CmdError, Frame, Reply, arguments, check};
use std::alloc::Global;
use std::marker::Model;

/// A transaction that MULTI began: the commands queued since, and whether a request since was refused.
#[derive(Drop)]
struct OpenTransaction {
    queued: Vec<Queued>,
    spoiled: bool,
}

impl Model for OpenTransaction {
    ghost use Rattle.std.specs.Prelude.{map};
    ghost use Rattle.nr_model.specs.Modes as modes;
    ghost use Rattle.nr_entry.specs.Kinds.{queued_call};
    ghost use Rattle.nr_session.specs.Coded.{coded_transaction};

    ghost Value = { modes.Transaction };

    ghost coded = { coded_transaction };

    ghost view = { λ t. record { queued = map queued_call t.queued.items; spoiled = t.spoiled } };
}

/// The mode of a connection.
#[derive(Drop)]
pub(crate) struct Mode {
    alloc: Global,
    transaction: Option<OpenTransaction>,
    held: Holding,
}

impl Model for Mode {
    ghost use Rattle.nr_model.specs.Modes as modes;
    ghost use Rattle.nr_session.specs.Coded.{coded_mode};

    ghost Value = { modes.Mode };

    ghost coded = { coded_mode };

    ghost view = { λ m. record { transaction = m.transaction; held = m.held } };
}

fn said(reply: Reply) -> JobKind
    ensures { deed_of result ≡ Say (reply_of reply) }
{
    JobKind::Read(Read::Local(reply))
}

fn quits() -> JobKind
    ensures { deed_of result ≡ End (Some ok) }
{
    JobKind::Update(Update::Close(Some(Reply::Simple("OK"))))
}

// Each name behind the command's is held from now on.
fn subscribe(held: &mut Holding, kind: Kind, names: &[Blob]) -> Result<(), Memory>
    ensures { OnOk result (held.new ≡ after_subscribe kind held.old names.now) }
{
    for name in names {
        held.subscribe(kind, name.copy()?)?;
    }
    Ok(())
}

// Each name behind the command's is held no more, or none of the kind where there are no names.
fn unsubscribe(held: &mut Holding, kind: Kind, names: &[Blob])
    ensures { held.new ≡ after_unsubscribe kind held.old names.now }
{
    if names.is_empty() {
        held.clear(kind);
        return;
    }
    for name in names {
        held.unsubscribe(kind, name);
    }
}

impl Mode {
    /// The mode of a connection that has sent nothing.
    pub(crate) fn new(alloc: Global) -> Mode
        ensures { result ≡ modes.plain }
    {
        Mode {
            alloc,
            transaction: None,
            held: Holding::new(alloc),
        }
    }

    /// What a request asks for. The mode is then that behind it; where memory runs out it is open.
    pub(crate) fn answer(&mut self, frame: Frame) -> Result<JobKind, Memory>
        ensures { IfOk result (λ kind. modes.answer served self.old frame.words.items ≡ asks (deed_of kind) self.new) }
    {
        match check(frame) {
            Ok(cmd) => self.known(cmd),
            Err(CmdError::Unknown(frame)) => {
                self.spoil();
                Ok(said(unknown(self.alloc, &frame)?))
            }
            Err(CmdError::Arity(command, _)) => {
                self.spoil();
                Ok(said(wrong_count(self.alloc, command)?))
            }
        }
    }

    /// Whether there are subscriptions. Constant.
    pub(crate) fn is_subscribed(&self) -> bool
        ensures { result ≡ modes.is_subscribed self.now }
    {
        self.held.count() > 0
    }

    // A faulty request spoils an open transaction.
    fn spoil(&mut self)
        ensures { self.new ≡ modes.spoiled self.old }
    {
        if let Some(transaction) = &mut self.transaction {
            transaction.spoiled = true;
        }
    }

    fn known(&mut self, cmd: Cmd) -> Result<JobKind, Memory>
        ensures { IfOk result (λ kind. modes.known_answer (call_of cmd) self.old ≡ asks (deed_of kind) self.new) }
    {
        if self.is_subscribed() {
            return self.when_subscribed(cmd);
        }
        match self.transaction.take() {
            Some(transaction) => self.in_transaction(transaction, cmd),
            None => self.by_itself(cmd),
        }
    }

    // A connection with subscriptions: the four subscribing commands, PING and QUIT alone.
    fn when_subscribed(&mut self, cmd: Cmd) -> Result<JobKind, Memory>
        ensures { IfOk result (λ kind. modes.when_subscribed cmd.command (call_of cmd) self.old ≡ asks (deed_of kind) self.new) }
    {
        match cmd.command {
            Command::Perform(Operation::Look(Look::Server(ServerLook::Ping))) => {
                Ok(said(subscribed_ping(self.alloc, arguments(&cmd.words))?))
            }
            Command::Session(Session::Quit) => Ok(quits()),
            Command::Session(Session::Subscribe(kind)) => self.subscribe(kind, cmd.words),
            Command::Session(Session::Unsubscribe(kind)) => Ok(self.unsubscribe(kind, cmd.words)),
            command => Ok(said(not_while_subscribed(self.alloc, command)?)),
        }
    }

    // A connection in a transaction, which was taken out: what isn't refused or ends it is queued.
    fn in_transaction(&mut self, transaction: OpenTransaction, cmd: Cmd) -> Result<JobKind, Memory>
        requires taken_out { self.old.transaction ≡ None }
        ensures { IfOk result (λ kind. modes.in_transaction cmd.command (call_of cmd) transaction (record self.old { transaction = Some transaction })
            ≡ asks (deed_of kind) self.new) }
    {
        let words = cmd.words;
        match cmd.command {
            Command::Perform(operation) => self.queue(
                transaction,
                Queueable::Perform(operation),
                words,
            ),
            Command::Session(Session::Unwatch) => self.queue(
                transaction,
                Queueable::Unwatch,
                words,
            ),
            Command::Session(Session::Publish) => self.queue(
                transaction,
                Queueable::Publish,
                words,
            ),
            Command::Session(Session::Pubsub) => self.queue(transaction, Queueable::Pubsub, words),
            Command::Session(Session::Exec) => Ok(executes(transaction)),
            Command::Session(Session::Discard) => Ok(session(SessionUpdate::Discard, words)),
            Command::Session(Session::Multi) => {
                self.transaction = Some(transaction);
                Ok(said(Reply::FixedError("ERR MULTI calls can not be nested")))
            }
            Command::Session(Session::Watch) => {
                self.transaction = Some(transaction);
                Ok(said(Reply::FixedError("ERR WATCH inside MULTI is not allowed")))
            }
            Command::Session(Session::Quit) => {
                self.transaction = Some(transaction);
                Ok(quits())
            }
            Command::Session(Session::Subscribe(_) | Session::Unsubscribe(_)) => {
                self.refuse(transaction, cmd.command)
            }
        }
    }

    // Adds a command to the transaction, whose words are moved.
    fn queue(
        &mut self,
        mut transaction: OpenTransaction,
        command: Queueable,
        words: Vec<Blob>,
    ) -> Result<JobKind, Memory>
        ensures { IfOk result (λ kind. modes.says modes.queued_reply (modes.with_queued self.old transaction (call (queued_command command) words.items)) ≡ asks (deed_of kind) self.new) }
    {
        transaction.queued.push(Queued { command, words })?;
        self.transaction = Some(transaction);
        Ok(said(Reply::Simple("QUEUED")))
    }

    // A command that a transaction may not hold spoils it.
    fn refuse(
        &mut self,
        mut transaction: OpenTransaction,
        command: Command,
    ) -> Result<JobKind, Memory>
        ensures { IfOk result (λ kind. modes.denies (modes.not_in_transaction (row_of command).name) (modes.spoiled (record self.old { transaction = Some transaction }))
            ≡ asks (deed_of kind) self.new) }
    {
        transaction.spoiled = true;
        self.transaction = Some(transaction);
        Ok(said(not_in_transaction(self.alloc, command)?))
    }

    // A connection with neither.
    fn by_itself(&mut self, cmd: Cmd) -> Result<JobKind, Memory>
        ensures { IfOk result (λ kind. modes.by_itself cmd.command (call_of cmd) self.old ≡ asks (deed_of kind) self.new) }
    {
        let words = cmd.words;
        match cmd.command {
            Command::Perform(operation) => Ok(performed(operation, words)),
            Command::Session(Session::Multi) => {
                self.transaction = Some(OpenTransaction {
                    queued: Vec::new(self.alloc),
                    spoiled: false,
                });
                Ok(said(Reply::Simple("OK")))
            }
            Command::Session(Session::Exec) => {
                Ok(said(Reply::FixedError("ERR EXEC without MULTI")))
            }
            Command::Session(Session::Discard) => {
                Ok(said(Reply::FixedError("ERR DISCARD without MULTI")))
            }
            Command::Session(Session::Quit) => Ok(quits()),
            Command::Session(Session::Subscribe(kind)) => self.subscribe(kind, words),
            Command::Session(Session::Unsubscribe(kind)) => Ok(self.unsubscribe(kind, words)),
            Command::Session(Session::Watch) => Ok(session(SessionUpdate::Watch, words)),
            Command::Session(Session::Unwatch) => Ok(session(SessionUpdate::Unwatch, words)),
            Command::Session(Session::Publish) => Ok(session(SessionUpdate::Publish, words)),
            Command::Session(Session::Pubsub) => Ok(JobKind::Read(Read::Pubsub { words })),
        }
    }

    // SUBSCRIBE and PSUBSCRIBE: each name is held from now on.
    fn subscribe(&mut self, kind: Kind, words: Vec<Blob>) -> Result<JobKind, Memory>
        ensures { IfOk result (λ job. modes.subscribes kind (call (commands.Session (sessions.Subscribe kind)) words.items) self.old ≡ asks (deed_of job) self.new) }
    {
        subscribe(&mut self.held, kind, arguments(&words))?;
        Ok(session(SessionUpdate::Subscribe(kind), words))
    }

    // UNSUBSCRIBE and PUNSUBSCRIBE: each name is held no more, or none of the kind where there are no names.
    fn unsubscribe(&mut self, kind: Kind, words: Vec<Blob>) -> JobKind
        ensures { modes.unsubscribes kind (call (commands.Session (sessions.Unsubscribe kind)) words.items) self.old ≡ asks (deed_of result) self.new }
    {
        unsubscribe(&mut self.held, kind, arguments(&words));
        session(SessionUpdate::Unsubscribe(kind), words)
    }
}

// A command by itself. Whether it looks or may change is decided here, once.
fn performed(operation: Operation, words: Vec<Blob>) -> JobKind
    ensures { deed_of result ≡ Act (call (commands.Perform operation) words.items) }
{
    match operation {
        Operation::Look(command) => JobKind::Read(Read::Look { command, words }),
        Operation::Change(command) => JobKind::Update(Update::Change { command, words }),
    }
}

fn session(command: SessionUpdate, words: Vec<Blob>) -> JobKind
    ensures { deed_of result ≡ Act (call (session_command command) words.items) }
{
    JobKind::Update(Update::Session { command, words })
}

// EXEC of a transaction.
fn executes(transaction: OpenTransaction) -> JobKind
    ensures { deed_of result ≡ (if transaction.spoiled then Abort else Run transaction.queued) }
{
    let transaction = if transaction.spoiled {
        Transaction::Spoiled
    } else {
        Transaction::Queued(transaction.queued)
    };
    JobKind::Update(Update::Exec(transaction))
}
