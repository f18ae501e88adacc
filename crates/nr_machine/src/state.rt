// What one sequential Redis remembers, and what each update does to it. It knows commands on the keyspace by `change` and `look` alone.
ghost use Rattle.std.specs.Prelude.{◌≡◌, ◌∷◌, ◌++◌, [], ℕ, take, drop, map, OnOk, OnErr, IfOk};
ghost use Rattle.nr_model.specs.Items.{Act, Run, End};
ghost use Rattle.nr_model.specs.Sequential.{for_node, start, with_replies};
ghost use Rattle.nr_model.specs.Servers.{fresh, found_in, database_in, watches_added, watch_of};
ghost use Rattle.nr_model.specs.declared.command.Command.TheVariants as commands;
ghost use Rattle.nr_model.specs.declared.command.Operation.TheVariants as operations;
ghost use Rattle.std.specs.Option.{option_map};
ghost use Rattle.nr_resp.specs.Seen.{reply_of};
ghost use Rattle.nr_resp.specs.Shown.{shown_reply};
ghost use Rattle.nr_resp.specs.Check.{call};
ghost use Rattle.nr_entry.specs.Jobs.{connection_of};
ghost use Rattle.nr_entry.specs.Kinds.{update_deed, session_command, transaction_deed, read_deed, queued_call};
ghost use Rattle.nr_emission.specs.Emitted.{all_after};
ghost use Rattle.nr_machine.specs.Steps.{after_deed, emitted_by, left_by, keys_of};

use crate::answering::{answer, answer_some};
use crate::databases::SelectedDatabases;
use crate::running::run_all;
use crate::watching::watch_all;
use nr_blob::{Blob, Memory};
use nr_emission::{Sink, publish, pubsub, subscribe, unsubscribe};
use nr_entry::{ConnId, Queued, Read, SessionUpdate, Transaction, Update};
use nr_exec::{change, look};
use nr_keyspace::{Db, Keyspace};
use nr_model::command::Change;
use nr_pubsub::Subs;
use nr_resp::{Reply, Shown, arguments};
use nr_watch::Watches;
use std::alloc::Global;
use std::hash::RandomState;
use std::marker::Model;

/// The keyspace, the greatest moment of the updates so far in milliseconds, and what is remembered of connections.
#[derive(Drop)]
pub(crate) struct State {
    alloc: Global,
    pub keyspace: Keyspace,
    pub logged: u64,
    pub databases: SelectedDatabases,
    pub subs: Subs,
    pub watches: Watches,
}

impl Model for State {
    ghost use Rattle.nr_model.specs.Servers.{Server};
    ghost use Rattle.nr_machine.specs.Codes.{coded_server};

    ghost Value = { Server };

    ghost coded = { coded_server };

    ghost view = { λ s. record { keyspace = s.keyspace; logged = s.logged; databases = s.databases; held = s.subs; watches = s.watches.watches; touched = s.watches.touched } };
}

impl State {
    pub(crate) fn new(alloc: Global, keys: RandomState) -> Result<State, Memory>
        ensures { IfOk result (λ state. state ≡ fresh) }
    {
        Ok(State {
            alloc,
            keyspace: Keyspace::new(alloc, keys)?,
            logged: 0,
            databases: SelectedDatabases::new(alloc),
            subs: Subs::new(alloc),
            watches: Watches::new(alloc),
        })
    }

    /// The same once more. Linear in all that is remembered.
    pub(crate) fn copy(&self) -> Result<State, Memory>
        ensures { IfOk result (λ state. state ≡ self.now) }
    {
        Ok(State {
            alloc: self.alloc,
            keyspace: self.keyspace.copy()?,
            logged: self.logged,
            databases: self.databases.copy(self.alloc)?,
            subs: self.subs.copy()?,
            watches: self.watches.copy()?,
        })
    }

    /// What an update of a connection does at a moment. What it emits for connections of the node goes into the sink, and nothing for
    /// others. Where memory runs out the sink has a front of that, and the state is open.
    pub(crate) fn update<S: Sink>(
        &mut self,
        now: u64,
        node: usize,
        conn: ConnId,
        update: &Update,
        out: &mut S,
    ) -> Result<(), Memory>
        ensures applied { OnOk result (self.new ≡ after_deed self.old (connection_of conn) now (update_deed update.now)) }
        ensures emitted { OnOk result (out.new
            ≡ all_after S.after out.old (for_node node (emitted_by self.old (connection_of conn) now (update_deed update.now)))) }
        ensures partly { OnErr result ((n : ℕ) × (out.new
            ≡ all_after S.after out.old (take n (for_node node (emitted_by self.old (connection_of conn) now (update_deed update.now)))))) }
    {
        match update {
            Update::Change { command, words } => {
                self.change(now, node, conn, *command, words, out)
            }
            Update::Session { command, words } => {
                self.session(now, node, conn, *command, words, out)
            }
            Update::Exec(transaction) => self.exec(now, node, conn, transaction, out),
            Update::Close(reply) => self.close(node, conn, reply, out),
        }
    }

    // A command that may change the keyspace.
    fn change<S: Sink>(
        &mut self,
        now: u64,
        node: usize,
        conn: ConnId,
        command: Change,
        words: &[Blob],
        out: &mut S,
    ) -> Result<(), Memory>
        ensures applied { OnOk result (self.new
            ≡ after_deed self.old (connection_of conn) now (Act (call (commands.Perform (operations.Change command)) words.now))) }
        ensures emitted { OnOk result (out.new
            ≡ all_after S.after out.old
            (for_node node (emitted_by self.old (connection_of conn) now (Act (call (commands.Perform (operations.Change command)) words.now))))) }
        ensures unchanged { OnErr result (out.new ≡ out.old) }
    {
        let mut database = self.databases.of(conn);
        let reply = change(
            self.alloc,
            &mut self.keyspace,
            now,
            &mut database,
            command,
            words,
            &mut self.watches,
        )?;
        self.databases.set(conn, database)?;
        answer(node, conn, Shown::Owned(reply), out)
    }

    // A command that speaks of connections.
    fn session<S: Sink>(
        &mut self,
        now: u64,
        node: usize,
        conn: ConnId,
        command: SessionUpdate,
        words: &[Blob],
        out: &mut S,
    ) -> Result<(), Memory>
        ensures applied { OnOk result (self.new ≡ after_deed self.old (connection_of conn) now (Act (call (session_command command) words.now))) }
        ensures emitted { OnOk result (out.new
            ≡ all_after S.after out.old (for_node node (emitted_by self.old (connection_of conn) now (Act (call (session_command command) words.now))))) }
        ensures partly { OnErr result ((n : ℕ) × (out.new
            ≡ all_after S.after out.old
            (take n (for_node node (emitted_by self.old (connection_of conn) now (Act (call (session_command command) words.now))))))) }
    {
        let words = arguments(words);
        match command {
            SessionUpdate::Subscribe(kind) => {
                subscribe(self.alloc, &mut self.subs, node, conn, kind, words, out)
            }
            SessionUpdate::Unsubscribe(kind) => {
                unsubscribe(self.alloc, &mut self.subs, node, conn, kind, words, out)
            }
            SessionUpdate::Publish => {
                let reply = publish(self.alloc, &self.subs, node, words, out)?;
                answer_some(node, conn, reply, out)
            }
            SessionUpdate::Watch => {
                let database = self.databases.of(conn);
                watch_all(
                    &self.keyspace,
                    &mut self.watches,
                    now,
                    conn,
                    database,
                    words,
                )?;
                answer(node, conn, Shown::Owned(Reply::Simple("OK")), out)
            }
            SessionUpdate::Unwatch | SessionUpdate::Discard => {
                self.watches.forget(conn);
                answer(node, conn, Shown::Owned(Reply::Simple("OK")), out)
            }
        }
    }

    // EXEC. Its connection's watches are forgotten, whatever comes of it.
    fn exec<S: Sink>(
        &mut self,
        now: u64,
        node: usize,
        conn: ConnId,
        transaction: &Transaction,
        out: &mut S,
    ) -> Result<(), Memory>
        ensures applied { OnOk result (self.new ≡ after_deed self.old (connection_of conn) now (transaction_deed transaction.now)) }
        ensures emitted { OnOk result (out.new
            ≡ all_after S.after out.old (for_node node (emitted_by self.old (connection_of conn) now (transaction_deed transaction.now)))) }
        ensures partly { OnErr result ((n : ℕ) × (out.new
            ≡ all_after S.after out.old (take n (for_node node (emitted_by self.old (connection_of conn) now (transaction_deed transaction.now)))))) }
    {
        match transaction {
            Transaction::Queued(commands) => self.run(now, node, conn, commands, out),
            Transaction::Spoiled => {
                self.watches.forget(conn);
                let reply = Reply::FixedError(
                    "EXECABORT Transaction discarded because of previous errors.",
                );
                answer(node, conn, Shown::Owned(reply), out)
            }
        }
    }

    // The commands of a transaction, unless a watch of its connection was broken.
    fn run<S: Sink>(
        &mut self,
        now: u64,
        node: usize,
        conn: ConnId,
        commands: &[Queued],
        out: &mut S,
    ) -> Result<(), Memory>
        ensures applied { OnOk result (self.new ≡ after_deed self.old (connection_of conn) now (Run (map queued_call commands.now))) }
        ensures emitted { OnOk result (out.new
            ≡ all_after S.after out.old (for_node node (emitted_by self.old (connection_of conn) now (Run (map queued_call commands.now))))) }
        ensures partly { OnErr result ((n : ℕ) × (out.new
            ≡ all_after S.after out.old (take n (for_node node (emitted_by self.old (connection_of conn) now (Run (map queued_call commands.now))))))) }
    {
        if self.watches.is_spoiled(conn, now) {
            self.watches.forget(conn);
            return answer(node, conn, Shown::Owned(Reply::NullArray), out);
        }
        let mut database = self.databases.of(conn);
        let replies = run_all(
            self.alloc,
            &mut self.keyspace,
            &mut self.watches,
            &self.subs,
            now,
            node,
            &mut database,
            commands,
            conn.node == node,
            out,
        )?;
        self.databases.set(conn, database)?;
        self.watches.forget(conn);
        answer(node, conn, Shown::Owned(Reply::array(replies)), out)
    }

    // The connection's end: its database, its subscriptions and its watches are forgotten.
    fn close<S: Sink>(
        &mut self,
        node: usize,
        conn: ConnId,
        reply: &Option<Reply>,
        out: &mut S,
    ) -> Result<(), Memory>
        ensures applied { (now : ℕ) → OnOk result (self.new ≡ after_deed self.old (connection_of conn) now (End (option_map reply_of reply.now))) }
        ensures emitted { (now : ℕ) → OnOk result (out.new
            ≡ all_after S.after out.old (for_node node (emitted_by self.old (connection_of conn) now (End (option_map reply_of reply.now))))) }
        ensures unchanged { OnErr result (out.new ≡ out.old) }
    {
        self.databases.set(conn, Db::FIRST)?;
        self.subs.forget(conn);
        self.watches.forget(conn);
        match reply {
            None => Ok(()),
            Some(reply) => answer(node, conn, Shown::Lent(reply), out),
        }
    }

    /// Puts the reply to a read at a moment into the sink. What it shows is lent, where it can be.
    pub(crate) fn read<'k, S: Sink>(
        &'k self,
        now: u64,
        conn: ConnId,
        read: &'k Read,
        out: &mut S,
    ) -> Result<(), Memory>
        ensures emitted { OnOk result (out.new ≡ all_after S.after out.old (emitted_by self.now (connection_of conn) now (read_deed read.now))) }
        ensures unchanged { OnErr result (out.new ≡ out.old) }
    {
        let shown = self.looked(now, conn, read)?;
        out.put(conn, shown)?;
        Ok(())
    }

    fn looked<'k>(&'k self, now: u64, conn: ConnId, read: &'k Read) -> Result<Shown<'k>, Memory>
        ensures { IfOk result (λ shown. left_by self.now (connection_of conn) now (read_deed read.now)
            ≡ with_replies (shown_reply shown ∷ []) (start (found_in self.now (connection_of conn) now))) }
    {
        match read {
            Read::Look { command, words } => {
                look(
                    self.alloc,
                    &self.keyspace,
                    now,
                    self.databases.of(conn),
                    *command,
                    words,
                )
            }
            Read::Pubsub { words } => Ok(Shown::Owned(pubsub(
                self.alloc,
                &self.subs,
                arguments(words),
            )?)),
            Read::Local(reply) => Ok(Shown::Lent(reply)),
        }
    }
}
