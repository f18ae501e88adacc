// A worker, and what a turn of it hands out.
ghost use Rattle.std.specs.Prelude.{◌≡◌, ◌<◌, ◌≤◌, ◌++◌, [], length, map, flat_map, IfOk, IfSome, IfNone, OnOk, OnErr};
ghost use Rattle.nr_oplog.specs.Opening.{name_of, nodes_of, places_of};
ghost use Rattle.nr_taps.specs.Taps.{fresh_tap};
ghost use Rattle.nr_combiner.specs.Opened.{AreNamed, AreOfWorkers};
ghost use Rattle.nr_entry.specs.Jobs.{connection_of};
ghost use Rattle.nr_combiner.specs.Pieces.{IsPieceOf};
ghost use Rattle.nr_combiner.specs.Workers.{told_of, with_more, HasPosted, MayHaveClosed};
ghost use Rattle.nr_test_parts.specs.Clients.{HasTold, fresh_session};
ghost use Rattle.nr_test_parts.specs.Pieces.{AreHandedOut};
ghost use Rattle.nr_test_parts.specs.Stations.{AreOfNodes, HasTurnedAt};

use crate::client::Client;
use crate::error::HeldError;
use nr_blob::Memory;
use nr_combiner::{Lifts, NodeHandle, OpenedSlots, ServerName, Turned, build};
use nr_entry::{ConnId, Job, MOST_JOBS, Outcome, Setup};
use nr_node::{LastPiece, OpenError, Round};
use nr_oplog::{OpenedLog, Token};
use nr_replica::{Piece, Spares};
use std::alloc::Global;
use std::hash::RandomState;
use std::mem;
use std::sync::Wait;

/// A worker at its node, with the jobs of the batch that it hands in next. It may go to a thread of its own.
pub struct Station<B: ServerName> {
    alloc: Global,
    pub worker: NodeHandle<B>,
    pub jobs: Vec<Job>,
    // How many connections its node had as it came back last, as a turn told.
    since: u64,
}

impl<B: ServerName> Drop for Station<B> {
    fn drop(self) {
        let Station {
            alloc: _,
            worker: _worker,
            jobs: _jobs,
            since: _,
        } = self;
    }
}

/// What came of a turn, the pieces that it handed out, and the token that they share.
pub struct Turn<B: ServerName> {
    pub turned: Turned,
    pub pieces: Vec<LastPiece>,
    pub token: Option<Token<B>>,
}

impl<B: ServerName> Drop for Turn<B> {
    fn drop(self) {
        let Turn {
            turned: _,
            pieces: _pieces,
            token: _token,
        } = self;
    }
}

/// The workers of all nodes of a log that was opened, with no key and no connection: those of node 0 first.
pub fn stations<B: ServerName>(
    alloc: Global,
    keys: RandomState,
    opened: OpenedLog,
    slots: Vec<OpenedSlots>,
    setup: Setup,
) -> Result<Vec<Station<B>>, Memory>
    requires name { name_of opened ≡ B.log }
    requires shape { (nodes_of opened ≡ B.nodes) × (places_of opened ≡ B.places) × (setup.nodes ≡ B.nodes) }
    requires slots { (length slots.items ≡ B.nodes) × AreNamed B.slots slots.items }
    requires workers { AreOfWorkers setup.workers slots.items }
    ensures { IfOk result (λ all. AreOfNodes B.nodes setup.workers setup.connections setup.queue_limit (map (λ station. station.worker) all.items)) }
{
    in_order(alloc, build::<B>(alloc, keys, opened, slots, setup)?)
}

fn in_order<B: ServerName>(
    alloc: Global,
    nodes: Vec<Vec<NodeHandle<B>>>,
) -> Result<Vec<Station<B>>, Memory>
    ensures { IfOk result (λ all. map (λ station. station.worker) all.items ≡ flat_map (λ workers. workers.items) nodes.items) }
{
    let mut all = Vec::new(alloc);
    for workers in nodes {
        add_each(alloc, workers, &mut all)?;
    }
    Ok(all)
}

fn add_each<B: ServerName>(
    alloc: Global,
    workers: Vec<NodeHandle<B>>,
    all: &mut Vec<Station<B>>,
) -> Result<(), Memory>
    ensures { OnOk result (map (λ station. station.worker) all.new.items ≡ map (λ station. station.worker) all.old.items ++ workers.items) }
{
    for worker in workers {
        all.push(Station {
            alloc,
            worker,
            jobs: Vec::new(alloc),
            since: 0,
        })?;
    }
    Ok(())
}

impl<B: ServerName> Station<B> {
    /// A client of a new connection that this worker serves.
    pub fn open<R: Wait>(&mut self, rt: &R) -> Result<Client<B>, OpenError>
        ensures session { IfOk result (λ client. client.session ≡ fresh_session client.tap.connection) }
        ensures tap { IfOk result (λ client. client.tap ≡ fresh_tap client.tap.connection) }
        ensures node { IfOk result (λ client. client.tap.connection.node ≡ self.old.worker.node) }
        ensures worker { OnOk result (self.new.worker ≡ told_of self.new.worker.seat.noted self.old.worker) }
        ensures same { OnErr result (self.new.worker ≡ self.old.worker) }
        ensures jobs { self.new.jobs ≡ self.old.jobs }
    {
        let (conn, _token) = self.worker.open(rt, self.since)?;
        Ok(Client::new(self.alloc, conn))
    }

    /// Closes a connection of the worker.
    pub fn close<R: Wait>(&mut self, rt: &R, conn: ConnId)
        ensures worker { MayHaveClosed self.old.worker self.new.worker }
        ensures jobs { self.new.jobs ≡ self.old.jobs }
    {
        self.worker.close(rt, conn);
    }

    /// At most so many of the bytes that wait for a connection of the worker, and at least one, with the token that came with them.
    pub(crate) fn take_piece<R: Wait>(
        &mut self,
        rt: &R,
        conn: ConnId,
        most: usize,
    ) -> Result<Option<(Piece, Token<B>)>, Memory>
        requires { 0 < most }
        ensures { IfOk result (λ taken. IfSome taken (λ t. IsPieceOf (connection_of conn) most t.0 t.1.standing)) }
    {
        self.worker.take_piece(rt, conn, most)
    }

    /// Hands in what was gathered as the worker's next batch. While the last one wasn't collected, or where these are more jobs than a batch has, that is an error,
    /// and they are lost.
    pub fn post(&mut self) -> Result<(), HeldError>
        ensures posted { OnOk result (HasPosted self.old.jobs.items self.old.worker self.new.worker) }
        ensures few { OnOk result (length self.old.jobs.items ≤ MOST_JOBS) }
        ensures err { OnErr result (self.new.worker ≡ self.old.worker) }
        ensures emptied { self.new.jobs.items ≡ [] }
    {
        let jobs = mem::replace(&mut self.jobs, Vec::new(self.alloc));
        if jobs.len() > MOST_JOBS {
            return Err(HeldError::Invalid);
        }
        match self.worker.post(jobs) {
            Ok(()) => Ok(()),
            Err(_) => Err(HeldError::Invalid),
        }
    }

    /// A turn of the combiner.
    pub fn combine<R: Wait>(&self, rt: &R) -> Result<Round, Memory> {
        self.worker.shared().combine(rt)
    }

    /// The next entry that the worker's node applies is refused, as where memory runs out: then the node is down.
    pub fn refuse<R: Wait>(&self, rt: &R) {
        self.worker.refuse(rt);
    }

    /// Whether the worker's last batch was executed, once it is answered.
    pub fn collect(&mut self) -> Option<bool>
        ensures told { IfSome result (λ is_executed. HasTold is_executed self.old.worker self.new.worker) }
        ensures none { IfNone result (self.new.worker ≡ self.old.worker) }
        ensures jobs { self.new.jobs ≡ self.old.jobs }
    {
        let outcome = self.worker.collect().ok()?;
        Some(matches!(outcome, Outcome::Executed))
    }

    /// A turn of the worker, which takes the node's lock once, and lifts from the slots of all workers or from its own: at most so many bytes of each of its
    /// connections are handed out.
    pub fn turn<R: Wait>(&mut self, rt: &R, lifts: Lifts, most: usize) -> Result<Turn<B>, HeldError>
        requires { 0 < most }
        ensures turned { IfOk result (λ turn. HasTurnedAt B.places self.old.worker lifts most turn.pieces.items turn.turned turn.token) }
        ensures handed { IfOk result (λ turn. AreHandedOut turn.pieces.items turn.token) }
        ensures worker { OnOk result (self.new.worker ≡ with_more (told_of self.new.worker.seat.noted self.old.worker)) }
        ensures same { OnErr result (self.new.worker ≡ self.old.worker) }
        ensures jobs { self.new.jobs ≡ self.old.jobs }
    {
        let mut pieces = Vec::new(self.alloc);
        let mut spares = Spares::new(self.alloc);
        let Some((turned, token)) = self.worker.turn(rt, lifts, most, &mut spares, &mut pieces)
        else {
            return Err(HeldError::Invalid);
        };
        self.since = turned.since;
        Ok(Turn {
            turned,
            pieces,
            token: Some(token),
        })
    }

    // The worker itself.
    pub(crate) fn worker(&self) -> &NodeHandle<B>
        ensures { result.now ≡ self.now.worker }
    {
        &self.worker
    }
}
