// The reads that a node runs, each at its own moment. A reply is written once, into its connection's queue.
ghost use Rattle.std.specs.Prelude.{◌≡◌, ℕ, false, Option};
ghost use Rattle.std.specs.Bool.{OnTrue, OnFalse};
ghost use Rattle.nr_model.specs.Connections.{is_some_bytes};
ghost use Rattle.nr_model.specs.Entries.{Jobs};
ghost use Rattle.nr_model.specs.Items.{is_update};
ghost use Rattle.nr_model.specs.Nodes.Steps.{texts_for};
ghost use Rattle.nr_model.specs.Queues.{received};
ghost use Rattle.nr_model.specs.Servers.{Server, emitted_all, emitted_in};
ghost use Rattle.nr_entry.specs.Jobs.{connection_of, item_of, items_of};
ghost use Rattle.nr_entry.specs.Kinds.{deed_of};
ghost use Rattle.nr_replica.specs.Lent.{AreRunBy, AreRepliesTo, IsJoined};
ghost use Rattle.nr_replica.specs.Members.{AreNumbered, AreDelivered, AreReads, members_seen};
ghost use Rattle.nr_replica.specs.Ready.{has_serial, IsMarked, AreReady};

use crate::answering::Replies;
use crate::members::NodeMembers;
use crate::outbox::Outbox;
use crate::ready::ReadySerials;
use crate::spares::Spares;
use nr_blob::Memory;
use nr_entry::{Job, JobKind};
use nr_machine::Machine;

/// Runs reads one after the other. One for which memory is refused cuts its connection's queue.
pub(crate) fn run_reads<'k>(
    machine: &'k Machine,
    reads: &'k [Job],
    node: usize,
    members: &mut NodeMembers,
)
    requires reads { AreReads (items_of reads.now) }
    requires numbered { AreNumbered node 0 (members_seen node members.old) }
    requires ready { AreReady members.old.ready.sets.items (members_seen node members.old) }
    ensures delivered { AreDelivered (emitted_all machine.now.state (items_of reads.now)) (members_seen node members.old) (members_seen node members.new) }
    ensures ready { AreReady members.new.ready.sets.items (members_seen node members.new) }
{
    for job in reads {
        run_read(machine, job, node, members);
    }
}

/// Gives the replies that are at hand to the queues of their connections. Those of a run that doesn't fit into its queue as a whole are made anew, one by one.
pub(crate) fn take_all<'k>(
    machine: &'k Machine,
    reads: &'k [Job],
    replies: Vec<Replies>,
    node: usize,
    members: &mut NodeMembers,
    spares: &mut Spares,
)
    requires reads { AreReads (items_of reads.now) }
    requires prepared { AreRepliesTo machine.now.state (items_of reads.now) replies.items }
    requires numbered { AreNumbered node 0 (members_seen node members.old) }
    requires ready { AreReady members.old.ready.sets.items (members_seen node members.old) }
    ensures delivered { AreDelivered (emitted_all machine.now.state (items_of reads.now)) (members_seen node members.old) (members_seen node members.new) }
    ensures ready { AreReady members.new.ready.sets.items (members_seen node members.new) }
{
    let mut from = 0;
    for run in replies {
        let upto = from + run.count();
        take_run(machine, &reads[from..upto], run, node, members, spares);
        from = upto;
    }
}

// The replies to a run of reads, or the reads anew where they don't fit.
fn take_run<'k>(
    machine: &'k Machine,
    reads: &'k [Job],
    run: Replies,
    node: usize,
    members: &mut NodeMembers,
    spares: &mut Spares,
)
    requires prepared { AreRunBy machine.now.state (items_of reads.now) run }
    requires numbered { AreNumbered node 0 (members_seen node members.old) }
    requires ready { AreReady members.old.ready.sets.items (members_seen node members.old) }
    ensures delivered { AreDelivered (emitted_all machine.now.state (items_of reads.now)) (members_seen node members.old) (members_seen node members.new) }
    ensures ready { AreReady members.new.ready.sets.items (members_seen node members.new) }
{
    if !hand_over(run, node, members, spares) {
        run_reads(machine, reads, node, members);
    }
}

// The replies to a run of reads, if it is of one of the node's connections that are open, and they fit. False, and nothing changes, where not.
fn hand_over(run: Replies, node: usize, members: &mut NodeMembers, spares: &mut Spares) -> bool
    requires numbered { AreNumbered node 0 (members_seen node members.old) }
    requires ready { AreReady members.old.ready.sets.items (members_seen node members.old) }
    ensures delivered { (s : Server) (own : Jobs) → AreRunBy s own run → OnTrue result (AreDelivered (emitted_all s own) (members_seen node members.old) (members_seen node members.new)) }
    ensures same { OnFalse result (members_seen node members.new ≡ members_seen node members.old) }
    ensures ready { AreReady members.new.ready.sets.items (members_seen node members.new) }
{
    let other = run.into_outbox();
    let conn = other.conn();
    if conn.node != node || other.is_empty() {
        return false;
    }
    let Some(worker) = members.find_worker(conn.serial) else {
        return false;
    };
    let Some(outbox) = members.outboxes.get_mut(&conn.serial) else {
        return false;
    };
    let was_cut = outbox.is_cut();
    let is_taken = join(
        other,
        worker,
        conn.serial,
        outbox,
        &mut members.ready,
        spares,
    );
    members
        .ready
        .backlogs
        .note(worker, conn.serial, was_cut, outbox);
    is_taken
}

// What waits in another queue of a connection, to its own. False, and nothing changes, where it doesn't fit.
fn join(
    other: Outbox,
    worker: usize,
    serial: u64,
    outbox: &mut Outbox,
    ready: &mut ReadySerials,
    spares: &mut Spares,
) -> bool
    requires { has_serial ready.old.sets.items worker serial ≡ is_some_bytes outbox.old.waiting }
    ensures taken { OnTrue result (IsJoined other.waiting outbox.old outbox.new) }
    ensures same { OnFalse result (outbox.new ≡ outbox.old) }
    ensures marked { IsMarked worker serial (is_some_bytes outbox.new.waiting) ready.old.sets.items ready.new.sets.items }
{
    if !ready.announce(worker, serial, outbox) {
        return true;
    }
    let is_taken = outbox.take_over(other, spares);
    ready.withdraw(worker, serial, outbox);
    is_taken
}

// A read, if it is one of the node's connections that are open.
fn run_read<'k>(machine: &'k Machine, job: &'k Job, node: usize, members: &mut NodeMembers)
    requires read { is_update (deed_of job.now.kind) ≡ false }
    requires numbered { AreNumbered node 0 (members_seen node members.old) }
    requires ready { AreReady members.old.ready.sets.items (members_seen node members.old) }
    ensures delivered { AreDelivered (emitted_in machine.now.state (item_of job.now)) (members_seen node members.old) (members_seen node members.new) }
    ensures ready { AreReady members.new.ready.sets.items (members_seen node members.new) }
{
    if job.conn.node == node {
        let Some(worker) = members.find_worker(job.conn.serial) else {
            return;
        };
        if let Some(outbox) = members.outboxes.get_mut(&job.conn.serial) {
            let was_cut = outbox.is_cut();
            answer(machine, job, worker, outbox, &mut members.ready);
            members
                .ready
                .backlogs
                .note(worker, job.conn.serial, was_cut, outbox);
        }
    }
}

// The reply to a read, to its queue.
fn answer<'k>(
    machine: &'k Machine,
    job: &'k Job,
    worker: usize,
    outbox: &mut Outbox,
    ready: &mut ReadySerials,
)
    requires read { is_update (deed_of job.now.kind) ≡ false }
    requires ready { has_serial ready.old.sets.items worker job.now.conn.serial ≡ is_some_bytes outbox.old.waiting }
    ensures received { (refused : Option ℕ) × (outbox.new
        ≡ received refused outbox.old (texts_for (connection_of job.now.conn) (emitted_in machine.now.state (item_of job.now)))) }
    ensures marked { IsMarked worker job.now.conn.serial (is_some_bytes outbox.new.waiting) ready.old.sets.items ready.new.sets.items }
{
    if ready.announce(worker, job.conn.serial, outbox) {
        reply(machine, job, outbox);
        ready.withdraw(worker, job.conn.serial, outbox);
    }
}

/// The reply to a read. Where memory is refused the queue is cut.
#[tactic(auto, using(crate::proofs::Looked::reply_refused))]
pub(crate) fn reply<'k>(machine: &'k Machine, job: &'k Job, outbox: &mut Outbox)
    requires { is_update (deed_of job.now.kind) ≡ false }
    ensures { (refused : Option ℕ) × (outbox.new
        ≡ received refused outbox.old (texts_for (connection_of job.now.conn) (emitted_in machine.now.state (item_of job.now)))) }
{
    match &job.kind {
        JobKind::Read(read) => match machine.look(job.moment, job.conn, read, outbox) {
            Ok(()) => {}
            Err(memory) => outbox.refuse(memory),
        },
        JobKind::Update(_) => {}
    }
}
