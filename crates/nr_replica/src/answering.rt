// Replies to reads that are run beside their node's lock: each run of reads of one connection has a queue of its own.
ghost use Rattle.std.specs.Prelude.{◌≡◌, ◌<◌, ◌≤◌, false, length, take, slice_index_or, IfSome};
ghost use Rattle.std.specs.Bool.{OnTrue};
ghost use Rattle.std.specs.List.{AllByRecursion};
ghost use Rattle.nr_model.specs.Items.{Item, is_update};
ghost use Rattle.nr_model.specs.Nodes.Steps.{texts_for};
ghost use Rattle.nr_model.specs.Queues.{puts};
ghost use Rattle.nr_model.specs.Servers.{emitted_all};
ghost use Rattle.nr_entry.specs.Jobs.{connection_of, items_of};
ghost use Rattle.nr_entry.specs.Kinds.{deed_of};
ghost use Rattle.nr_replica.specs.Lent.{AreRunBy, AreRepliesTo};
ghost use Rattle.nr_replica.specs.Members.{AreReads};

use crate::outbox::Outbox;
use crate::reading::reply;
use crate::spares::Spares;
use nr_entry::{ConnId, Job, JobKind};
use nr_machine::Machine;
use std::alloc::Global;
use std::marker::Model;

/// What reads of one connection, so many that stand behind one another, come to. Contracts see how many, and the queue that their replies came to.
#[derive(Drop)]
pub struct Replies {
    count: usize,
    outbox: Outbox,
}

impl Model for Replies {
    ghost use Rattle.nr_replica.specs.Lent.{RepliesState, coded_replies};

    ghost Value = { RepliesState };

    ghost coded = { coded_replies };

    ghost view = { λ r. record { count = r.count; queue = r.outbox } };
}

impl Replies {
    /// How many reads.
    pub(crate) fn count(&self) -> usize
        ensures { result ≡ self.now.count }
    {
        self.count
    }

    /// The queue that their replies came to.
    pub(crate) fn into_outbox(self) -> Outbox
        ensures { result ≡ self.queue }
    {
        self.outbox
    }
}

/// Whether all of these jobs are reads. Linear in them.
pub(crate) fn are_reads(jobs: &[Job]) -> bool
    ensures { OnTrue result (AreReads (items_of jobs.now)) }
{
    for job in jobs {
        if !is_read(&job.kind) {
            return false;
        }
    }
    true
}

fn is_read(kind: &JobKind) -> bool
    ensures { OnTrue result (is_update (deed_of kind.now) ≡ false) }
{
    match kind {
        JobKind::Read(_) => true,
        JobKind::Update(_) => false,
    }
}

/// Runs reads: replies for each run of reads of one connection, in order. `None` where those to a run pass the limit, or where memory runs out.
pub(crate) fn answer_all<'k>(
    machine: &'k Machine,
    alloc: Global,
    limit: usize,
    spares: &mut Spares,
    jobs: &'k [Job],
) -> Option<Vec<Replies>>
    requires { AreReads (items_of jobs.now) }
    ensures { IfSome result (λ replies. AreRepliesTo machine.now.state (items_of jobs.now) replies.items) }
{
    let mut all = Vec::new(alloc);
    let mut from = 0;
    while from < jobs.len() {
        let Some(replies) = answer_run(machine, alloc, limit, spares, &jobs[from..]) else {
            return None;
        };
        from += replies.count();
        let Ok(()) = all.push(replies) else {
            return None;
        };
    }
    Some(all)
}

// Runs the first reads that are of one connection.
fn answer_run<'k>(
    machine: &'k Machine,
    alloc: Global,
    limit: usize,
    spares: &mut Spares,
    jobs: &'k [Job],
) -> Option<Replies>
    requires some { 0 < length jobs.now }
    requires reads { AreReads (items_of jobs.now) }
    ensures some { IfSome result (λ replies. 0 < replies.count) }
    ensures within { IfSome result (λ replies. replies.count ≤ length jobs.now) }
    ensures ran { IfSome result (λ replies. AreRunBy machine.now.state (items_of (take replies.count jobs.now)) replies) }
{
    let conn = jobs[0].conn;
    let count = run_len(conn, jobs);
    let mut outbox = Outbox::over_spare(alloc, conn, limit, spares);
    if !answer_each(machine, &jobs[..count], &mut outbox) {
        return None;
    }
    Some(Replies { count, outbox })
}

// How many of the first jobs are of a connection.
fn run_len(conn: ConnId, jobs: &[Job]) -> usize
    ensures within { result ≤ length jobs.now }
    ensures own { AllByRecursion (λ (job : Item). job.connection ≡ connection_of conn) (items_of (take result jobs.now)) }
    ensures first { (d : Job) → 0 < length jobs.now → (slice_index_or jobs.now 0 d).conn ≡ conn → 0 < result }
{
    for (index, job) in jobs.iter().enumerate() {
        if job.conn != conn {
            return index;
        }
    }
    jobs.len()
}

// Runs reads of one connection into a queue of it. False where that is cut.
fn answer_each<'k>(machine: &'k Machine, jobs: &'k [Job], outbox: &mut Outbox) -> bool
    requires reads { AreReads (items_of jobs.now) }
    requires own { AllByRecursion (λ (job : Item). job.connection ≡ outbox.old.connection) (items_of jobs.now) }
    requires uncut { outbox.old.cut ≡ false }
    ensures came { OnTrue result (outbox.new ≡ puts outbox.old (texts_for outbox.old.connection (emitted_all machine.now.state (items_of jobs.now)))) }
    ensures uncut { OnTrue result (outbox.new.cut ≡ false) }
{
    for job in jobs {
        reply(machine, job, outbox);
        if outbox.is_cut() {
            return false;
        }
    }
    true
}
