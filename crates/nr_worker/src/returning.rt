// A worker's node falls, and comes back.
ghost use Rattle.std.specs.Prelude.{◌≡◌, true, false, List, IfOk, OnErr};
ghost use Rattle.std.specs.Bool.{OnFalse, OnTrue};
ghost use Rattle.nr_model.specs.Items.{Item};
ghost use Rattle.nr_entry.specs.Jobs.{item_of};
ghost use Rattle.nr_combiner.specs.Workers.{told_of};
ghost use Rattle.nr_worker.specs.Working.{all_ended, back_work, end_of, fallen_work, heard_work, is_bare, unchanged, EndsNext, Goes};

use crate::worker::Worker;
use nr_blob::Memory;
use nr_combiner::ServerName;
use nr_entry::{ConnId, Job, JobKind, Update};
use nr_job_numbers::Unended;
use std::sync::Wait;

// The job that ends a connection of a node of which that expects this next.
fn end_of(node: usize, one: Unended) -> Job
    ensures { item_of result ≡ end_of node one }
{
    Job {
        conn: ConnId {
            node,
            serial: one.serial,
        },
        number: one.next,
        moment: 0,
        kind: JobKind::Update(Update::Close(None)),
    }
}

impl<'a, R: Wait, B: ServerName> Worker<'a, R, B> {
    /// Whether its node is taken for down.
    pub fn is_down(&self) -> bool
        ensures { result ≡ self.now.down }
    {
        self.is_down
    }

    /// Whether ends are to be put for connections that its node had as it came back last: see [`Worker::end_next`].
    pub fn is_ending(&self) -> bool
        ensures { result ≡ self.now.ending }
    {
        self.is_ending
    }

    /// Takes in what its node told behind a turn: whether it is down, and how many connections it had as it came back last. Where it is down, or came back since that was
    /// heard, the worker takes it for down, and no jobs wait any more: until it is up, no connection is open here, and no answer is awaited. Then the worker goes on, with ends
    /// to be put for the connections of before. Linear in the jobs that are let go of.
    pub fn hear_of_node(&mut self, is_down: bool, since: u64)
        ensures heard { self.new ≡ heard_work is_down since self.old }
        ensures goes { Goes unchanged self.old self.new }
    {
        if is_down {
            self.fall();
            return;
        }
        if !self.is_down && since == self.since {
            return;
        }
        if self.is_waiting || !self.seats.is_empty() {
            self.fall();
            return;
        }
        self.come_back(since);
    }

    // Its node is taken for down, and no jobs wait any more.
    fn fall(&mut self)
        ensures fallen { self.new ≡ fallen_work self.old }
        ensures goes { Goes unchanged self.old self.new }
    {
        self.returned.clear();
        self.due.clear();
        self.is_down = true;
    }

    // No jobs wait any more, and ends are to be put for the connections of before.
    fn come_back(&mut self, since: u64)
        requires bare { is_bare self.old ≡ true }
        ensures back { self.new ≡ back_work since self.old }
        ensures goes { Goes unchanged self.old self.new }
    {
        self.returned.clear();
        self.due.clear();
        self.is_down = false;
        self.since = since;
        self.is_ending = true;
        self.ended = None;
    }

    /// Puts the end of the next of its connections that its node had as it came back last, and whose end isn't in the log, though a job of it is: so who was subscribed or
    /// watched is counted by nobody any more. It waits behind the other jobs. Whether there was one; where not, all are put, or the next one is open here: then its
    /// node came back once more, and all are put once that is heard. It takes the lock once: [`NodeHandle::next_unended`](nr_combiner::NodeHandle::next_unended).
    ///
    /// # Errors
    ///
    /// `Memory` where there is none for it: then it is asked for again.
    pub fn end_next(&mut self) -> Result<bool, Memory>
        ensures ended { IfOk result (λ is_one. OnTrue is_one (EndsNext self.old self.new)) }
        ensures none { IfOk result (λ is_one. OnFalse is_one (self.new ≡ record self.old { worker = told_of self.new.worker.seat.noted self.old.worker; mark = self.new.mark; ending = false })) }
        ensures same { OnErr result (self.new ≡ record self.old { worker = told_of self.new.worker.seat.noted self.old.worker; mark = self.new.mark; late = self.new.late }) }
        ensures goes { (ends : List Item) × Goes (all_ended ends) self.old self.new }
    {
        let Some((unended, token)) = self.worker.next_unended(self.rt, self.ended) else {
            self.is_ending = false;
            return Ok(false);
        };
        self.mark.adopt(self.worker.shared().log(), token);
        if self.seats.is_open(unended.serial) {
            self.is_ending = false;
            return Ok(false);
        }
        let job = end_of(self.worker.shared().node(), unended);
        self.due.push(job)?;
        self.ended = Some(unended.serial);
        Ok(true)
    }
}
