// What became of a batch.
ghost use Rattle.std.specs.Prelude.{◌≡◌, ◌↔◌, [], true, false, IfOk, IfErr, OnErr};
ghost use Rattle.nr_slots.specs.declared.worker.Uncollected.TheVariants as Uncollected;
ghost use Rattle.nr_worker.specs.Due.{emptied};
ghost use Rattle.nr_worker.specs.Settling.{back_of, down_of, late_of, left_of, settled_of, HasSettled};
ghost use Rattle.nr_worker.specs.Working.{unchanged, Goes};

use crate::due::DueJobs;
use crate::worker::Worker;
use nr_combiner::ServerName;
use nr_entry::{Job, MOST_JOBS, Outcome, Refusal};
use nr_slots::Uncollected;
use std::sync::Wait;

/// What became of the batch that was handed in last.
#[derive(Clone, Copy, Debug, PartialEq, Eq)]
pub enum Settled {
    /// Each of its jobs was executed.
    Executed,
    /// The node is down: nothing more is executed, and no jobs wait any more.
    Down,
    /// It was handed back, none of its jobs executed: they wait in front of the others.
    HandedBack(Refusal),
}

// The node is down: no jobs wait any more.
fn fall(due: &mut DueJobs, is_down: &mut bool) -> Settled
    ensures told { result ≡ Settled.Down }
    ensures jobs { due.new ≡ emptied due.old }
    ensures down { is_down.new ≡ true }
{
    due.clear();
    *is_down = true;
    Settled::Down
}

// Takes an outcome in, where no jobs are there that were handed back. Linear in the jobs that are let go of.
fn settle(
    outcome: Outcome,
    returned: &mut Vec<Job>,
    due: &mut DueJobs,
    is_down: &mut bool,
    most: usize,
) -> Settled
    requires { returned.old.items ≡ [] }
    ensures told { result ≡ settled_of most outcome }
    ensures back { returned.new.items ≡ back_of most outcome }
    ensures left { due.new.jobs ≡ left_of most outcome due.old.jobs }
    ensures late { due.new.late ≡ late_of most outcome due.old.late }
    ensures room { due.new.room ≡ due.old.room }
    ensures down { is_down.new ≡ down_of most outcome is_down.old }
{
    match outcome {
        Outcome::Executed => Settled::Executed,
        Outcome::Down => fall(due, is_down),
        Outcome::Refused(why, back) => {
            if back.len() <= most {
                *returned = back;
                return Settled::HandedBack(why);
            }
            fall(due, is_down)
        }
    }
}

impl<'a, R: Wait, B: ServerName> Worker<'a, R, B> {
    /// What became of the batch that was handed in last, once that is answered: one load, and one store where it is. The jobs of a batch that comes back wait in
    /// front of the others, in their order; where the node is down no jobs wait any more. Constant, and linear in the jobs that are let go of.
    ///
    /// # Errors
    ///
    /// `NoneAwaited` exactly where no answer is awaited, else `Unanswered`: there was none yet as the slot was looked at.
    pub fn collect(&mut self) -> Result<Settled, Uncollected>
        ensures settled { IfOk result (λ told. HasSettled told self.old self.new) }
        ensures none { IfErr result (λ why. (why ≡ Uncollected.NoneAwaited) ↔ (self.old.waiting ≡ false)) }
        ensures same { OnErr result (self.new ≡ self.old) }
        ensures goes { Goes unchanged self.old self.new }
    {
        if !self.is_waiting {
            return Err(Uncollected::NoneAwaited);
        }
        let outcome = self.worker.collect()?;
        self.is_waiting = false;
        Ok(settle(
            outcome,
            &mut self.returned,
            &mut self.due,
            &mut self.is_down,
            MOST_JOBS,
        ))
    }
}
