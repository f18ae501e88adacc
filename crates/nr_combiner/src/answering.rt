// What is refused: a batch, which is answered at once, and a connection.
ghost use Rattle.std.specs.Prelude.{◌≡◌, ◌<◌, length};
ghost use Rattle.nr_node.specs.Batches.{AreSame};
ghost use Rattle.nr_slots.specs.Names.{IsUnanswered, Names};
ghost use Rattle.nr_slots.specs.Seats.{desk_of, with_answered};
ghost use Rattle.nr_combiner.specs.Steps.{IsOutcomeOf};

use nr_blob::Memory;
use nr_entry::{Answer, Batch, Job, Outcome, Refusal};
use nr_node::{Round, TakeError};
use nr_slots::{CombinerSeat, Slots};

/// Why it wasn't asked which connections are cut.
#[derive(Clone, Copy, Debug, PartialEq, Eq)]
pub enum AskError {
    /// Another node stands behind the lock, which there never is.
    Elsewhere,
    /// There was no memory for one more.
    Memory(Memory),
}

impl From<Memory> for AskError {
    ghost use Rattle.std.specs.Prelude.{◌≡◌};
    ghost use Rattle.nr_combiner.specs.declared.answering.AskError.TheVariants as errors;

    ghost from_gives = { λ memory error. error ≡ errors.Memory memory };

    fn from(memory: Memory) -> AskError {
        AskError::Memory(memory)
    }
}

/// The slots from which a turn lifts batches.
#[derive(Clone, Copy, Debug, PartialEq, Eq)]
pub enum Lifts {
    /// Those of all workers of the node.
    All,
    /// That of the worker whose turn it is, alone.
    Own,
}

/// What came of a turn for a worker. Nothing rests on what is told from `has_put` on: it says whom to wake.
#[derive(Clone, Copy, Debug, PartialEq, Eq)]
pub struct Turned {
    /// Of the combiner's turn.
    pub combined: Result<Round, Memory>,
    /// Of handing out: a piece for each of the worker's connections for which bytes waited, or fewer, since memory ran out.
    pub collected: Result<(), Memory>,
    /// Whether an entry that was reserved before isn't passed yet, since it isn't filled, or since too much waits for some connection: else the node has passed all
    /// that there were, also where it is down.
    pub is_behind: bool,
    /// How many batches of the worker itself were answered, also by their coming back, as the turn ended: then what is emitted for them was handed out behind that.
    pub answered: u64,
    /// Whether an entry was put into the log.
    pub has_put: bool,
    /// The other workers of the node that were answered, also by their batch coming back, or for which bytes wait: a bit for each, worker 0's the lowest.
    pub others: u16,
    /// Whether a queue of the worker's connections was cut since it was told last.
    pub has_cut: bool,
    /// How many connections the node had as it came back last; 0 where it never did. Of these, which have the serials below, only ends are taken.
    pub since: u64,
}

/// What came of handing out what waits for a worker's connections, without a turn.
#[derive(Clone, Copy, Debug, PartialEq, Eq)]
pub struct Collected {
    /// A piece for each of the worker's connections for which bytes waited, or fewer, since memory ran out.
    pub result: Result<(), Memory>,
    pub is_down: bool,
    /// How many batches of the worker were answered until then, also by their coming back: then what is emitted for them was handed out behind that.
    pub answered: u64,
    /// Whether a queue of the worker's connections was cut since it was told last. Nothing rests on it.
    pub has_cut: bool,
    /// How many connections the node had as it came back last, as a turn tells it.
    pub since: u64,
}

/// Answers the batch that was lifted last from a worker's slot, which was refused.
pub(crate) fn hand_back(
    seat: &mut CombinerSeat,
    slots: &Slots,
    worker: usize,
    batch: Batch,
    why: TakeError,
)
    requires slots { seat.old.slots ≡ slots.now.id }
    requires worker { worker < length seat.old.desks }
    requires last { (lifted : Batch) × AreSame batch lifted × IsUnanswered lifted (desk_of seat.old worker).lifted (desk_of seat.old worker).answered }
    ensures { (answer : Answer) × Names answer batch × IsOutcomeOf why batch.jobs.items answer.outcome × (seat.new ≡ with_answered worker answer seat.old) }
{
    let Batch {
        node,
        worker: named,
        number,
        jobs,
    } = batch;
    let answer = Answer {
        node,
        worker: named,
        batch: number,
        outcome: refused(why, jobs),
    };
    seat.answer(slots, worker, answer);
}

// What a batch is answered that was refused.
fn refused(why: TakeError, jobs: Vec<Job>) -> Outcome
    ensures { IsOutcomeOf why jobs.items result }
{
    match why {
        TakeError::Stranger => Outcome::Refused(Refusal::Stranger, jobs),
        TakeError::WrongNumber => Outcome::Refused(Refusal::WrongNumber, jobs),
        TakeError::Memory(memory) => Outcome::Refused(Refusal::Memory(memory), jobs),
        TakeError::Down => Outcome::Down,
    }
}
