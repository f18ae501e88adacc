// The steps of a call at one slot: single steps on its word, and plain access to its place between them.
ghost use Rattle.std.specs.Prelude.{ℕ, ◌≡◌, ◌+◌, ◌<◌, [], ◌∷◌, ◌++◌, length, slice_index_or, MatchOption, MatchResult, true};
ghost use Rattle.nr_entry.specs.declared.batch.Batch.{Batch};
ghost use Rattle.nr_slots.specs.declared.view.Hand.TheVariants.{Still};
ghost use Rattle.nr_slots.specs.declared.view.Grip.TheVariants.{Loose};
ghost use Rattle.nr_slots.specs.declared.view.Found.TheVariants.{Nothing, Batch as FoundBatch};
ghost use Rattle.nr_slots.specs.Names.{IsForLast, IsTold};
ghost use Rattle.nr_slots.specs.Rule.{worker_view, combiner_view, opening_view, note_view, no_lane};
ghost use Rattle.nr_slots.specs.Plays.{desk_at};
ghost use Rattle.nr_slots.specs.Steps.{IsSameSeat, IsAt, CanPost, with_batch, with_answer, with_lift, with_reply};
ghost use Rattle.nr_slots.specs.Seats.{IsOfWorkers};

use crate::plays::{
    Clear, Compare, Keep, Lift, Look, NextWorker, Publish, PutAnswer, Reach, Seek, TakePlace, Tell,
};
use crate::view::{Parcel, SlotSeat, SlotWords};
use nr_entry::{Answer, Batch};

/// The word of a slot where a batch was put in, and where an answer was.
const OFFERED: u64 = 1;

const READY: u64 = 2;

// Puts a batch into the worker's empty place: one load and one store.
pub(crate) fn put_batch(words: &SlotWords, seat: &mut SlotSeat, worker: usize, batch: Batch)
    requires seat { IsAt words.now.table_id words.now.key seat.old }
    requires worker { (worker < 16) × (worker < words.now.key) × (seat.old.me.0 ≡ worker_view worker seat.old.me.0.lane seat.old.me.0.noted) }
    requires empty { CanPost seat.old.me.0.lane }
    ensures seat { IsSameSeat seat.old seat.new }
    ensures view { seat.new.me ≡ (worker_view worker (with_batch batch seat.old.me.0.lane) seat.old.me.0.noted, []) }
{
    let word = 16 * worker + 16;
    words.load::<TakePlace>(seat, word);
    match words.exchange(seat, 2 * worker, Some(Parcel::Posted(batch))) {
        None => {}
        Some(_) => unreachable!(),
    }
    words.store::<Publish>(seat, word, OFFERED);
}

/// That no answer stood in a worker's slot as the worker looked there. It comes of that look alone: no other code makes one.
#[derive(Debug, Drop, PartialEq, Eq)]
pub struct Unanswered {
    // Nothing, and private: so no one else writes a value down.
    looked: (),
}

// Takes the answer out of the worker's place, where one is ready: one load, and one store.
pub(crate) fn take_answer(
    words: &SlotWords,
    seat: &mut SlotSeat,
    worker: usize,
) -> Result<Answer, Unanswered>
    requires seat { IsAt words.now.table_id words.now.key seat.old }
    requires worker { (worker < 16) × (worker < words.now.key) × (seat.old.me.0 ≡ worker_view worker seat.old.me.0.lane seat.old.me.0.noted) }
    requires still { seat.old.me.0.lane.hand ≡ Still }
    ensures seat { IsSameSeat seat.old seat.new }
    ensures view { MatchResult result (λ answer. IsForLast answer seat.old.me.0.lane.posted seat.old.me.0.lane.collected × (seat.new.me ≡ (worker_view worker (with_answer answer seat.old.me.0.lane) seat.old.me.0.noted, []))) (λ _. seat.new.me ≡ seat.old.me) }
{
    let word = 16 * worker + 16;
    if words.load::<Look>(seat, word) != READY {
        return Err(Unanswered { looked: () });
    }
    let parcel = words.exchange(seat, 2 * worker, None);
    words.store::<Clear>(seat, word, 0);
    match parcel {
        Some(Parcel::Answered(answer)) => Ok(answer),
        Some(Parcel::Posted(_)) | None => unreachable!(),
    }
}

// Takes the batch out of a worker's place, where one is offered: one load, and another one.
pub(crate) fn take_batch(words: &SlotWords, seat: &mut SlotSeat, worker: usize) -> Option<Batch>
    requires seat { IsAt words.now.table_id words.now.key seat.old }
    requires worker { (worker < 16) × (worker < words.now.key) × (length seat.old.me.0.desks ≡ words.now.key) × (seat.old.me.0 ≡ combiner_view words.now.key seat.old.me.0.desks seat.old.me.0.looks) }
    requires loose { ((desk_at seat.old.me.0.desks worker).grip ≡ Loose) × (length (desk_at seat.old.me.0.desks worker).lifted ≡ length (desk_at seat.old.me.0.desks worker).answered) }
    ensures seat { IsSameSeat seat.old seat.new }
    ensures view { MatchOption result (seat.new.me ≡ (combiner_view words.now.key seat.old.me.0.desks (seat.old.me.0.looks ++ Nothing worker ∷ []), [])) (λ batch. seat.new.me ≡ (combiner_view words.now.key (with_lift worker batch seat.old.me.0.desks) (seat.old.me.0.looks ++ FoundBatch worker ∷ []), [])) }
{
    let word = 16 * worker + 16;
    if words.load::<Seek>(seat, word) != OFFERED {
        return None;
    }
    let parcel = words.exchange(seat, 2 * worker, None);
    words.load::<Lift>(seat, word);
    Some(batch_of(parcel))
}

// The batch in a parcel that has one.
fn batch_of(parcel: Option<Parcel>) -> Batch
    requires { (batch : Batch) × (parcel ≡ Some (Parcel.Posted batch)) }
    ensures { parcel ≡ Some (Parcel.Posted result) }
{
    match parcel {
        Some(Parcel::Posted(batch)) => batch,
        Some(Parcel::Answered(_)) | None => unreachable!(),
    }
}

// Puts the answer to the batch lifted last into a worker's place: one load and one store.
pub(crate) fn put_answer(words: &SlotWords, seat: &mut SlotSeat, worker: usize, answer: Answer)
    requires seat { IsAt words.now.table_id words.now.key seat.old }
    requires worker { (worker < 16) × (worker < words.now.key) × (length seat.old.me.0.desks ≡ words.now.key) × (seat.old.me.0 ≡ combiner_view words.now.key seat.old.me.0.desks seat.old.me.0.looks) }
    requires loose { (desk_at seat.old.me.0.desks worker).grip ≡ Loose }
    requires lifted { IsForLast answer (desk_at seat.old.me.0.desks worker).lifted (desk_at seat.old.me.0.desks worker).answered }
    ensures seat { IsSameSeat seat.old seat.new }
    ensures view { seat.new.me ≡ (combiner_view words.now.key (with_reply worker answer seat.old.me.0.desks) seat.old.me.0.looks, []) }
{
    let word = 16 * worker + 16;
    words.load::<Reach>(seat, word);
    match words.exchange(seat, 2 * worker, Some(Parcel::Answered(answer))) {
        None => {}
        Some(_) => unreachable!(),
    }
    words.store::<PutAnswer>(seat, word, READY);
}

// A seat of nobody, which keeps what the combiner has done.
pub(crate) fn keep(words: &SlotWords, seat: &mut SlotSeat) -> SlotSeat
    requires seat { IsAt words.now.table_id words.now.key seat.old × (seat.old.me.0.combines ≡ true) }
    ensures seat { IsSameSeat seat.old seat.new × (seat.new.me ≡ seat.old.me) }
    ensures kept { (result.table_id ≡ words.now.table_id) × (result.me ≡ (note_view seat.old.me.0.desks, [])) }
{
    words.split_seat::<Keep>(seat)
}

// Tells a worker what a note keeps, and looks at the worker's slot: what the combiner had done is the first of what the worker knows.
pub(crate) fn compare(words: &SlotWords, seat: &mut SlotSeat, worker: usize, note: SlotSeat)
    requires seat { IsAt words.now.table_id words.now.key seat.old }
    requires worker { (worker < 16) × (worker < words.now.key) × (seat.old.me.0 ≡ worker_view worker seat.old.me.0.lane seat.old.me.0.noted) }
    requires note { (note.table_id ≡ words.now.table_id) × (note.me.1 ≡ []) }
    ensures seat { IsSameSeat seat.old seat.new }
    ensures view { seat.new.me ≡ (worker_view worker seat.old.me.0.lane note.me.0.noted, []) }
    ensures told { IsTold (desk_at note.me.0.noted worker) seat.old.me.0.lane }
{
    words.join_seat::<Tell>(seat, note);
    words.load::<Compare>(seat, 16 * worker + 16);
}

// Looks at the worker's slot once more: what the seat was told last is still the first of what the worker knows.
pub(crate) fn recall(words: &SlotWords, seat: &mut SlotSeat, worker: usize)
    requires seat { IsAt words.now.table_id words.now.key seat.old }
    requires worker { (worker < 16) × (worker < words.now.key) × (seat.old.me.0 ≡ worker_view worker seat.old.me.0.lane seat.old.me.0.noted) }
    ensures seat { IsSameSeat seat.old seat.new }
    ensures view { seat.new.me ≡ seat.old.me }
    ensures told { IsTold (desk_at seat.old.me.0.noted worker) seat.old.me.0.lane }
{
    words.load::<Compare>(seat, 16 * worker + 16);
}

// The seat of the first of some workers, cut from that of all of them and the combiner.
pub(crate) fn cut(words: &SlotWords, seat: &mut SlotSeat, worker: usize) -> SlotSeat
    requires seat { IsAt words.now.table_id words.now.key seat.old }
    requires rest { (worker < 16) × (worker < words.now.key) × (seat.old.me.0 ≡ opening_view words.now.key worker) }
    ensures rest { IsSameSeat seat.old seat.new × (seat.new.me ≡ (opening_view words.now.key (worker + 1), [])) }
    ensures cut { (result.table_id ≡ words.now.table_id) × (result.me ≡ (worker_view worker no_lane [], [])) }
{
    words.split_seat::<NextWorker>(seat)
}
