ghost use Rattle.std.specs.Prelude.{◌≡◌, ◌<◌, length};
ghost use Rattle.nr_slots.specs.Names.{Names};

use nr_entry::{Answer, Batch, BuildError, Outcome};
use nr_slots::{CombinerSeat, Slots, Uncollected, WorkerSeat};
use std::alloc::Global;
use std::process::Abort;
use std::test::Fail;

// The answer that a batch was executed.
fn answer_to(batch: &Batch) -> Answer
    ensures { Names result batch.now }
{
    Answer {
        node: batch.node,
        worker: batch.worker,
        batch: batch.number,
        outcome: Outcome::Executed,
    }
}

// A batch of no job.
fn batch(alloc: Global, worker: usize, number: u64) -> Batch {
    Batch {
        node: 0,
        worker,
        number,
        jobs: Vec::new(alloc),
    }
}

// Whether the answer is there, and names this batch.
fn is_of(answer: Option<Answer>, worker: usize, number: u64) -> bool {
    match answer {
        Some(answer) => answer.worker == worker && answer.batch == number,
        None => false,
    }
}

// Posts a batch, lifts it, answers and collects. Nothing is there before it is put there, nor twice.
fn hand_once(
    rt: &impl Abort,
    alloc: Global,
    slots: &Slots,
    seat: &mut WorkerSeat,
    combiner: &mut CombinerSeat,
    worker: usize,
    number: u64,
)
    requires seat { seat.old.slots ≡ slots.now.id }
    requires combiner { (combiner.old.slots ≡ slots.now.id) × (worker < length combiner.old.desks) }
    ensures seat { seat.new.slots ≡ slots.now.id }
    ensures combiner { (combiner.new.slots ≡ slots.now.id) × (length combiner.new.desks ≡ length combiner.old.desks) }
{
    assert!(rt; combiner.lift(slots, worker).is_none());
    assert!(rt; matches!(seat.collect(slots), Err(Uncollected::NoneAwaited)));
    assert!(rt; seat.post(slots, batch(alloc, worker, number)).is_ok());
    assert!(rt; matches!(seat.collect(slots), Err(Uncollected::Unanswered(_))));
    let Some(lifted) = combiner.lift(slots, worker) else {
        panic!(rt; "no batch is there");
    };
    assert!(rt; lifted.worker == worker && lifted.number == number);
    assert!(rt; matches!(seat.collect(slots), Err(Uncollected::Unanswered(_))));
    combiner.answer(slots, worker, answer_to(&lifted));
    assert!(rt; combiner.lift(slots, worker).is_none());
    let answer = seat.collect(slots).ok();
    assert!(rt; is_of(answer, worker, number));
    assert!(rt; matches!(seat.collect(slots), Err(Uncollected::NoneAwaited)));
}

// A second batch comes back while the first one's answer wasn't collected.
fn posts_one(rt: &impl Abort, alloc: Global, slots: &Slots, seat: &mut WorkerSeat)
    requires { seat.old.slots ≡ slots.now.id }
    ensures { seat.new.slots ≡ slots.now.id }
{
    assert!(rt; seat.post(slots, batch(alloc, 1, 7)).is_ok());
    match seat.post(slots, batch(alloc, 1, 8)) {
        Ok(()) => panic!(rt; "two batches were posted"),
        Err(back) => assert!(rt; back.worker == 1 && back.number == 8),
    }
}

fn seats_in_turn(
    rt: &impl Abort,
    alloc: Global,
    slots: &Slots,
    first: &mut WorkerSeat,
    second: &mut WorkerSeat,
    combiner: &mut CombinerSeat,
)
    requires first { first.old.slots ≡ slots.now.id }
    requires second { second.old.slots ≡ slots.now.id }
    requires combiner { (combiner.old.slots ≡ slots.now.id) × (length combiner.old.desks ≡ 2) }
{
    hand_once(rt, alloc, slots, first, combiner, 0, 0);
    hand_once(rt, alloc, slots, second, combiner, 1, 0);
    hand_once(rt, alloc, slots, first, combiner, 0, 1);
    hand_once(rt, alloc, slots, second, combiner, 1, 1);
    posts_one(rt, alloc, slots, second);
    hand_once(rt, alloc, slots, first, combiner, 0, 2);
    assert!(rt; combiner.lift(slots, 0).is_none());
    let Some(lifted) = combiner.lift(slots, 1) else {
        panic!(rt; "no batch is there");
    };
    assert!(rt; lifted.worker == 1 && lifted.number == 7);
}

#[test]
fn slots_in_turn(rt: HostRuntime) -> Result<(), Fail> {
    let Ok((slots, mut seats, mut combiner)) = Slots::open(rt.alloc(), 2) else {
        panic!(rt; "no memory");
    };
    let Some(mut second) = seats.pop() else {
        panic!(rt; "no seat");
    };
    let Some(mut first) = seats.pop() else {
        panic!(rt; "no seat");
    };
    seats_in_turn(
        &rt,
        rt.alloc(),
        &slots,
        &mut first,
        &mut second,
        &mut combiner,
    );
    Ok(())
}

// A batch of the last of sixteen workers goes over and back.
#[test]
fn last_of_16(rt: HostRuntime) -> Result<(), Fail> {
    let Ok((slots, mut seats, mut combiner)) = Slots::open(rt.alloc(), 16) else {
        panic!(rt; "no memory");
    };
    let Some(mut last) = seats.pop() else {
        panic!(rt; "no seat");
    };
    hand_once(&rt, rt.alloc(), &slots, &mut last, &mut combiner, 15, 0);
    Ok(())
}

#[test]
fn opens_for_1_to_16(rt: HostRuntime) -> Result<(), Fail> {
    for workers in [0, 17, usize::MAX] {
        assert!(rt; matches!(Slots::open(rt.alloc(), workers), Err(BuildError::BadShape)));
    }
    for workers in [1, 16] {
        assert!(rt; Slots::open(rt.alloc(), workers).is_ok());
    }
    Ok(())
}
