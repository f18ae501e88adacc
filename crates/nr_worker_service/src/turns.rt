// The work of a worker: its jobs are handed in, its node takes turns, and what becomes of its batches is taken in.
ghost use Rattle.std.specs.Prelude.{◌≡◌, ◌≤◌, ◌<◌, false, Ok, IfSome};
ghost use Rattle.std.specs.Bool.{OnFalse};
ghost use Rattle.nr_worker_service.specs.Works.{GaveAll, HasLooked, HasWaited, IsBehindPieces, IsBehindTurn, IsIdle, IsResting, LeftNothing, Works};

use crate::wake_list::News;
use nr_blob::Memory;
use nr_combiner::{Collected, Lifts, ServerName, Turned};
use nr_entry::{ConnId, MOST_JOBS, Refusal};
use nr_node::Round;
use nr_worker::{Settled, Worker};
use std::hint;
use std::sync::Wait;

/// How many turns a work takes at most.
const MOST_TURNS: u32 = 64;

/// How many ends are put at most before a turn for connections that its node had as it came back.
const MOST_ENDS: u32 = 64;

/// How many bytes a turn hands out for a connection: all that wait.
const EVERY: usize = usize::MAX;

/// How many reads at least are run beside the lock: below that the second hold of it costs more than what it is free for.
const FEW_READS: usize = 16;

/// How often it is tried to have reads run beside the lock before they are handed in by a turn as the others are.
const LOAN_TRIES: u32 = 4;

/// In each of so many turns reads of connections of which no update waits are put in front, at most a batch, which is run in up to eight turns.
const READS_PERIOD: u32 = 16;

/// How often a worker tries to take its node's lock, and looks whether its batch was answered meanwhile, before it is put to sleep until the lock is free: some 20
/// microseconds.
const TRIES: u32 = 400;

// What is done behind a turn.
#[derive(Clone, Copy, Debug, PartialEq, Eq)]
enum NextStep {
    /// Nothing is left to be done.
    Rest,
    /// One more turn, at once.
    Turn,
    /// One more turn, once others had time for theirs.
    Later,
}

// What came of waiting for a turn.
#[derive(Clone, Copy, Debug)]
enum TurnWait {
    /// It was taken.
    Turned(Turned),
    /// None was: the batch was answered meanwhile in another's.
    Settled(Settled),
    /// None was, since another node stands behind the lock.
    Nothing,
}

/// What a work comes to.
#[derive(Clone, Copy, Debug)]
pub(crate) struct Worked {
    pub news: News,
    /// Its node said that it is down.
    pub is_down: bool,
    /// A queue of one of its connections was cut.
    pub has_cut: bool,
    /// Something is left to be done.
    pub is_busy: bool,
}

// Hands the next jobs in, where no answer is awaited.
fn hand_in<R: Wait, B: ServerName>(desk: &mut Worker<'_, R, B>)
    ensures { Works desk.old desk.new }
{
    let _is_posted = desk.post();
}

// Whether the end of a connection was put.
fn is_put(put: Result<bool, Memory>) -> bool {
    matches!(put, Ok(true))
}

// Puts the end of the next connection that its node had as it came back. Whether there was one.
fn put_end<R: Wait, B: ServerName>(desk: &mut Worker<'_, R, B>) -> bool
    ensures { Works desk.old desk.new }
{
    let put = desk.end_next();
    is_put(put)
}

// Puts such ends, as many as there are, and at most so many as go before a turn.
fn put_ends<R: Wait, B: ServerName>(desk: &mut Worker<'_, R, B>)
    ensures { Works desk.old desk.new }
{
    for _ in 0..MOST_ENDS {
        if !desk.is_ending() {
            return;
        }
        if !put_end(desk) {
            return;
        }
    }
}

// Takes in what its node told.
fn hear_of_node<R: Wait, B: ServerName>(desk: &mut Worker<'_, R, B>, is_down: bool, since: u64)
    ensures works { Works desk.old desk.new }
    ensures mark { desk.new.mark ≡ desk.old.mark }
    ensures worker { desk.new.worker ≡ desk.old.worker }
{
    desk.hear_of_node(is_down, since);
}

// Whether something is left at it: jobs, an answer that is awaited, or ends to be put.
fn has_more<R: Wait, B: ServerName>(desk: &Worker<'_, R, B>) -> bool
    ensures { result ≡ false → IsIdle desk.now }
{
    desk.is_at_work() || desk.is_ending()
}

// A turn at its node, once its lock is free.
fn turn<R: Wait, B: ServerName>(desk: &mut Worker<'_, R, B>) -> Option<Turned>
    ensures works { Works desk.old desk.new }
    ensures turned { IfSome result (λ turned. IsBehindTurn B.places turned desk.new) }
{
    desk.turn(Lifts::All, EVERY)
}

// A turn at its node, where its lock is free.
fn try_turn<R: Wait, B: ServerName>(desk: &mut Worker<'_, R, B>) -> Option<Turned>
    ensures works { Works desk.old desk.new }
    ensures turned { IfSome result (λ turned. IsBehindTurn B.places turned desk.new) }
{
    desk.try_turn(Lifts::All, EVERY)
}

// How many reads stand in front. Where it is their turn those of connections of which no update waits are put there.
fn reads_in_front<R: Wait, B: ServerName>(desk: &mut Worker<'_, R, B>, is_their_turn: bool) -> usize
    ensures works { Works desk.old desk.new }
    ensures few { result ≤ MOST_JOBS }
{
    if is_their_turn {
        desk.put_reads_first(FEW_READS)
    } else {
        desk.reads_due()
    }
}

// Has so many reads run beside its node's lock, and a turn take them.
fn read_aside<R: Wait, B: ServerName>(desk: &mut Worker<'_, R, B>, count: usize) -> Option<Turned>
    requires some { 0 < count }
    requires few { count ≤ MOST_JOBS }
    ensures works { Works desk.old desk.new }
    ensures turned { IfSome result (λ turned. IsBehindTurn B.places turned desk.new) }
{
    desk.read_aside(count, EVERY)
}

// Says whether its node lent its server for reads. Where it didn't, those have the lock first who wait for it.
fn pace_reads<R: Wait, B: ServerName>(desk: &mut Worker<'_, R, B>, is_lent: bool)
    ensures { desk.new ≡ desk.old }
{
    desk.pace_reads(is_lent);
    if !is_lent {
        desk.let_others();
    }
}

// Where reads are enough, the same, tried a few times: the update for which the node lends nothing is applied soon, and handed in by a turn the reads would be run under its lock.
fn read_aside_soon<R: Wait, B: ServerName>(
    desk: &mut Worker<'_, R, B>,
    count: usize,
) -> Option<Turned>
    requires { count ≤ MOST_JOBS }
    ensures works { Works desk.old desk.new }
    ensures turned { IfSome result (λ turned. IsBehindTurn B.places turned desk.new) }
{
    if count < FEW_READS {
        return None;
    }
    for _ in 0..LOAN_TRIES {
        let turned = read_aside(desk, count);
        pace_reads(desk, turned.is_some());
        if turned.is_some() {
            return turned;
        }
    }
    None
}

// What waits at its node, without a turn.
fn collect_pieces<R: Wait, B: ServerName>(desk: &mut Worker<'_, R, B>) -> Option<Collected>
    ensures works { Works desk.old desk.new }
    ensures handed { IfSome result (λ collected. IsBehindPieces collected desk.new) }
{
    desk.collect_pieces(EVERY)
}

// What became of the batch, where that is known.
fn collect<R: Wait, B: ServerName>(desk: &mut Worker<'_, R, B>) -> Option<Settled>
    ensures works { Works desk.old desk.new }
    ensures mark { desk.new.mark ≡ desk.old.mark }
    ensures heard { desk.new.worker.seat.noted ≡ desk.old.worker.seat.noted }
{
    desk.collect().ok()
}

// Whether a batch came back for want of memory, or is one that nobody would take.
fn came_back(settled: Option<Settled>) -> bool {
    matches!(
        settled,
        Some(Settled::HandedBack(Refusal::Memory(_) | Refusal::Stranger | Refusal::WrongNumber))
    )
}

// Whether a worker that handed in so many batches goes on, of which so many were answered: something is left at it, or a batch was answered in another worker's turn, behind
// that, and what is emitted for it waits yet.
fn goes_on(is_at_work: bool, batches: u64, answered: u64) -> bool
    ensures { result ≡ false → batches ≤ answered }
{
    is_at_work || answered < batches
}

// What is done behind a turn that was done.
fn next_done(turned: Turned, settled: Option<Settled>, is_at_work: bool) -> NextStep
    ensures { result ≡ NextStep.Rest → (is_at_work ≡ false) × (turned.collected ≡ Ok tt) }
{
    if turned.collected.is_err() || came_back(settled) {
        return NextStep::Later;
    }
    if is_at_work {
        NextStep::Turn
    } else {
        NextStep::Rest
    }
}

// What is done behind a turn of a worker that handed in so many batches: where entries are left that can't be passed yet, what was handed out is written first.
fn next_of(turned: Turned, settled: Option<Settled>, is_at_work: bool, batches: u64) -> NextStep
    ensures { result ≡ NextStep.Rest → LeftNothing batches turned }
{
    let is_at_work = goes_on(is_at_work, batches, turned.answered);
    match turned.combined {
        Ok(Round::Down) if is_at_work => NextStep::Turn,
        Ok(Round::Down) => NextStep::Rest,
        _ if turned.is_behind => NextStep::Later,
        Ok(Round::Done) => next_done(turned, settled, is_at_work),
        Ok(Round::Again) => NextStep::Turn,
        Ok(Round::Full | Round::NotYet) | Err(_) => NextStep::Later,
    }
}

// What is done once what waited was handed out without a turn to a worker that handed in so many batches, since the last was answered.
fn next_collected(
    collected: Collected,
    settled: Settled,
    is_at_work: bool,
    batches: u64,
) -> NextStep
    ensures { result ≡ NextStep.Rest → GaveAll batches collected }
{
    if collected.result.is_err() || came_back(Some(settled)) {
        return NextStep::Later;
    }
    if goes_on(is_at_work, batches, collected.answered) {
        return NextStep::Turn;
    }
    NextStep::Rest
}

// Tries to take a turn for a while, and looks whether the batch was answered meanwhile. `None` where neither was.
fn try_for_a_while<R: Wait, B: ServerName>(desk: &mut Worker<'_, R, B>) -> Option<TurnWait>
    ensures works { Works desk.old desk.new }
    ensures waited { IfSome result (λ waited. HasWaited B.places waited desk.new) }
{
    for _ in 0..TRIES {
        if let Some(settled) = collect(desk) {
            return Some(TurnWait::Settled(settled));
        }
        if let Some(turned) = try_turn(desk) {
            return Some(TurnWait::Turned(turned));
        }
        hint::spin_loop();
    }
    None
}

// The same, counted as one who waits for the lock.
fn try_counted<R: Wait, B: ServerName>(desk: &mut Worker<'_, R, B>) -> Option<TurnWait>
    ensures works { Works desk.old desk.new }
    ensures waited { IfSome result (λ waited. HasWaited B.places waited desk.new) }
{
    desk.begin_to_wait();
    let waited = try_for_a_while(desk);
    desk.end_waiting();
    waited
}

// A turn at its node: at once where its lock is free, else as soon as it is, unless the batch is answered before that.
fn wait_for_turn<R: Wait, B: ServerName>(desk: &mut Worker<'_, R, B>) -> TurnWait
    ensures works { Works desk.old desk.new }
    ensures waited { HasWaited B.places result desk.new }
{
    if let Some(turned) = try_turn(desk) {
        return TurnWait::Turned(turned);
    }
    if let Some(waited) = try_counted(desk) {
        return waited;
    }
    match turn(desk) {
        Some(turned) => TurnWait::Turned(turned),
        None => TurnWait::Nothing,
    }
}

// Takes in what became of the batch behind a turn.
fn go_on_behind<R: Wait, B: ServerName>(
    desk: &mut Worker<'_, R, B>,
    turned: Turned,
    worked: &mut Worked,
) -> NextStep
    requires { IsBehindTurn B.places turned desk.old }
    ensures works { Works desk.old desk.new }
    ensures rest { result ≡ NextStep.Rest → HasLooked B.places desk.new }
{
    let settled = collect(desk);
    hear_of_node(desk, turned.combined == Ok(Round::Down), turned.since);
    worked.news.add(turned);
    worked.is_down |= turned.combined == Ok(Round::Down);
    worked.has_cut |= turned.has_cut;
    next_of(turned, settled, has_more(desk), desk.batches())
}

// Takes in what waits for its connections, once the batch was answered in another's turn.
fn go_on_answered<R: Wait, B: ServerName>(
    desk: &mut Worker<'_, R, B>,
    settled: Settled,
    worked: &mut Worked,
) -> NextStep
    ensures works { Works desk.old desk.new }
    ensures rest { result ≡ NextStep.Rest → HasLooked B.places desk.new }
{
    let Some(collected) = collect_pieces(desk) else {
        return NextStep::Later;
    };
    hear_of_node(desk, collected.is_down, collected.since);
    worked.is_down |= collected.is_down;
    worked.has_cut |= collected.has_cut;
    next_collected(collected, settled, has_more(desk), desk.batches())
}

// Hands jobs in, and waits for a turn; or has reads run beside the lock.
fn hand_in_and_wait<R: Wait, B: ServerName>(
    desk: &mut Worker<'_, R, B>,
    is_turn_of_reads: bool,
) -> TurnWait
    ensures works { Works desk.old desk.new }
    ensures waited { HasWaited B.places result desk.new }
{
    let count = reads_in_front(desk, is_turn_of_reads);
    if let Some(turned) = read_aside_soon(desk, count) {
        return TurnWait::Turned(turned);
    }
    hand_in(desk);
    wait_for_turn(desk)
}

// Puts ends, hands jobs in, waits for a turn, and takes in what became of the batch.
fn take_turn<R: Wait, B: ServerName>(
    desk: &mut Worker<'_, R, B>,
    worked: &mut Worked,
    is_turn_of_reads: bool,
) -> NextStep
    ensures works { Works desk.old desk.new }
    ensures rest { result ≡ NextStep.Rest → HasLooked B.places desk.new }
{
    put_ends(desk);
    match hand_in_and_wait(desk, is_turn_of_reads) {
        TurnWait::Turned(turned) => go_on_behind(desk, turned, worked),
        TurnWait::Settled(settled) => go_on_answered(desk, settled, worked),
        TurnWait::Nothing => NextStep::Later,
    }
}

// The same, and where more than so many bytes wait for some connection behind it, they are written before the next.
fn take_bounded<R: Wait, B: ServerName>(
    desk: &mut Worker<'_, R, B>,
    worked: &mut Worked,
    enough: usize,
    is_turn_of_reads: bool,
) -> NextStep
    ensures works { Works desk.old desk.new }
    ensures rest { result ≡ NextStep.Rest → HasLooked B.places desk.new }
{
    let next = take_turn(desk, worked, is_turn_of_reads);
    if next == NextStep::Turn && desk.most_waiting() > enough {
        return NextStep::Later;
    }
    next
}

// Takes no more bytes from a connection.
fn stop<R: Wait, B: ServerName>(desk: &mut Worker<'_, R, B>, conn: ConnId)
    ensures { Works desk.old desk.new }
{
    desk.stop(conn.serial);
}

// Takes no more bytes from those for which nothing more comes, as far as there is room to hear of them.
fn hear_of_cut<R: Wait, B: ServerName>(desk: &mut Worker<'_, R, B>)
    ensures { Works desk.old desk.new }
{
    let Ok(cut) = desk.cut_ones() else {
        return;
    };
    for conn in cut {
        stop(desk, conn);
    }
}

// Does so where it is time to.
fn hear_in_time<R: Wait, B: ServerName>(desk: &mut Worker<'_, R, B>, is_time: bool)
    ensures { Works desk.old desk.new }
{
    if is_time {
        hear_of_cut(desk);
    }
}

// Takes turns until nothing is left to be done, others have to do something first, or what was handed out has to be written, at most 64. Whether something is left.
// Between two of them others have the lock who wait for it. In each sixteenth one reads of connections of which no update waits go to the front, at most a batch of them, so neither
// they nor the others wait for more than some batches of the other kind.
fn take_turns<R: Wait, B: ServerName>(
    desk: &mut Worker<'_, R, B>,
    worked: &mut Worked,
    enough: usize,
) -> bool
    ensures works { Works desk.old desk.new }
    ensures rest { result ≡ false → HasLooked B.places desk.new }
{
    for turn in 0..MOST_TURNS {
        match take_bounded(desk, worked, enough, turn % READS_PERIOD == 0) {
            NextStep::Rest => return false,
            NextStep::Later => return true,
            NextStep::Turn => desk.let_others(),
        }
    }
    true
}

/// Has the work of a worker done, until nothing is left to be done, others have to do something first, or more than `enough` bytes wait for some connection that it was
/// handed something for: at most 64 turns, each of which takes the lock once. Where it is time to, it hears before which queues its node has cut.
pub(crate) fn work_on<R: Wait, B: ServerName>(
    desk: &mut Worker<'_, R, B>,
    is_time: bool,
    enough: usize,
) -> Worked
    ensures works { Works desk.old desk.new }
    ensures rest { result.is_busy ≡ false → IsResting B.places desk.new }
{
    let mut worked = Worked {
        news: News::none(),
        is_down: false,
        has_cut: false,
        is_busy: false,
    };
    hear_in_time(desk, is_time);
    let has_rest = take_turns(desk, &mut worked, enough);
    worked.is_busy = has_rest | has_more(desk);
    worked
}
