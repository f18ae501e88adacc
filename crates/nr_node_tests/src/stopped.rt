// A node that reserved a place of the log and stopped, beside one that goes on.
ghost use Rattle.std.specs.Prelude.{◌≡◌, length, None, IfOk, IsSome, slice_index_or};
ghost use Rattle.std.specs.Arc.{arc_value};
ghost use Rattle.nr_oplog.specs.Rule.{opening_view};
ghost use Rattle.nr_slots.specs.Seats.{new_combiner};
ghost use Rattle.nr_oplog.specs.Opening.{name_of, nodes_of, places_of};

use crate::asserted::{holds, same};
use crate::desk::MANY;
use nr_blob::{Blob, Memory};
use nr_combiner::{Combiner, ServerName};
use nr_entry::{Batch, ConnId, Entry, Job, JobKind, Outcome, Setup, Shares, Unshared, Update};
use nr_log_end::{LogEnd, Reserve};
use nr_model::command::{Change, StringsChange};
use nr_node::{Core, Round};
use nr_oplog::{End, OpenedLog};
use nr_session::Session;
use nr_slots::{CombinerSeat, Slots, WorkerSeat};
use nr_test_parts::let_go;
use std::alloc::Global;
use std::hash::RandomState;
use std::marker::Brand;
use std::process::Abort;
use std::sync::Arc;

// SET k v, by a connection of node 0.
fn setting(alloc: Global) -> Result<Entry, Memory>
    ensures { IfOk result (λ entry. (entry.node ≡ 0) × (length entry.jobs.items ≡ 1)) }
{
    let mut words = Vec::with_capacity(alloc, 3)?;
    for word in [b"SET".as_slice(), b"k", b"v"] {
        words.push(Blob::from_slice(alloc, word)?)?;
    }
    let job = Job {
        conn: ConnId { node: 0, serial: 0 },
        number: 0,
        moment: 0,
        kind: JobKind::Update(Update::Change {
            command: Change::Strings(StringsChange::Set),
            words,
        }),
    };
    Ok(Entry::new(0, vec![in alloc; job]?))
}

// Reserves a place for an entry of node 0 of two. Its number.
fn reserves<B: ServerName>(rt: &impl Abort, alloc: Global, end: &mut End<B>) -> u64
    requires { end.old ≡ opening_view 2 B.places 0 1 }
    ensures number { result ≡ end.new.standing.at }
    ensures share { IsSome (slice_index_or end.new.standing.unfilled 1 None) }
{
    let entry = setting(alloc).expect(rt, "memory");
    let Ok(shares) = Shares::of(alloc, Unshared::Whole(entry), 2) else {
        panic!(rt; "memory");
    };
    match end.reserve(shares) {
        Reserve::Taken(at) => at,
        Reserve::Full(_) | Reserve::Lost(_) => panic!(rt; "there is place"),
    }
}

// The jobs of an update and a read of a connection.
fn asking(rt: &impl Abort, alloc: Global, conn: ConnId) -> Vec<Job> {
    let sent = b"SET j w\r\nGET k\r\n".as_slice();
    let mut session = Session::new(alloc, conn);
    let mut jobs = Vec::new(alloc);
    assert!(rt; session.fits(sent.len()));
    holds(rt, "it asks", session.feed(sent, 0, &mut jobs).is_ok());
    jobs
}

// A worker's batch is in its slot.
fn posts(rt: &impl Abort, slots: &Slots, seat: &mut WorkerSeat, batch: Batch)
    requires { seat.old.slots ≡ slots.now.id }
    ensures { seat.new.slots ≡ slots.now.id }
{
    holds(rt, "it is handed in", seat.post(slots, batch).is_ok());
}

// Whether a worker is told that its batch was executed, or nothing.
fn is_told(rt: &impl Abort, slots: &Slots, seat: &mut WorkerSeat, wanted: bool)
    requires { seat.old.slots ≡ slots.now.id }
    ensures { seat.new.slots ≡ slots.now.id }
{
    let answer = seat.collect(slots).ok();
    holds(rt, "it is answered, or isn't", answer.is_some() == wanted);
    if let Some(answer) = answer {
        holds(
            rt,
            "it is executed",
            matches!(answer.outcome, Outcome::Executed),
        );
    }
}

// Slots that several hold.
fn shared(rt: &impl Abort, alloc: Global, slots: Slots) -> Arc<Slots>
    ensures { arc_value result ≡ slots }
{
    Arc::new(alloc, slots).ok().expect(rt, "memory")
}

// A node that nothing was done at yet, with its slots.
fn combiner_of<B: ServerName>(
    rt: &impl Abort,
    alloc: Global,
    keys: RandomState,
    second: End<B>,
    slots: Slots,
    desk: CombinerSeat,
) -> (Combiner<B>, Arc<Slots>)
    requires nodes { B.nodes ≡ 2 }
    requires second { second ≡ opening_view B.nodes B.places 1 2 }
    requires slots { (slots.id ≡ B.slots 1) × (desk ≡ new_combiner slots.id 1) }
    ensures { (arc_value result.1).id ≡ B.slots 1 }
{
    let Some(setup) = Setup::new(2, 2, 1, 1, 1_024) else {
        panic!(rt; "there may be such a server");
    };
    let core = Core::new(alloc, keys, second, 1, setup).expect(rt, "memory");
    let slots = shared(rt, alloc, slots);
    let other = Arc::try_clone(&slots).ok().expect(rt, "memory");
    let combiner = Combiner::new(alloc, 1, 1, core, desk, other).expect(rt, "memory");
    (combiner, slots)
}

// Node 1 puts an update behind the entry of node 0, and executes nothing until that is filled for it.
fn waits_for_it<B: ServerName>(
    rt: &impl Abort,
    alloc: Global,
    keys: RandomState,
    second: End<B>,
    slots: Slots,
    desk: CombinerSeat,
    mut seat: WorkerSeat,
    first: &mut End<B>,
    at: u64,
)
    requires slots { (slots.id ≡ B.slots 1) × (desk ≡ new_combiner slots.id 1) × (seat.slots ≡ slots.id) }
    requires nodes { B.nodes ≡ 2 }
    requires second { second ≡ opening_view B.nodes B.places 1 2 }
    requires number { at ≡ first.old.standing.at }
    requires share { IsSome (slice_index_or first.old.standing.unfilled 1 None) }
{
    let (mut combiner, slots) = combiner_of(rt, alloc, keys, second, slots, desk);
    let conn = combiner
        .open(0, MANY, 1)
        .expect(rt, "a connection is opened");
    let batch = Batch {
        node: 1,
        worker: 0,
        number: 0,
        jobs: asking(rt, alloc, conn),
    };
    posts(rt, &slots, &mut seat, batch);
    holds(rt, "it waits", combiner.combine() == Ok(Round::NotYet));
    is_told(rt, &slots, &mut seat, false);
    first.fill(at, 1);
    holds(rt, "it goes on", combiner.combine() == Ok(Round::Done));
    is_told(rt, &slots, &mut seat, true);
    gets(rt, &mut combiner, conn);
    let_go(combiner);
}

// What waits for the connection is what was asked for.
fn gets<B: ServerName>(rt: &impl Abort, combiner: &mut Combiner<B>, conn: ConnId) {
    let taken = combiner.take_piece(0, conn, MANY).expect(rt, "memory");
    let (piece, _) = taken.expect(rt, "something waits");
    same(
        rt,
        "it has the replies",
        &piece.bytes,
        b"+OK\r\n$1\r\nv\r\n",
    );
}

// The ends of both nodes.
fn ends<B: ServerName>(rt: &impl Abort, alloc: Global, opened: OpenedLog) -> (End<B>, End<B>)
    requires nodes { B.nodes ≡ 2 }
    requires name { name_of opened ≡ B.log }
    requires shape { (nodes_of opened ≡ B.nodes) × (places_of opened ≡ B.places) }
    ensures first { result.0 ≡ opening_view 2 B.places 0 1 }
    ensures second { result.1 ≡ opening_view B.nodes B.places 1 2 }
{
    let (log, seats) = opened.named::<B>(alloc).expect(rt, "memory");
    let Ok(log) = Arc::new(alloc, log) else {
        panic!(rt; "memory");
    };
    let Ok(shared) = Arc::try_clone(&log) else {
        panic!(rt; "memory");
    };
    let mut seats = seats.into_iter();
    let Some(of_first) = seats.next() else {
        panic!(rt; "node 0 has a seat");
    };
    let Some(of_second) = seats.next() else {
        panic!(rt; "node 1 has a seat");
    };
    (End::new(of_first, shared), End::new(of_second, log))
}

// Node 0 reserves a place and stops; node 1 goes on.
fn stops<B: ServerName>(
    rt: &impl Abort,
    alloc: Global,
    keys: RandomState,
    opened: OpenedLog,
    slots: Slots,
    desk: CombinerSeat,
    seat: WorkerSeat,
)
    requires nodes { B.nodes ≡ 2 }
    requires name { name_of opened ≡ B.log }
    requires shape { (nodes_of opened ≡ B.nodes) × (places_of opened ≡ B.places) }
    requires slots { (slots.id ≡ B.slots 1) × (desk ≡ new_combiner slots.id 1) × (seat.slots ≡ slots.id) }
{
    let (mut first, second) = ends::<B>(rt, alloc, opened);
    let at = reserves(rt, alloc, &mut first);
    waits_for_it(rt, alloc, keys, second, slots, desk, seat, &mut first, at);
}

#[test]
fn unfilled_entry_holds_up_what_is_behind(rt: HostRuntime) {
    let keys = RandomState::new(&rt)
        .ok()
        .expect(&rt, "there are random bytes");
    let opened = OpenedLog::open(rt.alloc(), 2, 4)
        .ok()
        .expect(&rt, "a log is opened");
    let Ok((slots, seats, desk)) = Slots::open(rt.alloc(), 1) else {
        panic!(&rt; "no slots were opened");
    };
    let Some(seat) = seats.into_iter().next() else {
        panic!(&rt; "there is no seat");
    };
    stops::<Brand>(&rt, rt.alloc(), keys, opened, slots, desk, seat);
}
