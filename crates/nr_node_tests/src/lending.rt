// What no contract says of a node's loans: that its server is lent, that entries wait for a loan to end, and are taken in then.
ghost use Rattle.std.specs.Prelude.{◌≡◌, ◌∷◌, [], None};
ghost use Rattle.nr_oplog.specs.Rule.{opening_view};
ghost use Rattle.nr_oplog.specs.Opening.{name_of, nodes_of, places_of};

use crate::asserted::holds;
use nr_blob::{Blob, Memory};
use nr_entry::{Batch, ConnId, Job, JobKind, Setup, Update};
use nr_model::command::{Change, StringsChange};
use nr_node::{Core, Loan, Round};
use nr_oplog::{End, LogName, OpenedLog};
use std::alloc::Global;
use std::hash::RandomState;
use std::marker::Brand;
use std::process::Abort;
use std::sync::Arc;

// The end of a log of one node.
fn end_of<B: LogName>(rt: &impl Abort, alloc: Global, opened: OpenedLog) -> End<B>
    requires nodes { B.nodes ≡ 1 }
    requires name { name_of opened ≡ B.log }
    requires shape { (nodes_of opened ≡ B.nodes) × (places_of opened ≡ B.places) }
    ensures { result ≡ opening_view B.nodes B.places 0 1 }
{
    let (log, seats) = opened.named::<B>(alloc).expect(rt, "memory");
    let Ok(log) = Arc::new(alloc, log) else {
        panic!(rt; "memory");
    };
    let mut seats = seats.into_iter();
    let Some(seat) = seats.next() else {
        panic!(rt; "the node has a seat");
    };
    End::new(seat, log)
}

// SET k v, by a connection.
fn setting(alloc: Global, conn: ConnId) -> Result<Vec<Job>, Memory> {
    let mut words = Vec::with_capacity(alloc, 3)?;
    for word in [b"SET".as_slice(), b"k", b"v"] {
        words.push(Blob::from_slice(alloc, word)?)?;
    }
    let job = Job {
        conn,
        number: 0,
        moment: 0,
        kind: JobKind::Update(Update::Change {
            command: Change::Strings(StringsChange::Set),
            words,
        }),
    };
    Ok(vec![in alloc; job]?)
}

// A node takes a batch in and puts it into the log. Its server is lent before.
fn reserves<B: LogName>(rt: &impl Abort, alloc: Global, core: &mut Core<B>) -> Loan<B>
    requires { core.old.replica.owed ≡ None ∷ [] }
{
    let conn = core.open(0, 100).expect(rt, "a connection is opened");
    let Some(loan) = core.lend() else {
        panic!(rt; "it is lent");
    };
    let jobs = setting(alloc, conn).expect(rt, "memory");
    let batch = Batch {
        node: 0,
        worker: 0,
        number: 0,
        jobs,
    };
    holds(rt, "it is taken", core.take_batch(batch).is_ok());
    holds(rt, "none is lent", core.lend().is_none());
    holds(rt, "it is reserved", core.reserve() == Ok(Round::Done));
    loan
}

// A look comes to this.
fn looks<B: LogName>(rt: &impl Abort, core: &mut Core<B>, round: Round, is_behind: bool) {
    let looked = core.look();
    holds(rt, "it comes to this", looked.round == Ok(round));
    holds(rt, "it is behind, or not", looked.is_behind == is_behind);
}

// One node lends its server, and takes an entry in once the loan has ended.
fn lends<B: LogName>(rt: &impl Abort, alloc: Global, keys: RandomState, opened: OpenedLog)
    requires nodes { B.nodes ≡ 1 }
    requires name { name_of opened ≡ B.log }
    requires shape { (nodes_of opened ≡ B.nodes) × (places_of opened ≡ B.places) }
{
    let Some(setup) = Setup::new(1, 4, 1, 1, 1_024) else {
        panic!(rt; "there may be such a server");
    };
    let end = end_of::<B>(rt, alloc, opened);
    let mut core = Core::new(alloc, keys, end, 0, setup).expect(rt, "memory");
    let loan = reserves(rt, alloc, &mut core);
    looks(rt, &mut core, Round::NotYet, true);
    drop(loan);
    holds(rt, "none is lent", core.lend().is_none());
    looks(rt, &mut core, Round::Done, false);
    holds(rt, "it is lent", core.lend().is_some());
}

#[test]
fn entry_waits_for_a_loan(rt: HostRuntime) {
    let keys = RandomState::new(&rt)
        .ok()
        .expect(&rt, "there are random bytes");
    let opened = OpenedLog::open(rt.alloc(), 1, 4)
        .ok()
        .expect(&rt, "a log is opened");
    lends::<Brand>(&rt, rt.alloc(), keys, opened);
}
