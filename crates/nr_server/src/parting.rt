// The last that clients get of a server that has ended in order: all that was sent for them, and then the end.
ghost use Rattle.std.specs.Prelude.{◌≡◌, length};
ghost use Rattle.nr_server.specs.Parting.{HasParted, HaveParted, PartWithNone, PartsFrom, PartsWithNone};

use nr_crew::WorkerEnd;
use nr_service::{Client, Moments, Poller, Stream};
use std::alloc::Global;
use std::mem;

/// For how long peers are waited for that still send, in milliseconds: a socket that is closed over bytes that nobody read takes back what was sent.
const MOST_MILLISECONDS: u64 = 1_000;

/// How many times devices are looked at meanwhile at most.
const MOST_WAITS: u32 = 100_000;

// Lets go of the streams of the clients that a worker left, each as one of which all was sent. How many there were.
fn finish_each<S: Stream + Drop, D: Poller<S>>(device: &mut D, clients: Vec<Client<S>>) -> usize
    ensures count { result ≡ length clients.items }
    ensures parted { PartsFrom clients.items (D.parted device.old) (D.parted device.new) }
{
    let count = clients.len();
    for client in clients {
        let Client { stream, .. } = client;
        device.finish(stream);
    }
    count
}

// Looks once at what the peers of streams that a worker let go of still send. Where it isn't busy it waits for that, at most 10 milliseconds.
fn look_at<S: Stream + Drop, D: Poller<S> + Drop, M: Drop>(
    left: &mut WorkerEnd<S, D, M>,
    is_busy: bool,
)
    ensures { PartsWithNone D.parted left.old left.new }
{
    let _goes_on = left.device.wait(is_busy);
}

// The same at all: it waits at the first device.
fn look_once<S: Stream + Drop, D: Poller<S> + Drop, M: Drop>(lefts: &mut [WorkerEnd<S, D, M>])
    ensures { PartWithNone D.parted lefts.old lefts.new }
{
    let mut is_first = true;
    for left in lefts.iter_mut() {
        look_at(left, !is_first);
        is_first = false;
    }
}

// Lets go of all clients of a worker so. How many there were.
fn finish_left<S: Stream + Drop, D: Poller<S> + Drop, M: Drop>(
    alloc: Global,
    left: &mut WorkerEnd<S, D, M>,
) -> usize
    ensures count { result ≡ length left.old.clients.items }
    ensures parted { HasParted D.parted left.old left.new }
{
    let clients = mem::replace(&mut left.clients, Vec::new(alloc));
    finish_each(&mut left.device, clients)
}

// Lets go of all clients of all workers so. How many there were.
fn finish_all<S: Stream + Drop, D: Poller<S> + Drop, M: Drop>(
    alloc: Global,
    lefts: &mut [WorkerEnd<S, D, M>],
) -> usize
    ensures { HaveParted D.parted lefts.old lefts.new }
{
    let mut count = 0usize;
    for left in lefts.iter_mut() {
        let more = finish_left(alloc, left);
        count = count.saturating_add(more);
    }
    count
}

/// Lets go of the clients that workers left that have ended in order, and waits for a second while their peers still send. Where none is left it doesn't wait.
pub(crate) fn part_from_all<S, D, M, C>(
    alloc: Global,
    lefts: &mut [WorkerEnd<S, D, M>],
    clock: &mut C,
)
where
    S: Stream + Drop,
    D: Poller<S> + Drop,
    M: Drop,
    C: Moments,
    ensures { HaveParted D.parted lefts.old lefts.new }
{
    if finish_all(alloc, lefts) == 0 {
        return;
    }
    let began = clock.now().unwrap_or(0);
    for _ in 0..MOST_WAITS {
        let now = clock.now().unwrap_or(u64::MAX);
        if now < began || now - began >= MOST_MILLISECONDS {
            return;
        }
        look_once(lefts);
    }
}
