// The service over streams in memory: no clause says that it comes to an end, or when a stream fails.
ghost use Rattle.std.specs.Prelude.{◌≡◌, ◌≤◌, ◌++◌, [], false, length, take, IfOk, OnErr};
ghost use Rattle.nr_model.specs.Bytes.{IsBeginningOf};
ghost use Rattle.nr_model.specs.Items.{Connection, Sequence};
ghost use Rattle.nr_model.specs.Sequential.{emitted_for};

use nr_blob::Memory;
use nr_entry::Setup;
use nr_server::{Fault, serve_stream};
use nr_service::{Ended, MachineClock, Moments, Open, Poller, Received, Sent, Service, Stream};
use nr_world_service::WorldBackend;
use std::alloc::{AllocError, Global};
use std::hash::RandomState;
use std::process::Abort;
use std::test::Fail;

// Who gives its input so many bytes a call and takes its output so many, gives what stands behind `first` only once it has taken so many bytes, and fails
// once so many calls were made.
#[derive(Clone, Copy, Drop)]
struct Peer {
    input: &'static [u8],
    first: usize,
    needed: usize,
    piece: usize,
    takes: usize,
    calls: usize,
}

// A connection in memory. It knows all bytes that it gave and took, and how it stands.
#[derive(Drop)]
struct Line {
    peer: Peer,
    given: Vec<u8>,
    output: Vec<u8>,
    has_ended: bool,
    has_failed: bool,
    is_full: bool,
    calls: usize,
}

impl Line {
    fn new(alloc: Global, peer: Peer) -> Line
        ensures given { result.given.items ≡ [] }
        ensures output { result.output.items ≡ [] }
        ensures ended { result.has_ended ≡ false }
        ensures failed { result.has_failed ≡ false }
        ensures full { result.is_full ≡ false }
    {
        Line {
            peer,
            given: Vec::new(alloc),
            output: Vec::new(alloc),
            has_ended: false,
            has_failed: false,
            is_full: false,
            calls: peer.calls,
        }
    }

    // Whether the calls that it takes were made.
    fn fails(&mut self) -> bool
        ensures given { self.new.given ≡ self.old.given }
        ensures output { self.new.output ≡ self.old.output }
        ensures ended { self.new.has_ended ≡ self.old.has_ended }
        ensures failed { self.new.has_failed ≡ self.old.has_failed }
        ensures full { self.new.is_full ≡ self.old.is_full }
    {
        match self.calls.checked_sub(1) {
            Some(left) => {
                self.calls = left;
                false
            }
            None => true,
        }
    }

    // What it gives next.
    fn next(&self) -> &'static [u8] {
        let peer = self.peer;
        let end = if self.output.len() < peer.needed {
            peer.first
        } else {
            peer.input.len()
        };
        let at = self.given.len();
        let end = end.min(at.saturating_add(peer.piece));
        peer.input.get(at..end).unwrap_or(b"")
    }
}

// Copies as many of these bytes as the buffer takes behind those that were given, and to its front, and says how many.
fn give(next: &[u8], given: &mut Vec<u8>, buffer: &mut [u8]) -> Result<usize, AllocError>
    ensures bound { IfOk result (λ count. count ≤ length buffer.new) }
    ensures ok { IfOk result (λ count. given.new.items ≡ given.old.items ++ take count buffer.new) }
    ensures err { OnErr result (given.new.items ≡ given.old.items) }
{
    let count = next.len().min(buffer.len());
    given.extend_from_slice(&next[..count])?;
    buffer[..count].copy_from_slice(&next[..count]);
    Ok(count)
}

impl Stream for Line {
    ghost use Rattle.std.specs.Prelude.{Some};

    ghost received = { λ line. Some line.given.items };

    ghost sent = { λ line. Some line.output.items };

    ghost course = { λ line. Some (record { ended = line.has_ended; failed = line.has_failed; full = line.is_full }) };

    fn receive(&mut self, buffer: &mut [u8]) -> Received {
        if self.fails() {
            self.has_failed = true;
            return Received::Failed;
        }
        if self.given.len() >= self.peer.input.len() {
            self.has_ended = true;
            return Received::End;
        }
        match give(self.next(), &mut self.given, buffer) {
            Ok(0) | Err(_) => Received::Nothing,
            Ok(count) => Received::Bytes(count),
        }
    }

    fn send(&mut self, bytes: &[u8]) -> Sent {
        if self.fails() {
            self.has_failed = true;
            return Sent::Failed;
        }
        let count = bytes.len().min(self.peer.takes);
        match self.output.extend_from_slice(&bytes[..count]) {
            Ok(()) if count > 0 => {
                self.is_full = false;
                Sent::Bytes(count)
            }
            _ => {
                self.is_full = true;
                Sent::Nothing
            }
        }
    }
}

// Gives one connection, and keeps what it is given back. It can't wait any more after so many turns, and counts its waits: those with work at hand, and
// those with none.
#[derive(Drop)]
struct Desk<'a, R> {
    runtime: &'a R,
    alloc: Global,
    waiting: Option<Peer>,
    gone: Vec<Gone>,
    turns: usize,
    busy: usize,
    calm: usize,
}

// A connection that was given back, and whether all was sent that waited for it.
#[derive(Drop)]
struct Gone {
    line: Line,
    is_finished: bool,
}

impl<'a, R: Abort> Poller<Line> for Desk<'a, R> {
    ghost use Rattle.std.specs.Prelude.{Some, map, if◌then◌else◌};
    ghost use Rattle.nr_service.specs.Pollers.{Finished, Abandoned};

    ghost parted = { λ desk. Some (map (λ gone. if gone.is_finished then Finished gone.line else Abandoned gone.line) desk.gone.items) };

    fn accept(&mut self) -> Result<Option<Line>, Memory> {
        let Some(peer) = self.waiting.take() else {
            return Ok(None);
        };
        Ok(Some(Line::new(self.alloc, peer)))
    }

    fn wait(&mut self, is_busy: bool) -> bool {
        if is_busy {
            self.busy = self.busy.saturating_add(1);
        } else {
            self.calm = self.calm.saturating_add(1);
        }
        self.turns = self.turns.saturating_sub(1);
        self.turns != 0 && self.gone.is_empty()
    }

    fn finish(&mut self, line: Line) {
        let gone = Gone {
            line,
            is_finished: true,
        };
        self.gone.push(gone).expect(self.runtime, "memory");
    }

    fn abandon(&mut self, line: Line) {
        let gone = Gone {
            line,
            is_finished: false,
        };
        self.gone.push(gone).expect(self.runtime, "memory");
    }
}

// Gives these readings, one after the other, and fails behind the last.
#[derive(Drop)]
struct Readings {
    left: &'static [Option<u64>],
}

impl Moments for Readings {
    ghost use Rattle.std.specs.Prelude.{◌≡◌, ◌⊎◌, [], ◌∷◌, None};

    // The next of those that are left, or none.
    ghost gives = { λ old new reading. (old.left.now ≡ reading ∷ new.left.now) ⊎ ((old.left.now ≡ []) × (new.left.now ≡ []) × (reading ≡ None)) };

    fn now(&mut self) -> Option<u64> {
        let Some((reading, left)) = self.left.split_first() else {
            return None;
        };
        self.left = left;
        *reading
    }
}

// What came of a connection: how it was given back, where it was, and how often its device waited with work at hand, and with none.
#[derive(Drop)]
struct Came {
    gone: Option<Gone>,
    busy: usize,
    calm: usize,
}

// What came of a connection at a server of two nodes, up to its end or for so many turns, where one is silent for too long after so many milliseconds.
fn came_of<R: Abort, M: Moments + Drop>(
    runtime: &R,
    alloc: Global,
    keys: RandomState,
    clock: M,
    peer: Peer,
    turns: usize,
    timeout: u64,
) -> Result<Option<Came>, Fail> {
    let Some(setup) = Setup::new(2, 1_024, 2, 256, 67_108_864) else {
        return Ok(None);
    };
    let answering = WorldBackend::new(alloc, keys, setup)?;
    let desk = Desk {
        runtime,
        alloc,
        waiting: Some(peer),
        gone: Vec::new(alloc),
        turns,
        busy: 0,
        calm: 0,
    };
    let mut service = Service::new(alloc, 0, 0, answering, desk, clock, 67_108_864, timeout)?;
    if service.serve(&Open) != Ended::Device {
        return Ok(None);
    }
    Ok(Some(Came {
        gone: service.device.gone.pop(),
        busy: service.device.busy,
        calm: service.device.calm,
    }))
}

// How a connection was served, up to its end.
fn served<R: Abort, M: Moments + Drop>(
    runtime: &R,
    alloc: Global,
    keys: RandomState,
    clock: M,
    peer: Peer,
) -> Result<Option<Gone>, Fail> {
    let Some(came) = came_of(runtime, alloc, keys, clock, peer, 10_000, 0)? else {
        return Ok(None);
    };
    Ok(came.gone)
}

fn asking(input: &'static [u8], piece: usize, calls: usize) -> Peer {
    Peer {
        input,
        first: input.len(),
        needed: 0,
        piece,
        takes: piece,
        calls,
    }
}

const INPUT: &[u8] = b"*3\r\n$3\r\nSET\r\n$1\r\nk\r\n$1\r\nv\r\n*2\r\n$3\r\nGET\r\n$1\r\nk\r\n";

const OUTPUT: &[u8] = b"+OK\r\n$1\r\nv\r\n";

// Each call fails once, in pieces of one byte and of more: what was sent is a beginning of the right bytes, and the stream that failed is abandoned.
#[test]
fn serves_streams_that_fail(rt: HostRuntime) -> Result<(), Fail> {
    let keys = RandomState::new(&rt)?;
    for piece in [1, 7, 4_096] {
        for calls in 0..64 {
            let clock = MachineClock { runtime: &rt };
            let gone = served(&rt, rt.alloc(), keys, clock, asking(INPUT, piece, calls))?;
            let gone = gone.expect(&rt, "an end");
            assert!(&rt; OUTPUT.starts_with(&gone.line.output));
            assert!(&rt; gone.is_finished != gone.line.has_failed);
        }
        let clock = MachineClock { runtime: &rt };
        let gone = served(
            &rt,
            rt.alloc(),
            keys,
            clock,
            asking(INPUT, piece, usize::MAX),
        )?;
        let gone = gone.expect(&rt, "an end");
        assert!(&rt; gone.is_finished && gone.line.output.as_slice() == OUTPUT);
    }
    Ok(())
}

// A client that asks for more only once it has its answer is served to its end.
#[test]
fn serves_one_that_waits_for_its_answer(rt: HostRuntime) -> Result<(), Fail> {
    let keys = RandomState::new(&rt)?;
    let clock = MachineClock { runtime: &rt };
    let mut peer = asking(b"PING\r\nPING again\r\n", 4_096, usize::MAX);
    peer.first = 6;
    peer.needed = 7;
    let gone = served(&rt, rt.alloc(), keys, clock, peer)?;
    let expected = b"+PONG\r\n$5\r\nagain\r\n".as_slice();
    assert!(&rt; gone.is_some_and(|gone| gone.line.output.as_slice() == expected));
    Ok(())
}

// Time goes on by the clock's readings alone: a reading that fails leaves it where it was, and a key goes at its deadline.
#[test]
fn serves_by_the_clock(rt: HostRuntime) -> Result<(), Fail> {
    let keys = RandomState::new(&rt)?;
    let set = b"SET k v PX 10\r\n".as_slice();
    let all = b"SET k v PX 10\r\nGET k\r\n".as_slice();
    let rows: [(&'static [Option<u64>], &[u8]); 4] = [
        (&[Some(100), Some(109)], b"+OK\r\n$1\r\nv\r\n"),
        (&[Some(100), None], b"+OK\r\n$1\r\nv\r\n"),
        (&[Some(100), Some(110)], b"+OK\r\n$-1\r\n"),
        (&[None, Some(10)], b"+OK\r\n$-1\r\n"),
    ];
    for (readings, expected) in rows {
        let clock = Readings { left: readings };
        let mut peer = asking(all, 4_096, usize::MAX);
        peer.first = set.len();
        peer.needed = 5;
        let gone = served(&rt, rt.alloc(), keys, clock, peer)?;
        assert!(&rt; gone.is_some_and(|gone| gone.line.output.as_slice() == expected));
    }
    Ok(())
}

// A turn with nothing at hand rests at its device. One whose client says nothing rests in each of 100 turns. One whose client gives a byte a turn rests in
// each of the six in which those of its request come, since all of the reply is written in the last of them, and then not in that in which the client goes.
// One whose client takes nothing of its reply, and says no more, rests in each of 100, too.
#[test]
fn rests_where_nothing_moves(rt: HostRuntime) -> Result<(), Fail> {
    let keys = RandomState::new(&rt)?;
    let talking = asking(b"PING\r\n", 1, usize::MAX);
    let mut silent = talking;
    silent.first = 0;
    silent.needed = 1;
    let mut deaf = asking(b"PING\r\nPING\r\n", 4_096, usize::MAX);
    deaf.first = 6;
    deaf.needed = 1;
    deaf.takes = 0;
    for (peer, calm, busy) in [(silent, 100, 0), (talking, 6, 1), (deaf, 100, 0)] {
        let clock = MachineClock { runtime: &rt };
        let came = came_of(&rt, rt.alloc(), keys, clock, peer, 100, 0)?;
        let came = came.expect(&rt, "turns");
        assert!(&rt; came.calm == calm && came.busy == busy);
    }
    Ok(())
}

// A moment for each turn, 10 milliseconds after the one before.
const MOMENTS: &[Option<u64>] = &[
    Some(1_000),
    Some(1_010),
    Some(1_020),
    Some(1_030),
    Some(1_040),
    Some(1_050),
    Some(1_060),
    Some(1_070),
    Some(1_080),
    Some(1_090),
];

// Where 25 milliseconds of silence are too long, a client that gives a request byte by byte, one in 10 milliseconds, counts as heard with each, and is
// answered. One that gives two bytes of it and then no more is closed.
#[test]
fn hears_each_byte(rt: HostRuntime) -> Result<(), Fail> {
    let keys = RandomState::new(&rt)?;
    let talking = asking(b"PING\r\n", 1, usize::MAX);
    let mut silent = talking;
    silent.first = 2;
    silent.needed = 1;
    let rows: [(Peer, usize, &[u8]); 2] = [(talking, 6, b"+PONG\r\n"), (silent, 2, b"")];
    for (peer, given, output) in rows {
        let clock = Readings { left: MOMENTS };
        let came = came_of(&rt, rt.alloc(), keys, clock, peer, 100, 25)?;
        let came = came.expect(&rt, "turns");
        let gone = came.gone.expect(&rt, "an end");
        assert!(&rt; gone.is_finished && gone.line.given.len() == given);
        assert!(&rt; gone.line.output.as_slice() == output);
    }
    Ok(())
}

// What one connection was sent in memory: a beginning of what one sequential Redis emits for it, by the theorem of one connection.
fn sent_alone<M: Moments + Drop>(
    alloc: Global,
    keys: RandomState,
    clock: M,
    peer: Peer,
) -> Result<Vec<u8>, Fault>
    ensures { IfOk result (λ bytes. (c : Connection) × (items : Sequence) × IsBeginningOf bytes.items (emitted_for c items)) }
{
    let served = serve_stream(alloc, keys, Line::new(alloc, peer), clock)?;
    Ok(served.stream.output)
}

// One connection alone, by the function that has this contract.
#[test]
fn serves_one_alone(rt: HostRuntime) -> Result<(), Fail> {
    let keys = RandomState::new(&rt)?;
    for piece in [1, 7, 4_096] {
        let clock = MachineClock { runtime: &rt };
        let sent = sent_alone(rt.alloc(), keys, clock, asking(INPUT, piece, usize::MAX))
            .ok()
            .expect(&rt, "it is served");
        assert!(&rt; sent.as_slice() == OUTPUT);
    }
    Ok(())
}
