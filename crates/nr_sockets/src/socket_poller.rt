// The poller of a lane: the sockets of the connections that its thread serves, and which of them are ready.
ghost use Rattle.std.specs.Prelude.{◌≡◌, ◌≤◌, ◌↔◌, true, false, [], ◌∷◌, ◌++◌, None, Err, length, IfOk, IfSome, IsOk};
ghost use Rattle.nr_service.specs.Streams.{fresh_course};

use crate::inboxes::{Inboxes, LaneInbox, PollHandle, WAKER};
use crate::lingering::{Lingering, PIECE};
use crate::peer::Peer;
use crate::readiness::{Readiness, SharedReadiness};
use crate::socket::Socket;
use crate::waiting::longest_wait;
use mio::event::Event;
use mio::{Events, Interest, Poll, Token};
use nr_blob::Memory;
use nr_service::{Poller, Ready, Stream};
use nr_transcript::{Noted, Transcript};
use slab::Slab;
use std::alloc::Global;
use std::rt::Clock;
use std::sync::{Arc, Wait};
use std::time::{Duration, Instant};

/// How many letters are tried in one call: one that becomes no connection is followed by the next.
const MOST_TRIES: usize = 64;

/// How many sockets linger at most. One more is closed at once.
const MOST_LINGERING: usize = 1_024;

/// In how many waits at most those that linger are looked at, whether their time is over.
const MOST_WAITS: u32 = 16;

/// Why a lane has no poller.
#[derive(Clone, Copy, Debug, PartialEq, Eq)]
pub enum SocketPollerError {
    /// There is no lane of this number: the handle is that of other inboxes.
    NoLane,
    /// There was no memory.
    Memory(Memory),
}

// A socket that was given back, and whether all was sent that waited for it.
#[derive(Drop)]
struct Gone {
    socket: Socket,
    is_finished: bool,
}

/// The sockets of one lane, each with a place in the list of what is ready. They come through the lane's inbox, and the lane's bell ends a wait.
#[derive(Drop)]
pub struct SocketPoller<'a, R> {
    alloc: Global,
    runtime: &'a R,
    lane: &'a LaneInbox,
    poll: Poll,
    events: Events<Global>,
    // Of each socket, at its place: what may be done.
    ready: Slab<SharedReadiness>,
    // The places of those that the last wait told of, and of those of which it told before and that may still have more to give than one read took.
    listed: Vec<usize>,
    lingering: Vec<Lingering>,
    // Into this the bytes go that those that linger still get.
    dropped: Vec<u8>,
    // Whether one of those may be read, and how many waits there may be before they are looked at anyway.
    is_lingering_ready: bool,
    waits: u32,
    // Whether nothing more is taken or read.
    is_closed: bool,
    // The sockets that it was given back.
    parted: Noted<Gone>,
    pub ghost few_linger: { length lingering.items ≤ 1024 },
}

impl<'a, R> SocketPoller<'a, R> {
    /// The poller of the lane whose handle this is, at the inboxes that were opened with it. Nobody has come yet.
    ///
    /// # Errors
    ///
    /// Those of [`SocketPollerError`], in their order.
    pub fn new(
        alloc: Global,
        runtime: &'a R,
        entrance: &'a Inboxes,
        lookout: PollHandle,
    ) -> Result<SocketPoller<'a, R>, SocketPollerError>
        ensures no_lane { (result ≡ Err SocketPollerError.NoLane) ↔ (entrance.now ≤ lookout.lane) }
        ensures lane { IfOk result (λ door. door.lane.now.number ≡ lookout.lane) }
        ensures parted { IfOk result (λ door. door.parted.items ≡ []) }
    {
        let Some(lane) = entrance.lane(lookout.lane) else {
            return Err(SocketPollerError::NoLane);
        };
        let dropped = match room_for_a_piece(alloc) {
            Ok(dropped) => dropped,
            Err(memory) => return Err(SocketPollerError::Memory(memory)),
        };
        Ok(SocketPoller {
            alloc,
            runtime,
            lane,
            poll: lookout.poll,
            events: lookout.events,
            ready: Slab::new(alloc),
            listed: Vec::new(alloc),
            lingering: Vec::new(alloc),
            dropped,
            is_lingering_ready: false,
            waits: MOST_WAITS,
            is_closed: false,
            parted: Noted::new(),
        })
    }

    /// How many of the connections that were dealt to this lane became none since this was last asked, since memory or the system refused it.
    pub fn take_lost(&mut self) -> u64
        ensures { self.new.parted ≡ self.old.parted }
    {
        self.lane.letters.take_lost()
    }

    // The socket of a connection, or `None` where memory or the system refuses it.
    fn socket(&mut self, mut stream: Peer) -> Option<Socket>
        ensures fresh { IfSome result (λ socket. (socket.received.bytes ≡ []) × (socket.sent.bytes ≡ [])) }
        ensures parted { self.new.parted ≡ self.old.parted }
    {
        let readiness = Arc::new(self.alloc, Readiness::new()).ok()?;
        let shared = Arc::try_clone(&readiness).ok()?;
        let place = self.ready.insert(shared).ok()?;
        let registered = self.poll.registry().register(
            &mut stream,
            Token(place),
            Interest::READABLE | Interest::WRITABLE | Interest::PRIORITY,
        );
        let set = stream.set_nodelay();
        if registered.is_err() || set.is_err() {
            self.ready.try_remove(place);
            return None;
        }
        Some(Socket {
            stream,
            place,
            readiness,
            received: Transcript::new(),
            sent: Transcript::new(),
        })
    }

    // Whether the thread sleeps until something is told of: no work is at hand, none that lingers may be read, no letter is to be taken, and nobody rang.
    fn falls_asleep(&self, is_busy: bool) -> bool
        ensures idle { result ≡ true → is_busy ≡ false }
        ensures dropped { result ≡ true → self.now.is_lingering_ready ≡ false }
    {
        !is_busy
            && !self.is_lingering_ready
            && (self.is_closed || self.lane.letters.is_empty())
            && self.lane.bell.may_sleep()
    }

    // Notes what the system told of.
    fn note(&mut self)
        ensures { self.new.parted ≡ self.old.parted }
    {
        let ready = &self.ready;
        self.listed.retain(|place| has_more(ready, *place));
        for event in &self.events {
            let Token(place) = event.token();
            if event.token() == WAKER {
                continue;
            }
            let is_listed = has_more(&self.ready, place);
            if mark(&self.ready, event) {
                self.is_lingering_ready = true;
            } else if !is_listed {
                list(&mut self.listed, place);
            }
        }
    }

    // Reads nothing more, where it is told so, but of those that linger.
    fn heed(&mut self)
        ensures { self.new.parted ≡ self.old.parted }
    {
        if !self.is_closed && self.lane.is_closed() {
            self.is_closed = true;
            deafen(&self.ready);
        }
    }

    // Closes a socket at once.
    fn close(&mut self, socket: Socket)
        ensures { self.new.parted ≡ self.old.parted }
    {
        self.ready.try_remove(socket.place);
    }

    // Whether those that linger are to be looked at: one of them may be read, or it is time to.
    fn has_to_linger(&mut self) -> bool
        ensures { self.new.parted ≡ self.old.parted }
    {
        self.waits = self.waits.saturating_sub(1);
        !self.lingering.is_empty() && (self.is_lingering_ready || self.waits == 0)
    }
}

impl<R: Wait> SocketPoller<'_, R> {
    // The socket of the next letter of which one can be made, and none once nothing more is taken. Those before it are lost.
    fn next(&mut self) -> Option<Socket>
        ensures fresh { IfSome result (λ socket. (socket.received.bytes ≡ []) × (socket.sent.bytes ≡ [])) }
        ensures closed { self.old.is_closed ≡ true → result ≡ None }
        ensures parted { self.new.parted ≡ self.old.parted }
    {
        if self.is_closed {
            return None;
        }
        for _ in 0..MOST_TRIES {
            let stream = self.lane.letters.take(self.runtime)?;
            match self.socket(stream) {
                Some(socket) => return Some(socket),
                None => self.lane.letters.lose(),
            }
        }
        None
    }
}

impl<R: Clock> SocketPoller<'_, R> {
    // Drops what peers of lingering sockets still send, a piece of each, and lets go of those whose time is over. Where there is no clock they all go.
    fn linger(&mut self)
        ensures { self.new.parted ≡ self.old.parted }
    {
        self.waits = MOST_WAITS;
        self.is_lingering_ready = false;
        let now = Instant::now(self.runtime).ok();
        let ready = &mut self.ready;
        let dropped = &mut self.dropped;
        let is_ready = &mut self.is_lingering_ready;
        self.lingering.retain_mut(|lingering| {
            let goes_on = match now {
                Some(now) => lingering.goes_on(now, dropped),
                None => false,
            };
            if goes_on {
                *is_ready |= lingering.socket.readiness.is_readable();
            } else {
                ready.try_remove(lingering.socket.place);
            }
            goes_on
        });
    }

    // Lets a socket linger, where that can be.
    fn keep(&mut self, socket: Socket)
        ensures { self.new.parted ≡ self.old.parted }
    {
        let place = socket.place;
        socket.readiness.set_lingering();
        let is_kept = match Instant::now(self.runtime) {
            Ok(now) if self.lingering.len() < MOST_LINGERING => {
                self.lingering.push(Lingering::new(socket, now)).is_ok()
            }
            _ => false,
        };
        self.is_lingering_ready |= is_kept;
        if !is_kept {
            self.ready.try_remove(place);
        }
    }
}

// Room for the bytes of one read.
fn room_for_a_piece(alloc: Global) -> Result<Vec<u8>, Memory> {
    Ok(vec![in alloc; 0; PIECE]?)
}

// Whether the socket at this place may still be read, of whose end or of whose urgent byte was told.
fn has_more(ready: &Slab<SharedReadiness>, place: usize) -> bool {
    match ready.get(place) {
        Some(readiness) => {
            readiness.may_have_more() && readiness.is_readable() && !readiness.is_lingering()
        }
        None => false,
    }
}

// Notes that a socket was given back, and whether all was sent that waited for it.
fn note_parting(parted: &mut Noted<Gone>, socket: Socket, is_finished: bool) -> Socket
    ensures parted { parted.new.items ≡ parted.old.items ++ record { socket = socket; is_finished = is_finished } ∷ [] }
    ensures socket { result ≡ socket }
{
    let gone = Gone {
        socket,
        is_finished,
    };
    parted.note(&gone);
    gone.socket
}

// Nothing more is read of any, but of those that linger.
fn deafen(ready: &Slab<SharedReadiness>) {
    for (_, readiness) in ready {
        readiness.set_deaf();
    }
}

// Lists a place. Where there is no room for it, it is found later.
fn list(listed: &mut Vec<usize>, place: usize) {
    let _ = listed.push(place);
}

// A socket may be read, or written, again. Whether it is one that lingers.
fn mark(ready: &Slab<SharedReadiness>, event: &Event) -> bool {
    let Token(place) = event.token();
    let Some(readiness) = ready.get(place) else {
        return false;
    };
    if event.is_read_closed() || event.is_error() {
        readiness.set_ending();
    }
    if event.is_priority() {
        readiness.set_urgent();
    }
    if event.is_readable() || event.is_read_closed() || event.is_error() {
        readiness.set_readable(true);
    }
    if event.is_writable() || event.is_write_closed() || event.is_error() {
        readiness.set_writable(true);
    }
    readiness.is_lingering()
}

impl<R: Clock + Wait> Poller<Socket> for SocketPoller<'_, R> {
    ghost use Rattle.std.specs.Prelude.{Some, map, if◌then◌else◌};
    ghost use Rattle.nr_service.specs.Pollers.{Finished, Abandoned};

    ghost parted = { λ door. Some (map (λ gone. if gone.is_finished then Finished gone.socket else Abandoned gone.socket) door.parted.items) };

    // Want of memory ends a connection, and never the server.
    fn accept(&mut self) -> Result<Option<Socket>, Memory>
        ensures goes_on { IsOk result }
        ensures parted { ⟦<Self as Poller<Socket>>⟧.parted self.new ≡ ⟦<Self as Poller<Socket>>⟧.parted self.old }
        ensures received { IfOk result (λ accepted. IfSome accepted (λ socket. IfSome (⟦<Socket as Stream>⟧.received socket) (λ bytes. bytes ≡ []))) }
        ensures sent { IfOk result (λ accepted. IfSome accepted (λ socket. IfSome (⟦<Socket as Stream>⟧.sent socket) (λ bytes. bytes ≡ []))) }
        ensures course { IfOk result (λ accepted. IfSome accepted (λ socket. IfSome (⟦<Socket as Stream>⟧.course socket) (λ course. course ≡ fresh_course))) }
    {
        Ok(self.next())
    }

    fn wait(&mut self, is_busy: bool) -> bool {
        let is_asleep = self.falls_asleep(is_busy);
        let longest = Duration::from_millis(longest_wait(!is_asleep));
        let waited = self.poll.poll(&mut self.events, Some(longest));
        self.lane.bell.wakes();
        self.heed();
        self.note();
        if self.has_to_linger() {
            self.linger();
        }
        waited.is_ok()
    }

    fn ready(&self, place: usize) -> Ready {
        match self.listed.get(place) {
            Some(socket) => Ready::One(*socket),
            None => Ready::NoMore,
        }
    }

    fn finish(&mut self, socket: Socket) {
        let socket = note_parting(&mut self.parted, socket, true);
        if socket.stream.end().is_ok() {
            self.keep(socket);
        } else {
            self.close(socket);
        }
    }

    fn abandon(&mut self, socket: Socket) {
        let socket = note_parting(&mut self.parted, socket, false);
        self.close(socket);
    }
}
