// The inboxes of a server that is served in lanes, each by a thread, with the bells of all.
ghost use Rattle.std.specs.Prelude.{ℕ, ◌≡◌, ◌≤◌, ◌↔◌, [], ◌∷◌, ◌++◌, IfOk, IfSome, None, Some, length, slice_get};

use crate::inbox::Inbox;
use crate::peer::Peer;
use crate::thread_waker::ThreadWaker;
use mio::{Events, Poll, Token, Waker};
use nr_service::Rings;
use nr_transcript::Noted;
use std::alloc::Global;
use std::io;
use std::marker::Model;
use std::net::Net;
use std::sync::Wait;
use std::sync::atomic::{AtomicBool, Ordering};

/// The token of a lane's waker. Those of sockets are their places.
pub(crate) const WAKER: Token = Token(usize::MAX);

/// Of how many changes the system tells a lane at once.
const MOST_EVENTS: usize = 1_024;

/// What others reach a lane by.
#[derive(Drop)]
pub(crate) struct LaneInbox {
    // Its place among the lanes.
    number: usize,
    pub(crate) bell: ThreadWaker,
    pub(crate) letters: Inbox,
    // Whether it takes and reads nothing more.
    is_closed: AtomicBool,
}

impl LaneInbox {
    /// Whether it takes and reads nothing more.
    pub(crate) fn is_closed(&self) -> bool {
        self.is_closed.load(Ordering::SeqCst)
    }

    fn close(&self) {
        self.is_closed.store(true, Ordering::SeqCst);
        self.bell.ring();
    }

    // Puts a connection, where there is one, into its inbox, rings, and notes that it was dealt to this lane.
    fn take_in<R: Wait>(&self, runtime: &R, held: Option<Peer>, dealt: &mut Noted<Option<usize>>)
        ensures { dealt.new.items ≡ dealt.old.items ++ Some self.now.number ∷ [] }
    {
        dealt.note(&Some(self.number));
        let Some(peer) = held else {
            return;
        };
        if self.letters.put(runtime, peer) {
            self.bell.ring();
        }
    }
}

/// The inboxes and the bells of all lanes, which are numbered from 0 on. All threads share it. Contracts see how many they are.
#[derive(Drop)]
pub struct Inboxes {
    lanes: Vec<LaneInbox>,
}

/// What the thread of a lane waits at. A poller is made from it.
#[derive(Drop)]
pub struct PollHandle {
    pub lane: usize,
    pub(crate) poll: Poll,
    pub(crate) events: Events<Global>,
}

impl Model for Inboxes {
    ghost use Rattle.std.specs.Prelude.{◌≡◌, ℕ, Some, length, slice_get};
    ghost use Rattle.std.specs.Coded.{coded_ℕ};

    ghost Value = { ℕ };

    ghost coded = { coded_ℕ };

    ghost view = { λ e. length e.lanes.items };

    // Each lane has the number of its place.
    ghost invariant = { λ e. (number : ℕ) (lane : _) → slice_get e.lanes.items number ≡ Some lane → lane.number ≡ number };
}

impl Inboxes {
    pub(crate) fn lane(&self, lane: usize) -> Option<&LaneInbox>
        ensures none { (result ≡ None) ↔ (self.now ≤ lane) }
        ensures number { IfSome result (λ found. found.now.number ≡ lane) }
    {
        self.lanes.get(lane)
    }

    /// Puts the connection that is held, where one is, into the inbox of a lane, rings there, and notes that it was dealt to that lane. It is closed
    /// where memory is refused, or there is no such lane.
    pub(crate) fn hand_in<R: Wait>(
        &self,
        runtime: &R,
        lane: usize,
        held: Option<Peer>,
        dealt: &mut Noted<Option<usize>>,
    )
        ensures { dealt.new.items ≡ dealt.old.items ++ Some lane ∷ [] }
    {
        match self.lane(lane) {
            Some(found) => found.take_in(runtime, held, dealt),
            None => dealt.note(&Some(lane)),
        }
    }

    /// From now on no lane takes a connection that waits in its inbox, or reads from one of its own: each of these answers that there is nothing.
    /// What sockets that linger still get is dropped as before.
    pub fn stop_reading(&self) {
        for lane in &self.lanes {
            lane.close();
        }
    }

    /// How many of the connections that were dealt to a lane became none there since this was last asked, since memory or the system refused it.
    pub fn take_lost(&self, lane: usize) -> u64 {
        match self.lanes.get(lane) {
            Some(lane) => lane.letters.take_lost(),
            None => 0,
        }
    }
}

impl Rings for Inboxes {
    fn ring(&self, lane: usize) {
        if let Some(lane) = self.lanes.get(lane) {
            lane.bell.ring();
        }
    }
}

// What others reach the lane of a number by, and what its thread waits at.
fn open_lane<N: Net>(alloc: Global, net: &N, lane: usize) -> io::Result<(LaneInbox, PollHandle)>
    ensures number { IfOk result (λ opened. opened.0.number ≡ lane) }
    ensures lookout { IfOk result (λ opened. opened.1.lane ≡ lane) }
{
    let poll = Poll::new(net)?;
    let waker = Waker::new(poll.registry(), WAKER)?;
    let events = Events::with_capacity(alloc, MOST_EVENTS)?;
    Ok((
        LaneInbox {
            number: lane,
            bell: ThreadWaker::new(waker),
            letters: Inbox::new(alloc),
            is_closed: AtomicBool::new(false),
        },
        PollHandle { lane, poll, events },
    ))
}

/// The inboxes of so many lanes, and what the thread of each waits at, in order.
///
/// # Errors
///
/// Those of the system where it refuses one, as for want of descriptors, of which each lane takes two, or of memory.
pub fn open_lanes<N: Net>(
    alloc: Global,
    net: &N,
    count: usize,
) -> io::Result<(Inboxes, Vec<PollHandle>)>
    ensures lanes { IfOk result (λ opened. opened.0 ≡ count) }
    ensures count { IfOk result (λ opened. length opened.1.items ≡ count) }
    ensures numbers { IfOk result (λ opened. (lane : ℕ) (lookout : _) → slice_get opened.1.items lane ≡ Some lookout → lookout.lane ≡ lane) }
{
    let mut lanes = Vec::new(alloc);
    let mut lookouts = Vec::new(alloc);
    for number in 0..count {
        let (lane, lookout) = open_lane(alloc, net, number)?;
        lanes.push(lane)?;
        lookouts.push(lookout)?;
    }
    Ok((Inboxes { lanes }, lookouts))
}
