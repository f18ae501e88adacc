// The thread that takes connections and deals them out.
ghost use Rattle.std.specs.Prelude.{◌≡◌, ◌≢◌, ◌+◌, ◌∷◌, [], None, min};
ghost use Rattle.nr_service.specs.Dealt.{Deals};

use crate::farewells::Farewells;
use crate::inboxes::Inboxes;
use crate::input::{Course, Input};
use crate::keepalive::{Keepalive, keepalive_of};
use crate::listening::Listening;
use crate::peer::Peer;
use nr_service::{Accepts, Ends};
use nr_transcript::Noted;
use std::alloc::Global;
use std::os::fd::RawFd;
use std::rt::Clock;
use std::sync::Wait;
use std::time::Instant;

/// On which terms connections are taken.
#[derive(Clone, Copy, Debug, PartialEq, Eq)]
pub struct Terms {
    /// Behind how many seconds without a word the system asks whether the peer of a TCP connection is there: 0 for never, and at most 32,767.
    pub tcp_keepalive: u32,
    /// The input whose end ends the server, where there is one: 0 is standard input.
    pub input: Option<RawFd>,
    /// How many seconds behind that end the server may take to end in order.
    pub shutdown_seconds: u32,
}

/// Takes connections where sockets listen, and deals them out to the inboxes of lanes.
#[derive(Drop)]
pub struct Listener<'a, R> {
    pub listening: Listening,
    /// How many connections were turned away, since there was no room for them.
    pub turned_away: u64,
    /// How many times the system was short of descriptors or of memory when a connection was to be taken. It waits on then.
    pub short: u64,
    runtime: &'a R,
    entrance: &'a Inboxes,
    keepalive: Option<Keepalive>,
    shutdown_seconds: u32,
    // The connection that was taken, until it is dealt or turned away.
    held: Option<Peer>,
    // To which lane each was dealt, or none where it was turned away.
    dealt: Noted<Option<usize>>,
    farewells: Farewells,
    input: Option<Input>,
    course: Course,
    // Whether one was taken at the last try, so that the next may wait behind it.
    may_follow: bool,
}

impl<'a, R: Clock> Listener<'a, R> {
    /// Deals out what comes to sockets that listen, on these terms.
    pub fn new(
        alloc: Global,
        listening: Listening,
        runtime: &'a R,
        entrance: &'a Inboxes,
        terms: Terms,
    ) -> Listener<'a, R>
        ensures listening { result.listening ≡ listening }
        ensures turned_away { result.turned_away ≡ 0 }
        ensures short { result.short ≡ 0 }
        ensures dealt { result.dealt.items ≡ [] }
    {
        let input = match terms.input {
            Some(descriptor) => Input::watch(listening.registry(), descriptor),
            None => None,
        };
        let mut listener = Listener {
            listening,
            turned_away: 0,
            short: 0,
            runtime,
            entrance,
            keepalive: keepalive_of(terms.tcp_keepalive),
            shutdown_seconds: terms.shutdown_seconds,
            held: None,
            dealt: Noted::new(),
            farewells: Farewells::new(alloc),
            input,
            course: Course::Open,
            may_follow: false,
        };
        if terms.input.is_some() && listener.input.is_none() {
            listener.end();
        }
        listener
    }

    // The input has ended: nothing more is taken or read.
    fn end(&mut self)
        ensures listening { self.new.listening ≡ self.old.listening }
        ensures turned_away { self.new.turned_away ≡ self.old.turned_away }
        ensures short { self.new.short ≡ self.old.short }
        ensures dealt { self.new.dealt ≡ self.old.dealt }
    {
        self.input = None;
        self.course = Course::Ended(Instant::now(self.runtime).ok());
        self.entrance.stop_reading();
    }

    // Takes the next connection that waits, and none once the input has ended.
    fn next(&mut self) -> Option<Peer>
        ensures over { self.old.course ≢ Course.Open → result ≡ None }
        ensures dealt { self.new.dealt ≡ self.old.dealt }
    {
        if !self.course.is_open() {
            return None;
        }
        self.listening.next(&mut self.short)
    }

    // Reads the input, of which the system told.
    fn read_input(&mut self)
        ensures { self.new.dealt ≡ self.old.dealt }
    {
        let goes_on = match &self.input {
            Some(input) => input.goes_on(self.listening.registry()),
            None => true,
        };
        if !goes_on {
            self.end();
        }
    }
}

impl<R: Clock + Wait> Accepts for Listener<'_, R> {
    ghost use Rattle.std.specs.Prelude.{Some};

    ghost dealt = { λ listener. Some listener.dealt.items };

    fn accept(&mut self) -> bool {
        self.held = self.next();
        self.may_follow = self.held.is_some();
        self.may_follow
    }

    fn deal(&mut self, lane: usize) {
        let held = self.held.take();
        if let (Some(Peer::Tcp(stream)), Some(keepalive)) = (&held, self.keepalive) {
            keepalive.set_on(stream);
        }
        self.entrance
            .hand_in(self.runtime, lane, held, &mut self.dealt);
    }

    fn turn_away(&mut self)
        ensures dealt { Deals (None ∷ []) (⟦<Self as Accepts>⟧.dealt self.old) (⟦<Self as Accepts>⟧.dealt self.new) }
        ensures counted { self.new.turned_away ≡ min (self.old.turned_away + 1) u64.MAX }
    {
        self.turned_away = self.turned_away.saturating_add(1);
        self.dealt.note(&None);
        if let Some(peer) = self.held.take() {
            self.farewells.bid(self.runtime, peer);
        }
    }

    fn wait(&mut self) -> bool {
        let waited = self.listening.wait(self.may_follow);
        if waited.is_told {
            self.read_input();
        }
        self.farewells.look(self.runtime);
        waited.may_come
    }

    fn ending(&mut self) -> Ends {
        self.course.ending(self.runtime, self.shutdown_seconds)
    }
}
