// The thread that takes connections, as it tells an operator what there is to know.
ghost use Rattle.std.specs.Prelude.{◌≡◌, ◌↔◌, IsTrue, IfSome, slice_get};
ghost use Rattle.nr_server.specs.Attempts.{HasNoted, IsDue};

use crate::attempts::Attempts;
use crate::fault::Fault;
use crate::notice::{Notice, Repeated, notice_of_end};
use jiff::Timestamp;
use nr_service::{Accepts, Ends, Moments, Revival};
use nr_sockets::Listener;
use std::io::{self, Write};
use std::rt::Clock;
use std::sync::Wait;

/// How many nodes a server has at most.
const MOST_NODES: usize = 8;

/// What is told as the server begins to serve: by how many threads, how many processors there are, how many descriptors may be open, and how many it would take
/// where each node had all its connections.
#[derive(Clone, Copy, Debug)]
pub(crate) struct Begins {
    pub(crate) threads: usize,
    pub(crate) processors: Option<usize>,
    pub(crate) descriptors: Option<u64>,
    pub(crate) wanted: u64,
}

/// What takes connections, and knows where it listens, and what an operator is to hear of.
pub(crate) trait Receives: Accepts {
    /// Where it listens, a text for each address.
    fn named(&self) -> &[String];

    /// How many connections were turned away.
    fn turned_away(&self) -> u64;

    /// How many times the system was short of descriptors or of memory for one.
    fn short(&self) -> u64;
}

impl<R: Clock + Wait> Receives for Listener<'_, R> {
    fn named(&self) -> &[String]
        ensures { result.now ≡ self.now.listening.named.items }
    {
        &self.listening.named
    }

    fn turned_away(&self) -> u64
        ensures { result ≡ self.now.turned_away }
    {
        self.turned_away
    }

    fn short(&self) -> u64
        ensures { result ≡ self.now.short }
    {
        self.short
    }
}

/// Takes connections, and tells an operator of what there is to know: on one writer where it listens, once that is so, and on another all else. Where that one takes
/// nothing the server serves on.
#[derive(Drop)]
pub(crate) struct Reception<L, M, O, E> {
    pub(crate) listener: L,
    /// It couldn't be told where it listens.
    pub(crate) is_mute: bool,
    clock: M,
    out: O,
    errors: E,
    begins: Begins,
    // The last moment that the clock gave, in milliseconds.
    moment: u64,
    turned_away: Repeated,
    short: Repeated,
    ends: Ends,
    // Whether nodes that are down are brought back, when that is tried of each, and how often one of these tries found no memory.
    revives: bool,
    attempts: [Attempts; MOST_NODES],
    no_copies: u64,
    no_copy: Repeated,
}

// Tells by how many threads it serves, and where there are fewer processors, or fewer descriptors than it may want, also that.
fn tell_beginning<E: Write>(errors: &mut E, begins: Begins) -> io::Result<()> {
    writeln!(errors, "noderedis: {} threads serve", begins.threads)?;
    if let Some(processors) = begins.processors
        && begins.threads > processors
    {
        writeln!(errors, "  more than the {processors} processors")?;
    }
    if let Some(descriptors) = begins.descriptors
        && begins.wanted > descriptors
    {
        let wanted = begins.wanted;
        writeln!(
            errors,
            "  {descriptors} descriptors may be open, and all connections want {wanted}"
        )?;
    }
    errors.flush()
}

// Tells where it listens, in a line for each address.
fn tell_addresses<O: Write>(out: &mut O, named: &[String]) -> io::Result<()> {
    for address in named {
        writeln!(out, "noderedis: listening on {address}")?;
    }
    out.flush()
}

// Tells this, with the time at this moment in milliseconds.
fn tell<E: Write>(errors: &mut E, moment: u64, notice: Notice) -> io::Result<()> {
    match Timestamp::from_second((moment / 1_000) as i64) {
        Ok(time) => writeln!(errors, "noderedis: {time} {notice}")?,
        Err(_) => writeln!(errors, "noderedis: {notice}")?,
    }
    errors.flush()
}

impl<L: Receives, M: Moments, O, E: Write> Reception<L, M, O, E> {
    /// Nothing was told yet.
    pub(crate) fn new(
        listener: L,
        clock: M,
        out: O,
        errors: E,
        begins: Begins,
        revives: bool,
    ) -> Self
        ensures { result.listener ≡ listener }
    {
        Reception {
            listener,
            is_mute: false,
            clock,
            out,
            errors,
            begins,
            moment: 0,
            turned_away: Repeated::new(),
            short: Repeated::new(),
            ends: Ends::Not,
            revives,
            attempts: [Attempts::new(); MOST_NODES],
            no_copies: 0,
            no_copy: Repeated::new(),
        }
    }

    // Reads the clock; where that fails the last moment stays.
    fn read_clock(&mut self)
        ensures listener { self.new.listener ≡ self.old.listener }
        ensures revives { self.new.revives ≡ self.old.revives }
        ensures attempts { self.new.attempts ≡ self.old.attempts }
    {
        self.moment = self.clock.now().unwrap_or(self.moment);
    }

    // Tells this, where it can be told.
    fn tell(&mut self, notice: Notice)
        ensures listener { self.new.listener ≡ self.old.listener }
        ensures attempts { self.new.attempts ≡ self.old.attempts }
    {
        self.read_clock();
        let _ = tell(&mut self.errors, self.moment, notice);
    }

    // Tells of connections that were turned away, where it is time to.
    fn tell_of_turned_away(&mut self)
        ensures { self.new.listener ≡ self.old.listener }
    {
        let count = self.listener.turned_away();
        if let Some(count) = self.turned_away.take(count, self.moment) {
            self.tell(Notice::TurnedAway(count));
        }
    }

    // Tells that the system was short of something, where it is time to.
    fn tell_of_shortage(&mut self)
        ensures { self.new.listener ≡ self.old.listener }
    {
        let count = self.listener.short();
        if let Some(count) = self.short.take(count, self.moment) {
            self.tell(Notice::Short(count));
        }
    }

    // Tells what came often, where something did that wasn't told.
    fn tell_what_came(&mut self)
        ensures { self.new.listener ≡ self.old.listener }
    {
        if self.listener.turned_away() == 0 && self.listener.short() == 0 {
            return;
        }
        self.read_clock();
        self.tell_of_turned_away();
        self.tell_of_shortage();
    }

    // A try to bring a node back is over.
    fn note_attempt(&mut self, node: usize)
        ensures listener { self.new.listener ≡ self.old.listener }
        ensures noted { HasNoted node self.new.moment self.old.attempts self.new.attempts }
    {
        self.read_clock();
        if node < MOST_NODES {
            self.attempts[node].note(self.moment);
        }
    }

    // Tells that a try to bring a node back found no memory, where it is time to.
    fn tell_of_no_copy(&mut self, node: usize)
        ensures listener { self.new.listener ≡ self.old.listener }
        ensures attempts { self.new.attempts ≡ self.old.attempts }
    {
        self.no_copies = self.no_copies.saturating_add(1);
        if let Some(tries) = self.no_copy.take(self.no_copies, self.moment) {
            self.tell(Notice::NoCopy { node, tries });
        }
    }

    // Tells what became of a try to bring a node back that is over now, and began at a moment.
    fn tell_of_revival(&mut self, node: usize, began: u64, revival: Revival)
        ensures listener { self.new.listener ≡ self.old.listener }
        ensures attempts { self.new.attempts ≡ self.old.attempts }
    {
        match revival {
            Revival::Back(keys) => self.tell(Notice::Back {
                node,
                keys,
                milliseconds: self.moment.saturating_sub(began),
            }),
            Revival::Memory(_) => self.tell_of_no_copy(node),
            Revival::NotYet => {}
        }
    }

    /// Whether it was told to end, and did so in time.
    pub(crate) fn has_ended_in_order(&self) -> bool {
        self.ends == Ends::InOrder
    }

    /// Tells how it ended, where it was told to end and didn't fail: in order, or because the time for that was over.
    pub(crate) fn tell_end(&mut self, ended: &Result<(), Fault>) {
        if let Some(notice) = notice_of_end(self.ends, ended) {
            self.tell(notice);
        }
    }
}

impl<L: Receives, M: Moments, O: Write, E: Write> Accepts for Reception<L, M, O, E> {
    // What became of those that the listener took became of them.
    ghost dealt = { λ reception. L.dealt reception.listener };

    fn begin(&mut self) -> bool {
        self.is_mute = tell_addresses(&mut self.out, self.listener.named()).is_err();
        let _ = tell_beginning(&mut self.errors, self.begins);
        !self.is_mute
    }

    fn accept(&mut self) -> bool {
        self.listener.accept()
    }

    fn deal(&mut self, lane: usize) {
        self.listener.deal(lane);
    }

    fn turn_away(&mut self) {
        self.listener.turn_away();
    }

    fn wait(&mut self) -> bool {
        let goes_on = self.listener.wait();
        self.tell_what_came();
        goes_on
    }

    fn ending(&mut self) -> Ends {
        self.ends = self.listener.ending();
        self.ends
    }

    fn hear_of_fall(&mut self, node: usize, connections: usize) {
        self.tell(Notice::Down { node, connections });
    }

    fn is_time_to_revive(&mut self, node: usize) -> bool
        ensures listener { self.new.listener ≡ self.old.listener }
        ensures attempts { self.new.attempts ≡ self.old.attempts }
        ensures due { IfSome (slice_get self.old.attempts node) (λ attempts. IsTrue result ↔ (IsTrue self.old.revives × IsDue attempts self.new.moment)) }
    {
        self.read_clock();
        match self.attempts.get(node) {
            Some(attempts) => self.revives && attempts.is_due(self.moment),
            None => false,
        }
    }

    // Whatever came of it, the next try waits.
    fn hear_of_revival(&mut self, node: usize, revival: Revival)
        ensures listener { self.new.listener ≡ self.old.listener }
        ensures noted { HasNoted node self.new.moment self.old.attempts self.new.attempts }
    {
        let began = self.moment;
        self.read_clock();
        self.tell_of_revival(node, began, revival);
        self.note_attempt(node);
    }
}
