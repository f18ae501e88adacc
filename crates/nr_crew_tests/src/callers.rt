// Clients in memory that call again where their connection ends.
use nr_service::{Received, Sent, Stream};
use std::alloc::Global;
use std::process::Abort;
use std::sync::Arc;
use std::sync::atomic::{AtomicBool, AtomicUsize, Ordering};

/// How many requests of a connection aren't answered at most.
const MOST_UNANSWERED: usize = 3;

/// How often clients were answered, and whether that is enough.
#[derive(Drop)]
pub(crate) struct Progress {
    answers: AtomicUsize,
    is_enough: AtomicBool,
}

/// All clients share it.
pub(crate) type Shared = Arc<Progress, Global>;

impl Progress {
    pub(crate) fn new<R: Abort>(rt: &R, alloc: Global) -> Shared {
        let progress = Progress {
            answers: AtomicUsize::new(0),
            is_enough: AtomicBool::new(false),
        };
        Arc::new(alloc, progress).ok().expect(rt, "memory")
    }

    /// How often one was answered.
    pub(crate) fn answers(&self) -> usize {
        self.answers.load(Ordering::SeqCst)
    }

    /// From now on nobody counts, and nobody is subscribed.
    pub(crate) fn suffices(&self) {
        self.is_enough.store(true, Ordering::SeqCst);
    }

    fn is_enough(&self) -> bool {
        self.is_enough.load(Ordering::SeqCst)
    }
}

/// What is asked once.
#[derive(Clone, Copy, Debug, PartialEq, Eq)]
pub(crate) enum Question {
    /// It sets a value that makes a copy take its time.
    Sets,
    /// How far was counted.
    Reads,
    /// How many are subscribed.
    Publishes,
}

impl Question {
    fn request(self) -> &'static [u8] {
        match self {
            Question::Sets => b"SETRANGE v 65535 x\r\n",
            Question::Reads => b"INCRBY n 0\r\n",
            Question::Publishes => b"PUBLISH news m\r\n",
        }
    }
}

/// What a client asks.
#[derive(Clone, Copy, Debug, PartialEq, Eq)]
pub(crate) enum Asked {
    /// It counts up until it is enough.
    Counts,
    /// It is subscribed until it is enough.
    Listens,
    /// It asks this, until it was answered once.
    Once(Question),
}

/// A client, over one connection after the other.
#[derive(Drop)]
pub(crate) struct Caller {
    pub asked: Asked,
    /// The numbers that it was answered.
    pub numbers: Vec<u64>,
    /// How many requests it gave.
    pub given: usize,
    /// It got something else than numbers, or one more than it asked for.
    pub is_wrong: bool,
    /// Where its connection was dealt to last.
    pub lane: usize,
    progress: Shared,
    // Of this connection, how many requests were given, and how many of them answered.
    given_here: usize,
    answered_here: usize,
    // As far as it came of the next number.
    number: u64,
}

impl Caller {
    pub(crate) fn new<R: Abort>(rt: &R, alloc: Global, asked: Asked, progress: &Shared) -> Caller {
        Caller {
            asked,
            numbers: Vec::new(alloc),
            given: 0,
            is_wrong: false,
            lane: 0,
            progress: Arc::try_clone(progress).ok().expect(rt, "memory"),
            given_here: 0,
            answered_here: 0,
            number: 0,
        }
    }

    /// Its connection ended.
    pub(crate) fn hangs_up(&mut self) {
        self.given_here = 0;
        self.answered_here = 0;
        self.number = 0;
    }

    /// Whether it asks nothing more.
    pub(crate) fn is_done(&self) -> bool {
        match self.asked {
            Asked::Counts => self.progress.is_enough() && self.unanswered() == 0,
            Asked::Listens => self.progress.is_enough(),
            Asked::Once(_) => !self.numbers.is_empty(),
        }
    }

    fn unanswered(&self) -> usize {
        self.given_here.saturating_sub(self.answered_here)
    }

    // Whether it counts one further now.
    fn counts_on(&self) -> bool {
        !self.progress.is_enough() && self.unanswered() < MOST_UNANSWERED
    }

    // What it asks now, if anything.
    fn next(&self) -> Option<&'static [u8]> {
        match self.asked {
            Asked::Counts if self.counts_on() => Some(b"INCR n\r\n"),
            Asked::Listens if self.given_here == 0 => Some(b"SUBSCRIBE news\r\n"),
            Asked::Once(question) if self.given_here == 0 => Some(question.request()),
            _ => None,
        }
    }

    // One number more came.
    fn takes_number(&mut self) {
        self.is_wrong |= self.unanswered() == 0;
        self.answered_here = self.answered_here.saturating_add(1);
        self.is_wrong |= self.numbers.push(self.number).is_err();
        self.progress.answers.fetch_add(1, Ordering::SeqCst);
        self.number = 0;
    }

    // One byte more of a number came.
    fn takes(&mut self, byte: u8) {
        if byte.is_ascii_digit() {
            let digit = u64::from(byte - b'0');
            self.number = self.number.saturating_mul(10).saturating_add(digit);
        } else if byte == b'\r' {
            self.takes_number();
        } else {
            self.is_wrong |= byte != b':' && byte != b'\n';
        }
    }

    fn takes_each(&mut self, bytes: &[u8]) {
        for byte in bytes {
            self.takes(*byte);
        }
    }
}

impl Stream for Caller {
    ghost use Rattle.std.specs.Prelude.{None};

    ghost received = { λ _. None };

    ghost sent = { λ _. None };

    fn receive(&mut self, buffer: &mut [u8]) -> Received {
        if self.is_done() {
            return Received::End;
        }
        let Some(request) = self.next() else {
            return Received::Nothing;
        };
        let count = request.len();
        if count == 0 || count > buffer.len() {
            return Received::Nothing;
        }
        buffer[..count].copy_from_slice(request);
        self.given_here = self.given_here.saturating_add(1);
        self.given = self.given.saturating_add(1);
        Received::Bytes(count)
    }

    fn send(&mut self, bytes: &[u8]) -> Sent {
        if bytes.is_empty() {
            return Sent::Nothing;
        }
        if self.asked != Asked::Listens {
            self.takes_each(bytes);
        }
        Sent::Bytes(bytes.len())
    }
}
