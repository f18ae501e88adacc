// A connection in memory: a client that sends its requests, and then no more.
use nr_service::{Received, Sent, Stream};
use std::alloc::Global;
use std::sync::Arc;
use std::sync::atomic::{AtomicUsize, Ordering};

/// How many lines gave all that they send.
pub(crate) type Given = Arc<AtomicUsize, Global>;

/// A client's two streams of bytes, and what became of them.
#[derive(Drop)]
pub(crate) struct Line {
    /// It comes once so many went.
    pub from: usize,
    /// It stays once all was sent, and never ends.
    pub stays: bool,
    /// It stays until it got all that it wants.
    pub waits: bool,
    /// How many bytes a call gives or takes at most.
    pub piece: usize,
    /// It takes none of its replies.
    pub is_deaf: bool,
    /// So many reads, and so many writes, are made before one fails.
    pub reads: usize,
    pub writes: usize,
    /// It failed, or is one that isn't to be served to the end.
    pub is_lost: bool,
    pub is_finished: bool,
    /// In this it is counted once it gave all that it sends.
    pub all_given: Option<Given>,
    input: Vec<u8>,
    given: usize,
    wanted: Vec<u8>,
    output: Vec<u8>,
}

impl Line {
    /// One that comes at once, sends this, wants that, and never fails.
    pub(crate) fn new(alloc: Global, input: Vec<u8>, wanted: Vec<u8>) -> Line {
        Line {
            from: 0,
            stays: false,
            waits: false,
            piece: usize::MAX,
            is_deaf: false,
            reads: usize::MAX,
            writes: usize::MAX,
            is_lost: false,
            is_finished: false,
            all_given: None,
            input,
            given: 0,
            wanted,
            output: Vec::new(alloc),
        }
    }

    /// What it got.
    pub(crate) fn output(&self) -> &[u8] {
        &self.output
    }

    /// Whether it got all replies, and no more.
    pub(crate) fn is_answered(&self) -> bool {
        self.output.as_slice() == self.wanted.as_slice()
    }

    /// Whether it got a beginning of them, all where it isn't lost; and where it is, it was let go of at once.
    pub(crate) fn is_served(&self) -> bool {
        self.wanted.starts_with(&self.output)
            & (self.is_lost | self.is_answered())
            & (self.is_finished != self.is_lost)
    }
}

// One call less is left. Whether there was one.
fn passes(calls: &mut usize) -> bool {
    let is_left = *calls > 0;
    *calls = calls.saturating_sub(1);
    is_left
}

impl Stream for Line {
    ghost use Rattle.std.specs.Prelude.{None};

    ghost received = { λ _. None };

    ghost sent = { λ _. None };

    fn receive(&mut self, buffer: &mut [u8]) -> Received {
        if !passes(&mut self.reads) {
            self.is_lost = true;
            return Received::Failed;
        }
        let stays = self.stays || (self.waits && !self.is_answered());
        let left = self.input.get(self.given..).unwrap_or(b"");
        let count = left.len().min(buffer.len()).min(self.piece);
        if left.is_empty() && !stays {
            return Received::End;
        }
        if count == 0 {
            return Received::Nothing;
        }
        buffer[..count].copy_from_slice(&left[..count]);
        self.given = self.given.saturating_add(count);
        if let Some(all_given) = &self.all_given
            && self.given >= self.input.len()
        {
            all_given.fetch_add(1, Ordering::SeqCst);
        }
        Received::Bytes(count)
    }

    fn send(&mut self, bytes: &[u8]) -> Sent {
        if !passes(&mut self.writes) {
            self.is_lost = true;
            return Sent::Failed;
        }
        let most = if self.is_deaf { 0 } else { self.piece };
        let count = bytes.len().min(most);
        match self.output.extend_from_slice(&bytes[..count]) {
            Ok(()) if count > 0 => Sent::Bytes(count),
            _ => Sent::Nothing,
        }
    }
}
