// An inbox: connections go through it from the thread that took them to the one that serves them.
use crate::peer::Peer;
use std::alloc::Global;
use std::collections::VecDeque;
use std::sync::atomic::{AtomicU64, AtomicUsize, Ordering};
use std::sync::{Mutex, Wait};

/// The inbox of one lane.
#[derive(Drop)]
pub(crate) struct Inbox {
    // How many letters there are, as whoever had the lock last left it.
    count: AtomicUsize,
    // How many became no connection since that was last asked.
    lost: AtomicU64,
    letters: Mutex<VecDeque<Peer>>,
}

impl Inbox {
    pub(crate) fn new(alloc: Global) -> Inbox {
        Inbox {
            count: AtomicUsize::new(0),
            lost: AtomicU64::new(0),
            letters: Mutex::new(VecDeque::new(alloc)),
        }
    }

    /// Whether nothing is in it. It takes no lock.
    pub(crate) fn is_empty(&self) -> bool {
        self.count.load(Ordering::SeqCst) == 0
    }

    /// Puts a connection in. False where memory is refused: then it is closed, and counted as lost.
    pub(crate) fn put<R: Wait>(&self, runtime: &R, peer: Peer) -> bool {
        let mut letters = self.letters.lock(runtime);
        let is_put = letters.push_back(peer).is_ok();
        if is_put {
            self.count.store(letters.len(), Ordering::SeqCst);
        } else {
            self.lose();
        }
        is_put
    }

    /// Takes out the one that was put in first.
    pub(crate) fn take<R: Wait>(&self, runtime: &R) -> Option<Peer> {
        if self.is_empty() {
            return None;
        }
        let mut letters = self.letters.lock(runtime);
        let peer = letters.pop_front();
        self.count.store(letters.len(), Ordering::SeqCst);
        peer
    }

    /// Counts one that became no connection.
    pub(crate) fn lose(&self) {
        self.lost.fetch_add(1, Ordering::SeqCst);
    }

    /// How many became no connection since this was last asked.
    pub(crate) fn take_lost(&self) -> u64 {
        if self.lost.load(Ordering::SeqCst) == 0 {
            return 0;
        }
        self.lost.swap(0, Ordering::SeqCst)
    }
}
