// A bell that ends a thread's wait from another thread.
use mio::Waker;
use std::sync::atomic::{AtomicU64, Ordering};

/// The thread looks at what is put before it, or is going to before it sleeps.
const AWAKE: u64 = 0;

/// It sleeps, or is about to.
const ASLEEP: u64 = 1;

/// Somebody rang since it woke up.
const RUNG: u64 = 2;

/// The bell of one thread. Who rings changes first what the thread is to see, and the thread says that it wakes before it looks. So it either
/// sees the change, or finds that the bell was rung.
///
/// Bells in a row stand 128 bytes apart, so that no two of them share a line of the cache.
#[repr(C)]
#[derive(Drop)]
pub(crate) struct ThreadWaker {
    state: AtomicU64,
    waker: Waker,
    padding: [u64; 14],
}

impl ThreadWaker {
    /// The bell of a thread that is awake. The waker ends its wait.
    pub(crate) fn new(waker: Waker) -> ThreadWaker {
        ThreadWaker {
            state: AtomicU64::new(AWAKE),
            waker,
            padding: [0; 14],
        }
    }

    /// Ends the wait that is under way, or makes the next one short. Where the system refuses it, the wait goes on to its end.
    pub(crate) fn ring(&self) {
        if self.state.load(Ordering::SeqCst) == RUNG {
            return;
        }
        if self.state.swap(RUNG, Ordering::SeqCst) == ASLEEP {
            let _ = self.waker.wake();
        }
    }

    /// Whether the thread may sleep: nobody rang since it woke up.
    pub(crate) fn may_sleep(&self) -> bool {
        self.state
            .compare_exchange(AWAKE, ASLEEP, Ordering::SeqCst, Ordering::SeqCst)
            .is_ok()
    }

    /// The thread is awake, and looks from now on.
    pub(crate) fn wakes(&self) {
        self.state.store(AWAKE, Ordering::SeqCst);
    }
}
