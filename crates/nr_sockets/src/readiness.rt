// Which calls of a socket may do something. The system tells of changes alone, so what it told is kept until a call finds nothing to do.
use std::alloc::Global;
use std::sync::Arc;
use std::sync::atomic::{AtomicBool, Ordering};

/// Whether bytes may be there to be read, and room for bytes to be written, and whether the peer sends no more: the end of what it sent is
/// told of once, maybe long before it is read. Whether it ever sent an urgent byte: a read stops in front of one, though more is there behind it.
/// Whether the socket lingers. And whether nothing more is read of it. The socket and the list of all sockets share it.
#[derive(Drop)]
pub(crate) struct Readiness {
    is_readable: AtomicBool,
    is_writable: AtomicBool,
    is_ending: AtomicBool,
    is_urgent: AtomicBool,
    is_lingering: AtomicBool,
    is_deaf: AtomicBool,
}

pub(crate) type SharedReadiness = Arc<Readiness, Global>;

impl Readiness {
    /// Both may be, and the peer may send.
    pub(crate) fn new() -> Readiness {
        Readiness {
            is_readable: AtomicBool::new(true),
            is_writable: AtomicBool::new(true),
            is_ending: AtomicBool::new(false),
            is_urgent: AtomicBool::new(false),
            is_lingering: AtomicBool::new(false),
            is_deaf: AtomicBool::new(false),
        }
    }

    /// Whether bytes may be there that are to be read.
    pub(crate) fn is_readable(&self) -> bool {
        self.is_readable.load(Ordering::Relaxed) && !self.is_deaf.load(Ordering::Relaxed)
    }

    pub(crate) fn is_writable(&self) -> bool {
        self.is_writable.load(Ordering::Relaxed)
    }

    pub(crate) fn is_ending(&self) -> bool {
        self.is_ending.load(Ordering::Relaxed)
    }

    pub(crate) fn set_ending(&self) {
        self.is_ending.store(true, Ordering::Relaxed);
    }

    pub(crate) fn is_urgent(&self) -> bool {
        self.is_urgent.load(Ordering::Relaxed)
    }

    pub(crate) fn set_urgent(&self) {
        self.is_urgent.store(true, Ordering::Relaxed);
    }

    /// Whether a read that gave fewer bytes than there was room for may have left some, or the end.
    pub(crate) fn may_have_more(&self) -> bool {
        self.is_ending() || self.is_urgent()
    }

    pub(crate) fn is_lingering(&self) -> bool {
        self.is_lingering.load(Ordering::Relaxed)
    }

    /// It lingers from now on: what comes is read, and dropped.
    pub(crate) fn set_lingering(&self) {
        self.is_lingering.store(true, Ordering::Relaxed);
        self.is_deaf.store(false, Ordering::Relaxed);
    }

    /// Nothing more is read of it, unless it lingers.
    pub(crate) fn set_deaf(&self) {
        self.is_deaf.store(!self.is_lingering(), Ordering::Relaxed);
    }

    pub(crate) fn set_readable(&self, may_be: bool) {
        self.is_readable.store(may_be, Ordering::Relaxed);
    }

    pub(crate) fn set_writable(&self, may_be: bool) {
        self.is_writable.store(may_be, Ordering::Relaxed);
    }
}
