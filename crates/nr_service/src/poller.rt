// Where connections come from, and go.
ghost use Rattle.std.specs.Prelude.{◌≡◌, [], ◌∷◌, IfOk, IfSome};
ghost use Rattle.nr_service.specs.Pollers.{Finished, Abandoned, PartsWith};
ghost use Rattle.nr_service.specs.Streams.{fresh_course};

use crate::stream::Stream;
use nr_blob::Memory;

/// Of which streams a device tells that they may be ready.
#[derive(Clone, Copy, Debug, PartialEq, Eq)]
pub enum Ready {
    /// Every one may be.
    Every,
    /// The one at this place.
    One(usize),
    /// No more than those that were told.
    NoMore,
}

/// Where connections come from. Contracts say nothing of when one comes.
pub trait Poller<S: Stream> {
    ghost use Rattle.std.specs.Prelude.{Bool, Option, None, List};
    ghost use Rattle.nr_service.specs.Pollers.{Parting};

    // The streams that it was given back, in order, where they are known.
    ghost parted: { Self → Option (List (Parting S)) } = { λ _. None };

    // One wait: the device before it, the device behind it, whether there was work at hand, and what it answered.
    ghost waits: { Self → Self → Bool → Bool → Type 0 } = { λ _ _ _ _. Unit {0} };

    /// The next connection, `None` where none waits to be taken. Nothing was received or sent on it.
    fn accept(&mut self) -> Result<Option<S>, Memory>
        ensures received { IfOk result (λ accepted. IfSome accepted (λ stream. IfSome (S.received stream) (λ bytes. bytes ≡ []))) }
        ensures sent { IfOk result (λ accepted. IfSome accepted (λ stream. IfSome (S.sent stream) (λ bytes. bytes ≡ []))) }
        ensures course { IfOk result (λ accepted. IfSome accepted (λ stream. IfSome (S.course stream) (λ course. course ≡ fresh_course))) }
        ensures parted { parted self.new ≡ parted self.old };

    /// Waits until a stream may give or take bytes, or a connection waits to be taken, at most 10 milliseconds, and not at all where there
    /// is work at hand. False where it can't wait any more: it has failed.
    fn wait(&mut self, is_busy: bool) -> bool
        ensures parted { parted self.new ≡ parted self.old }
        ensures waited { waits self.old self.new is_busy result };

    /// Which stream may give or take bytes since the last wait, the first at place 0 and so on. A hint: one of which nothing is told is looked
    /// at later.
    fn ready(&self, _: usize) -> Ready {
        Ready::Every
    }

    /// Lets go of a stream of which all was sent: the peer gets these bytes, and then the end.
    fn finish(&mut self, stream: S)
        ensures parted { PartsWith (Finished stream ∷ []) (parted self.old) (parted self.new) };

    /// Lets go of a stream at once. What wasn't sent is lost.
    fn abandon(&mut self, stream: S)
        ensures parted { PartsWith (Abandoned stream ∷ []) (parted self.old) (parted self.new) };
}

/// No connection comes: those that are served were handed over.
#[derive(Clone, Copy, Debug, Drop)]
pub struct NoArrivals;

impl<S: Stream + Drop> Poller<S> for NoArrivals {
    fn accept(&mut self) -> Result<Option<S>, Memory> {
        Ok(None)
    }

    fn wait(&mut self, _: bool) -> bool {
        true
    }

    fn finish(&mut self, _: S) {}

    fn abandon(&mut self, _: S) {}
}
