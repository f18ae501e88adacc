// When it is tried to bring a node back that is down.
ghost use Rattle.std.specs.Prelude.{◌≡◌, ◌⊎◌, ◌↔◌, ◌+◌, ◌≤◌, ◌<◌, IsTrue};
ghost use Rattle.nr_server.specs.Attempts.{IsDue, IsPausedBehind};

/// How many milliseconds it is waited behind the first try, and at most.
const FIRST_PAUSE: u64 = 1_000;

const LONGEST_PAUSE: u64 = 30_000;

/// Where no try was made for so many milliseconds more than it was to be waited, it begins anew.
const PEACE: u64 = 10_000;

/// When it is tried to bring a node back that is down: at once, then a second behind that, whatever came of it, and then after twice as long each time, at most 30 seconds. Where no
/// try was made for ten seconds longer than that it begins anew. So a node that falls each time it has come back is not copied without a pause, and one that was up for a
/// while comes back at once.
#[derive(Clone, Copy, Debug)]
pub(crate) struct Attempts {
    // The moment of the last one, in milliseconds, and how long it is waited behind it: not at all before the first.
    last: u64,
    pause: u64,
}

impl Attempts {
    /// None was made yet.
    pub(crate) fn new() -> Attempts
        ensures { result ≡ record { last = 0; pause = 0 } }
    {
        Attempts { last: 0, pause: 0 }
    }

    /// Whether it is time for one at this moment, in milliseconds. Where the clock went back behind the last one it is.
    pub(crate) fn is_due(&self, moment: u64) -> bool
        ensures { IsTrue result ↔ IsDue self.now moment }
    {
        match moment.checked_sub(self.last) {
            Some(gone) => gone >= self.pause,
            None => true,
        }
    }

    /// One was made, and was over at this moment.
    pub(crate) fn note(&mut self, moment: u64)
        ensures last { self.new.last ≡ moment }
        ensures pause { IsPausedBehind self.old moment self.new.pause }
    {
        self.pause = self.next_pause(moment);
        self.last = moment;
    }

    // How long it is waited behind one that is over at this moment.
    fn next_pause(&self, moment: u64) -> u64
        ensures { IsPausedBehind self.now moment result }
    {
        if self.is_in_peace(moment) {
            return FIRST_PAUSE;
        }
        let doubled = self.pause.saturating_mul(2);
        doubled.max(FIRST_PAUSE).min(LONGEST_PAUSE)
    }

    // Whether it was left in peace until this moment.
    fn is_in_peace(&self, moment: u64) -> bool
        ensures { IsTrue result ↔ ((moment < self.now.last) ⊎ (self.now.last + self.now.pause + 10000 ≤ moment)) }
    {
        match moment.checked_sub(self.last) {
            Some(gone) => gone >= self.pause && gone - self.pause >= PEACE,
            None => true,
        }
    }
}
