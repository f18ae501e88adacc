// How long calls take.
/// Of some calls: how long all took, and the slowest of them, in nanoseconds.
#[derive(Clone, Copy)]
pub(crate) struct Times {
    pub all: u128,
    pub slowest: u128,
}

impl Times {
    /// Of none.
    pub(crate) fn new() -> Times {
        Times { all: 0, slowest: 0 }
    }

    /// One more took so long.
    pub(crate) fn add(&mut self, time: u128) {
        self.all = self.all.saturating_add(time);
        self.slowest = self.slowest.max(time);
    }

    /// How long one of so many took.
    pub(crate) fn mean(&self, count: u32) -> u128 {
        self.all / u128::from(count.max(1))
    }
}
