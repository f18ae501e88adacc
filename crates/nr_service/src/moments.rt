// The clock: the moments at which bytes come, in milliseconds. A clock that fails gives none.
use std::rt::Clock;
use std::time::SystemTime;

/// A clock.
pub trait Moments {
    ghost use Rattle.std.specs.Prelude.{ℕ, Option};

    // One reading: the clock before it, the clock behind it, and what it gave.
    ghost gives: { Self → Self → Option ℕ → Type 0 } = { λ _ _ _. Unit {0} };

    /// The milliseconds since 1970 began, `None` where the clock fails.
    fn now(&mut self) -> Option<u64>
        ensures { gives self.old self.new result };
}

/// The machine's clock.
#[derive(Drop)]
pub struct MachineClock<'a, C> {
    pub runtime: &'a C,
}

impl<C: Clock> Moments for MachineClock<'_, C> {
    fn now(&mut self) -> Option<u64> {
        let now = SystemTime::now(self.runtime).ok()?;
        let since = now.duration_since(SystemTime::UNIX_EPOCH).ok()?;
        u64::try_from(since.as_millis()).ok()
    }
}
