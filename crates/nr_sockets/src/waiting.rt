// How long a thread waits for the system to tell of something.
ghost use Rattle.std.specs.Prelude.{◌≡◌, if◌then◌else◌};

/// How long a wait takes at most, in milliseconds.
const MOST_MILLISECONDS: u64 = 10;

/// How long a wait takes at most, in milliseconds: not at all where there is work at hand.
pub(crate) fn longest_wait(is_busy: bool) -> u64
    ensures { result ≡ (if is_busy then 0 else 10) }
{
    if is_busy { 0 } else { MOST_MILLISECONDS }
}
