// When a key with a deadline can be seen: the one place that compares a moment with a deadline.
ghost use Rattle.std.specs.Prelude.{◌≡◌};
ghost use Rattle.nr_model.specs.Keyspace.{is_live_at};

/// Whether a key with this deadline can be seen: before it, and not at it. Both are in milliseconds.
pub fn is_live(now: u64, deadline: Option<i64>) -> bool
    ensures { result ≡ is_live_at now deadline }
{
    match deadline {
        Some(deadline) => (now as i128) < (deadline as i128),
        None => true,
    }
}
