// The moments that jobs may have.
ghost use Rattle.std.specs.Prelude.{◌≡◌, ◌≤◌};
ghost use Rattle.nr_model.specs.Keyspace.{last_moment, moment};

/// The last moment that is delivered apart, 2^53 milliseconds.
pub const LAST_MOMENT: u64 = 9_007_199_254_740_992;

/// The moment of so many milliseconds: of more than [`LAST_MOMENT`], that one.
pub fn capped(milliseconds: u64) -> u64
    ensures value { result ≡ moment milliseconds }
    ensures in_time { result ≤ last_moment }
{
    milliseconds.min(LAST_MOMENT)
}
