// What the system lets a process have.
ghost use Rattle.std.specs.Prelude.{◌≡◌, ◌==◌, Some, None, if◌then◌else◌};

use libc::types::rlimit;

// A limit of the system's, whose greatest number stands for none.
fn limited(limit: u64) -> Option<u64>
    ensures { result ≡ (if limit == u64.MAX then None else Some limit) }
{
    if limit == u64::MAX { None } else { Some(limit) }
}

/// How many descriptors the process may have at once, connections among them. `None` where the system sets no limit, or doesn't say it.
pub fn most_descriptors() -> Option<u64> {
    let mut limits = rlimit {
        rlim_cur: 0,
        rlim_max: 0,
    };
    if libc::getrlimit(libc::RLIMIT_NOFILE, &mut limits) != 0 {
        return None;
    }
    limited(limits.rlim_cur)
}
