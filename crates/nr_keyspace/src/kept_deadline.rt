// A deadline as an entry keeps it.
ghost use Rattle.std.specs.Prelude.{◌≡◌, Some, is_some, IfOk, OnErr};
ghost use Rattle.nr_model.specs.Keyspace.{is_live_at};
ghost use Rattle.nr_keyspace.specs.Deadlines.{least_moment};

use crate::moment::is_live;
use nr_blob::Memory;
use std::marker::Model;

/// The millisecond from which a key is gone, if there is one, in eight bytes, where an `Option` takes sixteen: the least number that there is
/// stands for none.
#[derive(Drop)]
pub(crate) struct KeptDeadline {
    moment: i64,
}

impl Model for KeptDeadline {
    ghost use Rattle.std.specs.Prelude.{ℤ, Option};
    ghost use Rattle.nr_keyspace.specs.Deadlines.{deadline_kept};

    ghost Value = { Option ℤ };

    ghost view = { λ d. deadline_kept d.moment };
}

impl KeptDeadline {
    /// A deadline of -2^63 milliseconds can't be told from none, and is answered as want of memory. No command stores one that isn't after its
    /// moment.
    pub(crate) fn new(deadline: Option<i64>) -> Result<KeptDeadline, Memory>
        ensures kept { IfOk result (λ kept. kept ≡ deadline) }
        ensures refused { OnErr result (deadline ≡ Some least_moment) }
    {
        match deadline {
            None => Ok(KeptDeadline { moment: i64::MIN }),
            // The distance is 2^64 - 1 at the least number alone.
            Some(moment) => match Memory::at_last(moment.abs_diff(i64::MAX)) {
                Some(refused) => Err(refused),
                None => Ok(KeptDeadline { moment }),
            },
        }
    }

    /// Whether there is one.
    pub(crate) fn is_some(&self) -> bool
        ensures { result ≡ is_some self.now }
    {
        self.get().is_some()
    }

    /// Whether a key that has it can be seen.
    pub(crate) fn is_live(&self, now: u64) -> bool
        ensures { result ≡ is_live_at now self.now }
    {
        is_live(now, self.get())
    }

    pub(crate) fn get(&self) -> Option<i64>
        ensures { result ≡ self.now }
    {
        if self.moment == i64::MIN {
            None
        } else {
            Some(self.moment)
        }
    }
}
