// The order of deadlines, and of equal ones by the bytes of their names, and the cuts through it.
ghost use Rattle.std.specs.Prelude.{not, Some};
ghost use Rattle.nr_model.specs.Keyspace.{is_live_at};
ghost use Rattle.nr_keyspace.specs.Deadlines.{is_before};

use crate::moment::is_live;
use nr_ordered::Cut;

/// The cut in front of a name with this deadline.
#[derive(Clone, Copy)]
pub(crate) struct BeforeDue<'a> {
    pub(crate) name: &'a [u8],
    pub(crate) deadline: i64,
}

impl<'a> Cut for BeforeDue<'a> {
    ghost parts = { λ before. is_before (before.name.now, before.deadline) };

    fn is_behind(&self, name: &[u8], deadline: i64) -> bool {
        if deadline != self.deadline {
            return deadline < self.deadline;
        }
        name.cmp(&self.name).is_lt()
    }
}

/// The cut behind the last deadline that is not after a moment.
#[derive(Clone, Copy)]
pub(crate) struct Until {
    pub(crate) now: u64,
}

impl Cut for Until {
    ghost parts = { λ until item. not (is_live_at until.now (Some item.1)) };

    fn is_behind(&self, _: &[u8], deadline: i64) -> bool {
        !is_live(self.now, Some(deadline))
    }
}
