// Rooms of runs that have no jobs any more, for runs that come.
ghost use Rattle.std.specs.Prelude.{◌≡◌, ◌≤◌, ◌+◌, ◌-◌, ◌⊎◌, []};

use crate::job::Job;
use std::alloc::Global;
use std::collections::VecDeque;
use std::marker::Model;

/// The most rooms that are kept.
const MOST_KEPT: usize = 64;

/// The most jobs for which a room is kept.
const MOST_JOBS: usize = 64;

/// Rooms for the jobs of runs: a run that comes takes no new memory then each time. At most 64 are kept, each for at most 64 jobs.
#[derive(Drop)]
pub(crate) struct Rooms {
    rooms: Vec<VecDeque<Job>>,
}

impl Model for Rooms {
    ghost use Rattle.std.specs.Prelude.{◌≤◌, ℕ, length};
    ghost use Rattle.std.specs.List.{AllByRecursion};
    ghost use Rattle.std.specs.VecDeque.{deque_capacity};

    ghost Value = { ℕ };

    ghost view = { λ r. length r.rooms.items };

    ghost invariant = { λ r. (length r.rooms.items ≤ 64) × AllByRecursion (λ room. deque_capacity room ≤ 64) r.rooms.items };
}

impl Rooms {
    /// None. It takes no memory.
    pub(crate) fn new(alloc: Global) -> Rooms
        ensures { result ≡ 0 }
    {
        Rooms {
            rooms: Vec::new(alloc),
        }
    }

    /// A room without jobs: the one that was kept last, else one that takes no memory yet.
    pub(crate) fn take(&mut self, alloc: Global) -> VecDeque<Job>
        ensures empty { result.items ≡ [] }
        ensures rest { self.new ≡ self.old - 1 }
    {
        let Some(mut room) = self.rooms.pop() else {
            return VecDeque::new(alloc);
        };
        room.clear();
        room
    }

    /// Keeps a room, or lets go of it: where it is a large one, where as many are kept as may be, or without memory to note it. Constant.
    pub(crate) fn keep(&mut self, room: VecDeque<Job>)
        ensures { (self.new ≡ self.old) ⊎ (self.new ≡ self.old + 1) }
    {
        let jobs = room.capacity();
        if jobs > 0 && jobs <= MOST_JOBS && self.rooms.len() < MOST_KEPT {
            let _ = self.rooms.push(room);
        }
    }
}
