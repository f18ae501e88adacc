// A node falls: each of its connections notes the first of its jobs that are dropped, and whether its queue was cut.
ghost use Rattle.std.specs.Prelude.{◌≡◌, ◌<◌, length, slice_index_or, slice_set};
ghost use Rattle.nr_entry.specs.Jobs.{items_of};
ghost use Rattle.nr_session.specs.SessionState.{SessionState};
ghost use Rattle.nr_replica.specs.Members.{Member, AreNumbered};
ghost use Rattle.nr_world.specs.Dropped.{dropped_of, session_after, sessions_after};
ghost use Rattle.nr_world.specs.Whole.{ArePaired};

use crate::dropped_jobs::first_dropped;
use crate::sessions::Sessions;
use crate::worker::WorldWorker;
use nr_entry::ConnId;
use nr_replica::Replica;

/// Each connection that isn't closed notes the first of its jobs that are dropped, and whether its queue was cut. For each it looks through
/// all that is dropped, since it takes no memory.
pub(crate) fn note_fall(sessions: &mut Sessions, replica: &Replica, workers: &[WorldWorker])
    requires clients { length sessions.old ≡ length replica.now.members }
    requires numbered { AreNumbered replica.now.node 0 replica.now.members }
    requires pairs { ArePaired replica.now.node 0 sessions.old replica.now.members }
    ensures { sessions.new ≡ sessions_after (dropped_of (items_of replica.now.waiting) workers.now) sessions.old replica.now.members }
{
    for serial in 0..sessions.len() {
        note_fall_of(sessions, serial, replica, workers);
    }
}

// One connection does.
fn note_fall_of(sessions: &mut Sessions, serial: usize, replica: &Replica, workers: &[WorldWorker])
    requires is_there { serial < length sessions.old }
    requires clients { length sessions.old ≡ length replica.now.members }
    requires numbered { AreNumbered replica.now.node 0 replica.now.members }
    requires pairs { ArePaired replica.now.node 0 sessions.old replica.now.members }
    ensures { (s : SessionState) → (m : Member) → sessions.new ≡ slice_set sessions.old serial
        (session_after (dropped_of (items_of replica.now.waiting) workers.now)
        (slice_index_or sessions.old serial s) (slice_index_or replica.now.members serial m)) }
{
    if replica.is_closed(serial) {
        return;
    }
    let conn = ConnId {
        node: replica.node(),
        serial: serial as u64,
    };
    let dropped = first_dropped(conn, replica, workers);
    sessions.fall(serial, dropped, replica.is_cut(serial));
}
