// A sorted set that a command changes: it is edited where it lies, and whoever keeps account is told of its key.
ghost use Rattle.std.specs.Prelude.{◌≡◌, ◌<◌, ◌^◌, Result, OnOk};
ghost use Rattle.nr_model.specs.Keyspace.{live, Key, key_of, Keyspace};
ghost use Rattle.nr_model.specs.SortedSets.{Scores};
ghost use Rattle.nr_model.specs.Commands.Shape.{Effect, performed, staying};
ghost use Rattle.nr_model.specs.Commands.Sets.{touched_by};
ghost use Rattle.nr_model.specs.Commands.SortedSets as sorted_sets;
ghost use Rattle.nr_model.specs.declared.refused.Refused as refusals;
ghost use Rattle.nr_resp.specs.Done.{Performs};
ghost use Rattle.nr_keyspace.specs.Touched.{Touches};
ghost use Rattle.nr_ranked.specs.Changing.{Gives};

use crate::edited::edit_at;
use nr_blob::{Blob, Memory};
use nr_keyspace::{Db, Keyspace, SortedSetEdit, Touched};
use nr_resp::{Failure, Reply};
use std::alloc::Global;

/// What an edit of a sorted set tells its command.
#[derive(Drop)]
pub(crate) struct Change {
    /// How many members are new, have another score, or are gone.
    pub(crate) count: usize,
    pub(crate) reply: Reply,
}

/// Has the sorted set that a key holds changed, in place, under the deadline that it has. A missing key is the sorted set without members,
/// and one without members left is no key. A key of another kind is refused. One look-up of the key where it is there.
pub(crate) fn change_at<E: SortedSetEdit<Given = Change> + Copy, T: Touched>(
    alloc: Global,
    keyspace: &mut Keyspace,
    now: u64,
    database: Db,
    name: &Blob,
    edit: E,
    touched: &mut T,
) -> Result<Reply, Failure>
    requires { live keyspace.old now ≡ keyspace.old }
    ensures { (effect : Scores → Keyspace → Key → Effect)
        → ((old new : Scores) (given : Result Change refusals.Refused) → E.edits edit old new given → Gives (effect old) new given)
        → Performs T.after result keyspace.new database touched.old touched.new
        (staying database (performed keyspace.old (sorted_sets.sorted_at keyspace.old database name.now)
        (λ scores. effect scores keyspace.old (key_of database name.now)))) }
{
    let change = edit_at(alloc, keyspace, now, database, name, edit)?;
    tell(database, name, change.count, touched)?;
    Ok(change.reply)
}

// Whoever keeps account is told of a key, if so many of its members are new, have another score, or are gone.
fn tell<T: Touched>(database: Db, name: &Blob, count: usize, touched: &mut T) -> Result<(), Memory>
    ensures { OnOk result (Touches T.after touched.old touched.new (touched_by (key_of database name.now) count)) }
{
    if count == 0 {
        return Ok(());
    }
    touched.touch(database, name)
}
