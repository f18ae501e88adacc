// The commands of the section on keys.
ghost use Rattle.std.specs.Prelude.{◌≡◌, IfOk, OnOk};
ghost use Rattle.nr_model.specs.Keyspace.{live, key_of};
ghost use Rattle.nr_model.specs.Commands.Shape.{staying};
ghost use Rattle.nr_model.specs.Commands.Keys as keys;
ghost use Rattle.nr_resp.specs.Seen.{reply_of};
ghost use Rattle.nr_resp.specs.Done.{IsDone};
ghost use Rattle.nr_key_commands.specs.Removed.{Removes};

use nr_blob::{Blob, Memory};
use nr_keyspace::{Db, Keyspace, Touched};
use nr_resp::Reply;

mod conditions;
/// COPY.
pub mod copying;
/// EXPIRE and its like, and PERSIST.
pub mod deadlines;
mod stored;
/// The commands that only look.
pub mod looks;
/// RENAME, RENAMENX and MOVE.
pub mod moving;

/// `DEL key [key ..]`
pub fn del<T: Touched>(
    keyspace: &mut Keyspace,
    now: u64,
    database: Db,
    names: &[Blob],
    touched: &mut T,
) -> Result<Reply, Memory>
    requires { live keyspace.old now ≡ keyspace.old }
    ensures { IfOk result
        (λ reply. IsDone T.after (reply_of reply) keyspace.new database touched.old touched.new
        (staying database (keys.del keyspace.old database names.now))) }
{
    let mut removed: usize = 0;
    for name in names {
        if remove(keyspace, now, database, name, touched)? {
            removed += 1;
        }
    }
    Ok(Reply::Int(removed as i64))
}

/// Takes a key out, and says whether it was there.
pub(crate) fn remove<T: Touched>(
    keyspace: &mut Keyspace,
    now: u64,
    database: Db,
    name: &Blob,
    touched: &mut T,
) -> Result<bool, Memory>
    requires { live keyspace.old now ≡ keyspace.old }
    ensures removed { IfOk result
        (λ removed. Removes T.after removed keyspace.old keyspace.new touched.old touched.new (key_of database name.now)) }
    ensures live { OnOk result (live keyspace.new now ≡ keyspace.new) }
{
    if keyspace.remove(now, database, name).is_none() {
        return Ok(false);
    }
    touched.touch(database, name)?;
    Ok(true)
}
