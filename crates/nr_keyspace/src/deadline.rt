// Deadlines of keys.
ghost use Rattle.std.specs.Prelude.{◌≡◌, OnOk};
ghost use Rattle.std.specs.FinMap as map;
ghost use Rattle.nr_model.specs.Keyspace.{live, key_of};
ghost use Rattle.nr_keyspace.specs.Redated.{redated_until};

use crate::db::Db;
use crate::keyspace::Keyspace;
use crate::moment::is_live;
use nr_blob::{Blob, Memory};

/// The key is gone, if it was there. The moment is in milliseconds.
#[tactic(auto, using(crate::proofs::Missing::removed_or_missing))]
pub fn remove(keyspace: &mut Keyspace, now: u64, database: Db, name: &Blob)
    requires { live keyspace.old now ≡ keyspace.old }
    ensures { keyspace.new ≡ map.remove keyspace.old (key_of database name.now) }
{
    let _ = keyspace.remove(now, database, name);
}

/// Another deadline, or none, for a key that is there. It is gone at once where that isn't after now. Both are in milliseconds.
#[tactic(auto, using(crate::proofs::Redated::redated_later, crate::proofs::Redated::redated_gone))]
pub fn hold_until(
    keyspace: &mut Keyspace,
    now: u64,
    database: Db,
    name: &Blob,
    deadline: Option<i64>,
) -> Result<(), Memory>
    requires { live keyspace.old now ≡ keyspace.old }
    ensures { let key = key_of database name.now in OnOk result
        (keyspace.new ≡ redated_until now keyspace.old key (map.get keyspace.old key) deadline) }
{
    if !is_live(now, deadline) {
        remove(keyspace, now, database, name);
        return Ok(());
    }
    keyspace.set_deadline(now, database, name, deadline)?;
    Ok(())
}
