// Watches of keys, each with the deadline that its key has.
ghost use Rattle.std.specs.Prelude.{◌≡◌, map, OnOk};
ghost use Rattle.nr_model.specs.Servers.{watches_added, watch_of};
ghost use Rattle.nr_entry.specs.Jobs.{connection_of};
ghost use Rattle.nr_machine.specs.Steps.{keys_of};

use nr_blob::{Blob, Memory};
use nr_entry::ConnId;
use nr_keyspace::{Db, Keyspace};
use nr_watch::Watches;

/// Begins a watch of each key of a database, at a moment in milliseconds.
pub(crate) fn watch_all(
    keyspace: &Keyspace,
    watches: &mut Watches,
    now: u64,
    conn: ConnId,
    database: Db,
    names: &[Blob],
) -> Result<(), Memory>
    ensures { OnOk result (watches.new ≡ record watches.old {
      watches = watches_added watches.old.watches (connection_of conn) (map (watch_of keyspace.now now) (keys_of database names.now));
    }) }
{
    for name in names {
        let deadline = keyspace.deadline(now, database, name).flatten();
        watches.watch(conn, database, name.copy()?, deadline)?;
    }
    Ok(())
}
