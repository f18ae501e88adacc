// The commands of the section on connections and the server.
ghost use Rattle.std.specs.Prelude.{◌≡◌};
ghost use Rattle.nr_model.specs.Keyspace.{live};
ghost use Rattle.nr_model.specs.Commands.Server as server;
ghost use Rattle.nr_resp.specs.Done.{Answers, Performs};

use nr_blob::Blob;
use nr_key_commands::server::{db_size, echo, flush_all, flush_db, ping, select, swap_db, time};
use nr_keyspace::{Db, Keyspace, Touched};
use nr_model::command::{ServerChange, ServerLook};
use nr_resp::{Failure, Reply, Shown};
use std::alloc::Global;

/// A command that only looks. The words are those behind the name.
pub(super) fn look<'k>(
    alloc: Global,
    keyspace: &'k Keyspace,
    now: u64,
    database: Db,
    command: ServerLook,
    words: &'k [Blob],
) -> Result<Shown<'k>, Failure>
    ensures { Answers result (server.look command now (live keyspace.now now) database words.now) }
{
    match command {
        ServerLook::Ping => ping(words),
        ServerLook::Echo => echo(words),
        ServerLook::Time => Ok(Shown::Owned(time(alloc, now)?)),
        ServerLook::DbSize => Ok(Shown::Owned(db_size(keyspace, now, database))),
    }
}

/// A command that may change a keyspace whose keys are all live, or the database. The words are those behind the name.
pub(super) fn change<T: Touched>(
    keyspace: &mut Keyspace,
    now: u64,
    database: &mut Db,
    command: ServerChange,
    words: &[Blob],
    touched: &mut T,
) -> Result<Reply, Failure>
    requires { live keyspace.old now ≡ keyspace.old }
    ensures { Performs T.after result keyspace.new database.new touched.old touched.new
        (server.change command now keyspace.old database.old words.now) }
{
    match command {
        ServerChange::Select => select(keyspace, database, words, touched),
        ServerChange::FlushDb => flush_db(keyspace, now, *database, words, touched),
        ServerChange::FlushAll => flush_all(keyspace, now, words, touched),
        ServerChange::SwapDb => swap_db(keyspace, now, words, touched),
    }
}
