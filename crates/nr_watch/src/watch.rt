// One watch: a key, and when what it held is gone.
ghost use Rattle.std.specs.Prelude.{◌≡◌, IfOk};
ghost use Rattle.nr_model.specs.Keyspace.{live};
ghost use Rattle.nr_model.specs.Sequential.Watches.{same_key};
ghost use Rattle.nr_model.specs.Servers as model;
ghost use Rattle.nr_keyspace.specs.Joined.{key_of};
ghost use Rattle.nr_watch.specs.Kept.{is_named_in};

use nr_blob::{Blob, Memory};
use nr_keyspace::{Db, Keyspace};
use std::marker::Model;

/// A watched key, and the deadline in milliseconds that what it held had as it was watched, if that was live.
#[derive(Drop)]
pub(crate) struct Watch {
    database: Db,
    name: Blob,
    deadline: Option<i64>,
}

impl Model for Watch {
    ghost use Rattle.nr_model.specs.Servers as model;
    ghost use Rattle.nr_keyspace.specs.Joined.{key_of};
    ghost use Rattle.nr_watch.specs.Watching.{coded_watch};

    ghost Value = { model.Watch };

    ghost coded = { coded_watch };

    ghost view = { λ w. record { key = key_of w.database w.name; deadline = w.deadline } };
}

impl Watch {
    pub(crate) fn new(database: Db, name: Blob, deadline: Option<i64>) -> Watch
        ensures { result ≡ record { key = key_of database name; deadline = deadline } }
    {
        Watch {
            database,
            name,
            deadline,
        }
    }

    pub(crate) fn copy(&self) -> Result<Watch, Memory>
        ensures { IfOk result (λ watch. watch ≡ self.now) }
    {
        Ok(Watch::new(self.database, self.name.copy()?, self.deadline))
    }

    pub(crate) fn name(&self) -> &Blob
        ensures { result.now ≡ self.now.key.name }
    {
        &self.name
    }

    pub(crate) fn is_of(&self, database: Db, name: &Blob) -> bool
        ensures { result ≡ same_key self.now.key (key_of database name.now) }
    {
        self.database == database && self.name == *name
    }

    /// Whether its key is of the database `target`, and a key of its name is live in `source`. Looks in the other database only
    /// where the first is so.
    pub(crate) fn is_named_in(&self, keyspace: &Keyspace, now: u64, source: Db, target: Db) -> bool
        ensures { result ≡ is_named_in (live keyspace.now now) source target self.now.key }
    {
        self.database == target && keyspace.get(now, source, &self.name).is_some()
    }

    /// Whether what was live when it was watched has passed its deadline.
    pub(crate) fn has_gone(&self, now: u64) -> bool
        ensures { result ≡ model.has_gone now self.now.deadline }
    {
        match self.deadline {
            Some(deadline) => now as i128 >= deadline as i128,
            None => false,
        }
    }
}
