// Who is told which keys a command changed. A body calls it for each key, and keeps no list.
ghost use Rattle.std.specs.Prelude.{◌≡◌, OnOk, fold};
ghost use Rattle.nr_model.specs.Keyspace.{Key, key_of, live};
ghost use Rattle.nr_model.specs.Commands.Server.{named_in};

use crate::db::Db;
use crate::keyspace::Keyspace;
use nr_blob::{Blob, Memory};

/// Is told of each key that a command touched: stored, removed, or gave another deadline.
pub trait Touched {
    /// What it comes to with one key more.
    ghost after: { Self → Key → Self };

    /// A key was touched.
    fn touch(&mut self, database: Db, name: &Blob) -> Result<(), Memory>
        ensures { OnOk result (self.new ≡ after self.old (key_of database name.now)) };

    /// The names of a database's live keys were touched, as keys of a database.
    fn touch_all(
        &mut self,
        keyspace: &Keyspace,
        now: u64,
        source: Db,
        target: Db,
    ) -> Result<(), Memory>
        ensures { OnOk result (self.new ≡ fold after self.old (named_in (live keyspace.now now) source target)) };
}

/// Nobody watches: who is told keeps no account, and nothing is done.
#[derive(Drop)]
pub struct Nobody;

impl Touched for Nobody {
    ghost after = { λ nobody _. nobody };

    fn touch(&mut self, _: Db, _: &Blob) -> Result<(), Memory> {
        Ok(())
    }

    fn touch_all(&mut self, _: &Keyspace, _: u64, _: Db, _: Db) -> Result<(), Memory> {
        Ok(())
    }
}
