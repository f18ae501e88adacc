// The databases of connections. Each begins in database 0, and those that are there take no room.
ghost use Rattle.std.specs.Prelude.{◌≡◌, IfOk, OnOk, OnErr};
ghost use Rattle.std.specs.FinMap as map;
ghost use Rattle.nr_model.specs.Servers.{database_in, with_database};
ghost use Rattle.nr_entry.specs.Jobs.{connection_of};
ghost use Rattle.nr_machine.specs.Stored.{databases_of};

use nr_blob::Memory;
use nr_entry::ConnId;
use nr_keyspace::Db;
use std::alloc::Global;
use std::collections::BTreeMap;
use std::marker::Model;

/// The databases of connections, where they are not 0.
#[derive(Drop)]
pub(crate) struct SelectedDatabases {
    by_conn: BTreeMap<ConnId, Db>,
}

impl Model for SelectedDatabases {
    ghost use Rattle.std.specs.Prelude.{ℕ};
    ghost use Rattle.std.specs.FinMap as map;
    ghost use Rattle.nr_model.specs.Items.{connection_cmp};
    ghost use Rattle.nr_machine.specs.Stored.{databases_of, coded_databases};

    ghost Value = { map.FinMap connection_cmp ℕ };

    ghost coded = { coded_databases };

    ghost view = { λ d. databases_of d.by_conn.entries };
}

impl SelectedDatabases {
    pub(crate) fn new(alloc: Global) -> SelectedDatabases
        ensures { result ≡ map.empty }
    {
        SelectedDatabases {
            by_conn: BTreeMap::new(alloc),
        }
    }

    /// The same once more. Linear in the databases that are not 0.
    pub(crate) fn copy(&self, alloc: Global) -> Result<SelectedDatabases, Memory>
        ensures { IfOk result (λ copied. copied ≡ self.now) }
    {
        let mut copied = SelectedDatabases::new(alloc);
        for (conn, database) in self.by_conn.iter() {
            copied.put(*conn, *database)?;
        }
        Ok(copied)
    }

    /// The database of a connection. Logarithmic.
    #[tactic(auto, using(crate::proofs::DatabasesKept::one_found, crate::proofs::DatabasesKept::none_found))]
    pub(crate) fn of(&self, conn: ConnId) -> Db
        ensures { result ≡ database_in self.now (connection_of conn) }
    {
        match self.by_conn.get(&conn) {
            Some(database) => *database,
            None => Db::FIRST,
        }
    }

    /// Gives a connection a database. Logarithmic. Where memory runs out nothing changes.
    pub(crate) fn set(&mut self, conn: ConnId, database: Db) -> Result<(), Memory>
        ensures ok { OnOk result (self.new ≡ with_database self.old (connection_of conn) database) }
        ensures err { OnErr result (self.new ≡ self.old) }
    {
        if self.of(conn) == database {
            return Ok(());
        }
        if database == Db::FIRST {
            self.forget(conn);
            return Ok(());
        }
        self.put(conn, database)
    }

    #[tactic(auto, using(crate::proofs::DatabasesKept::put_is))]
    fn put(&mut self, conn: ConnId, database: Db) -> Result<(), Memory>
        ensures ok { OnOk result (self.new ≡ map.insert self.old (connection_of conn) database) }
        ensures err { OnErr result (self.new ≡ self.old) }
    {
        self.by_conn.insert(conn, database)?;
        Ok(())
    }

    /// Puts a connection back into database 0. Logarithmic.
    #[tactic(auto, using(crate::proofs::DatabasesKept::forgotten_is))]
    pub(crate) fn forget(&mut self, conn: ConnId)
        ensures { self.new ≡ map.remove self.old (connection_of conn) }
    {
        self.by_conn.remove(&conn);
    }
}
