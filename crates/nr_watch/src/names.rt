// By the name of a key, in any database, the connections that watch one of that name.
ghost use Rattle.std.specs.Prelude.{◌≡◌, not, false, IfOk, OnOk, OnErr};
ghost use Rattle.std.specs.Option.{option_map};
ghost use Rattle.std.specs.Ordering.{eq_by_cmp};
ghost use Rattle.nr_model.specs.Bytes.{Bytes};
ghost use Rattle.nr_model.specs.Keyspace.{byte_cmp};
ghost use Rattle.nr_model.specs.Items.{Connection};
ghost use Rattle.nr_entry.specs.Jobs.{connection_of};
ghost use Rattle.nr_watch.specs.Kept.{stands, is_among, names_one, IsAdded, IsTakenOut, IsAsBefore, IsHeld};

use crate::watch::Watch;
use nr_blob::{Blob, Memory};
use nr_entry::ConnId;
use std::alloc::Global;
use std::collections::{BTreeMap, BTreeSet};

/// Names of keys, with the connections that stand there, at least one at each.
#[derive(Drop)]
pub(crate) struct Names {
    alloc: Global,
    conns: BTreeMap<Blob, BTreeSet<ConnId>>,
    // Somebody stands at each of the names.
    ghost held: { IsHeld conns.entries },
}

impl Names {
    pub(crate) fn new(alloc: Global) -> Names
        ensures { (name : Bytes) (c : Connection) → stands result.conns.entries name c ≡ false }
    {
        Names {
            alloc,
            conns: BTreeMap::new(alloc),
        }
    }

    /// Who stands at a name.
    pub(crate) fn at(&self, name: &Blob) -> Option<&BTreeSet<ConnId>>
        ensures { (c : Connection) → is_among c (option_map (λ conns. conns.now) result) ≡ stands self.now.conns.entries name.now c }
    {
        self.conns.get(name)
    }

    /// Says whether the connection didn't stand there before. The name is copied where nobody stood there. Where memory runs out
    /// everyone stands as before.
    pub(crate) fn add(&mut self, name: &Blob, conn: ConnId) -> Result<bool, Memory>
        ensures ok { OnOk result (IsAdded (λ other. eq_by_cmp byte_cmp other name.now) conn self.old.conns.entries self.new.conns.entries) }
        ensures is_new { IfOk result (λ is_new. is_new ≡ not (stands self.old.conns.entries name.now (connection_of conn))) }
        ensures err { OnErr result (IsAsBefore self.old.conns.entries self.new.conns.entries) }
    {
        if let Some(conns) = self.conns.get_mut(name) {
            return Ok(conns.insert(conn)?);
        }
        let mut conns = BTreeSet::new(self.alloc);
        conns.insert(conn)?;
        self.conns.insert(name.copy()?, conns)?;
        Ok(true)
    }

    pub(crate) fn remove(&mut self, name: &Blob, conn: ConnId)
        ensures { IsTakenOut (λ other. eq_by_cmp byte_cmp other name.now) conn self.old.conns.entries self.new.conns.entries }
    {
        let Some(conns) = self.conns.get_mut(name) else {
            return;
        };
        conns.remove(&conn);
        if conns.is_empty() {
            self.conns.remove(name);
        }
    }

    /// Adds a connection at the name of each of its watches. Where memory runs out it stands at some of them.
    pub(crate) fn add_each(&mut self, watches: &[Watch], conn: ConnId) -> Result<(), Memory>
        ensures { OnOk result (IsAdded (λ name. names_one name watches.now) conn self.old.conns.entries self.new.conns.entries) }
    {
        for watch in watches {
            self.add(watch.name(), conn)?;
        }
        Ok(())
    }

    pub(crate) fn remove_each(&mut self, watches: &[Watch], conn: ConnId)
        ensures { IsTakenOut (λ name. names_one name watches.now) conn self.old.conns.entries self.new.conns.entries }
    {
        for watch in watches {
            self.remove(watch.name(), conn);
        }
    }
}
