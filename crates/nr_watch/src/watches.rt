// All that connections watch: by connection, and by name beside it, so that a touch looks at those alone that may watch
// the key.
ghost use Rattle.std.specs.Prelude.{◌≡◌, ◌↔◌, ◌||◌, [], ◌∷◌, Some, None, IsTrue, IfOk, IfErr, OnOk, OnErr};
ghost use Rattle.std.specs.List.{list_any};
ghost use Rattle.std.specs.FinMap as map;
ghost use Rattle.std.specs.FinSet as set;
ghost use Rattle.nr_model.specs.Keyspace.{live};
ghost use Rattle.nr_model.specs.Commands.Server.{named_in};
ghost use Rattle.nr_model.specs.Servers.{watches_in, has_gone, watches_added, touched_by};
ghost use Rattle.nr_entry.specs.Jobs.{connection_of};
ghost use Rattle.nr_keyspace.specs.Joined.{key_of};
ghost use Rattle.nr_watch.specs.Watching.{nobody, touched_at};
ghost use Rattle.nr_watch.specs.Kept.{is_conn, kept_at, with_watch, is_named_in, IsMarked, IsMarkedWhere, IsPut, IsKeptAsBefore, IsIndexed};

use crate::names::Names;
use crate::watch::Watch;
use crate::watched::Watched;
use nr_blob::{Blob, Memory};
use nr_entry::ConnId;
use nr_keyspace::{Db, Keyspace, Touched};
use std::alloc::Global;
use std::collections::{BTreeMap, BTreeSet};
use std::marker::Model;

/// What connections watch, and of which connections a watched key was touched.
#[derive(Drop)]
pub struct Watches {
    alloc: Global,
    by_conn: BTreeMap<ConnId, Watched>,
    by_name: Names,
}

impl Model for Watches {
    ghost use Rattle.nr_watch.specs.Watching.{Watching, coded_watching};
    ghost use Rattle.nr_watch.specs.Kept.{watching_of, IsIndexed};

    ghost Value = { Watching };

    ghost coded = { coded_watching };

    ghost view = { λ w. watching_of w.by_conn.entries };

    ghost invariant = { λ w. IsIndexed w.by_conn.entries w.by_name.conns.entries };
}

// Marks a connection, if it watches the key.
fn mark(by_conn: &mut BTreeMap<ConnId, Watched>, conn: ConnId, database: Db, name: &Blob)
    ensures { IsMarked (key_of database name.now) (λ c. is_conn c conn) by_conn.old.entries by_conn.new.entries }
{
    if let Some(watched) = by_conn.get_mut(&conn) {
        watched.mark(database, name);
    }
}

// Marks those of some connections that watch the key.
fn mark_each(
    by_conn: &mut BTreeMap<ConnId, Watched>,
    conns: &BTreeSet<ConnId>,
    database: Db,
    name: &Blob,
)
    ensures { IsMarked (key_of database name.now) (λ c. list_any (is_conn c) conns.now.keys) by_conn.old.entries by_conn.new.entries }
{
    for conn in conns {
        mark(by_conn, *conn, database, name);
    }
}

// Marks each connection that watches a key of the database `target` by a name that is live in `source`.
fn mark_named(
    by_conn: &mut BTreeMap<ConnId, Watched>,
    keyspace: &Keyspace,
    now: u64,
    source: Db,
    target: Db,
)
    ensures { IsMarkedWhere (is_named_in (live keyspace.now now) source target) by_conn.old.entries by_conn.new.entries }
{
    // Unlike `values_mut`, `retain` has a clause on what is written to each value.
    by_conn.retain(|_, watched| {
        watched.mark_named(keyspace, now, source, target);
        true
    });
}

// Adds a watch to those of a connection. Where memory runs out everyone watches what it did, and the watch comes back.
fn add(
    alloc: Global,
    by_conn: &mut BTreeMap<ConnId, Watched>,
    conn: ConnId,
    watch: Watch,
) -> Result<(), (Watch, Memory)>
    ensures ok { OnOk result (IsPut conn (Some (with_watch watch (kept_at (connection_of conn) by_conn.old.entries))) by_conn.old.entries by_conn.new.entries) }
    ensures err { OnErr result (IsKeptAsBefore by_conn.old.entries by_conn.new.entries) }
    ensures back { IfErr result (λ back. back.0 ≡ watch) }
{
    if let Some(watched) = by_conn.get_mut(&conn) {
        watched.add(watch)?;
        return Ok(());
    }
    match by_conn.insert(conn, Watched::new(alloc, watch)?) {
        Ok(_) => Ok(()),
        Err(failed) => {
            let ((_, watched), refused) = Memory::giving_back(failed);
            Err((watched.into_first(), refused))
        }
    }
}

// Adds a watch to those of a connection, which stands at its name from now on. Where memory runs out nothing changes.
fn begin(
    alloc: Global,
    by_conn: &mut BTreeMap<ConnId, Watched>,
    by_name: &mut Names,
    conn: ConnId,
    watch: Watch,
) -> Result<(), Memory>
    requires was_indexed { IsIndexed by_conn.old.entries by_name.old.conns.entries }
    ensures ok { OnOk result (IsPut conn (Some (with_watch watch (kept_at (connection_of conn) by_conn.old.entries))) by_conn.old.entries by_conn.new.entries) }
    ensures err { OnErr result (IsKeptAsBefore by_conn.old.entries by_conn.new.entries) }
    ensures indexed { IsIndexed by_conn.new.entries by_name.new.conns.entries }
{
    let is_new = by_name.add(watch.name(), conn)?;
    let Err((watch, refused)) = add(alloc, by_conn, conn, watch) else {
        return Ok(());
    };
    if is_new {
        by_name.remove(watch.name(), conn);
    }
    Err(refused)
}

// Keeps this as what a connection watches.
fn put(
    by_conn: &mut BTreeMap<ConnId, Watched>,
    conn: ConnId,
    watched: Watched,
) -> Result<(), Memory>
    ensures { OnOk result (IsPut conn (Some watched) by_conn.old.entries by_conn.new.entries) }
{
    by_conn.insert(conn, watched)?;
    Ok(())
}

// Lets go of what a connection watches, and gives it back.
fn take(by_conn: &mut BTreeMap<ConnId, Watched>, conn: ConnId) -> Option<Watched>
    ensures value { result ≡ kept_at (connection_of conn) by_conn.old.entries }
    ensures taken { IsPut conn None by_conn.old.entries by_conn.new.entries }
{
    by_conn.remove(&conn)
}

impl Watches {
    /// Nobody watches anything. It takes no memory.
    pub fn new(alloc: Global) -> Watches
        ensures { result ≡ nobody }
    {
        Watches {
            alloc,
            by_conn: BTreeMap::new(alloc),
            by_name: Names::new(alloc),
        }
    }

    /// The same watches and marks once more. It takes n log n steps for n watches.
    pub fn copy(&self) -> Result<Watches, Memory>
        ensures { IfOk result (λ copied. copied ≡ self.now) }
    {
        let mut by_conn = BTreeMap::new(self.alloc);
        let mut by_name = Names::new(self.alloc);
        for (conn, watched) in self.by_conn.iter() {
            by_name.add_each(watched.watches(), *conn)?;
            put(&mut by_conn, *conn, watched.copy()?)?;
        }
        Ok(Watches {
            alloc: self.alloc,
            by_conn,
            by_name,
        })
    }

    /// Whether nobody watches anything.
    pub fn is_empty(&self) -> bool
        ensures { IsTrue result ↔ (self.now ≡ nobody) }
    {
        self.by_conn.is_empty()
    }

    /// Begins a watch of a key, with the deadline in milliseconds of what it holds, if that is live and has one. It is
    /// one more beside those that the connection has, and no mark is taken away. It takes log n steps for n watches, and
    /// copies the name where nobody watches a key of that name. Where memory runs out nothing changes.
    pub fn watch(
        &mut self,
        conn: ConnId,
        database: Db,
        name: Blob,
        deadline: Option<i64>,
    ) -> Result<(), Memory>
        ensures ok { OnOk result (self.new ≡ record self.old {
          watches = watches_added self.old.watches (connection_of conn)
              (record { key = key_of database name; deadline = deadline } ∷ []);
        }) }
        ensures err { OnErr result (self.new ≡ self.old) }
    {
        begin(
            self.alloc,
            &mut self.by_conn,
            &mut self.by_name,
            conn,
            Watch::new(database, name, deadline),
        )?;
        Ok(())
    }

    /// Marks each connection that watches the key, since what it holds was changed. It takes one look-up where nobody
    /// watches a key of that name, and none where nobody watches anything. A connection that is marked is passed over.
    pub fn touch(&mut self, database: Db, name: &Blob)
        ensures { self.new ≡ touched_at self.old (key_of database name.now) }
    {
        if self.is_empty() {
            return;
        }
        let Some(conns) = self.by_name.at(name) else {
            return;
        };
        mark_each(&mut self.by_conn, conns, database, name);
    }

    /// Marks each connection that watches a key of the database `target` by a name that is live in `source` at the moment `now` in
    /// milliseconds. It takes at most one look-up for each watch, and looks at no other key.
    pub fn touch_all(&mut self, keyspace: &Keyspace, now: u64, source: Db, target: Db)
        ensures { self.new ≡ record self.old {
          touched = touched_by self.old.watches (named_in (live keyspace.now now) source target) self.old.touched;
        } }
    {
        mark_named(&mut self.by_conn, keyspace, now, source, target);
    }

    /// Whether a key that the connection watches was touched, or has passed the deadline that it had when it was
    /// watched. `now` is in milliseconds. Linear in what the connection watches.
    pub fn is_spoiled(&self, conn: ConnId, now: u64) -> bool
        ensures { let c = connection_of conn in result
            ≡ (set.contains self.now.touched c || list_any (λ w. has_gone now w.deadline) (watches_in self.now.watches c)) }
    {
        let Some(watched) = self.by_conn.get(&conn) else {
            return false;
        };
        watched.is_spoiled(now)
    }

    /// Forgets all that a connection watches, and its mark. It takes m log n steps where it watches m of n.
    pub fn forget(&mut self, conn: ConnId)
        ensures { self.new ≡ record { watches = map.remove self.old.watches (connection_of conn); touched = set.remove self.old.touched (connection_of conn) } }
    {
        let Some(watched) = take(&mut self.by_conn, conn) else {
            return;
        };
        self.by_name.remove_each(watched.watches(), conn);
    }
}

impl Touched for Watches {
    ghost use Rattle.nr_watch.specs.Watching.{touched_at};

    ghost after = { touched_at };

    fn touch(&mut self, database: Db, name: &Blob) -> Result<(), Memory> {
        Watches::touch(self, database, name);
        Ok(())
    }

    fn touch_all(
        &mut self,
        keyspace: &Keyspace,
        now: u64,
        source: Db,
        target: Db,
    ) -> Result<(), Memory> {
        Watches::touch_all(self, keyspace, now, source, target);
        Ok(())
    }
}
