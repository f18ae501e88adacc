// What one connection watches.
ghost use Rattle.std.specs.Prelude.{◌≡◌, ◌||◌, false, List, [], ◌∷◌, ◌++◌, IfOk, IfErr, OnOk, OnErr};
ghost use Rattle.std.specs.List.{list_any};
ghost use Rattle.nr_model.specs.Keyspace.{live};
ghost use Rattle.nr_model.specs.Sequential.Watches.{same_key};
ghost use Rattle.nr_model.specs.Servers as model;
ghost use Rattle.nr_keyspace.specs.Joined.{key_of};
ghost use Rattle.nr_watch.specs.Kept.{marked_at, is_named_in, marked_where};

use crate::watch::Watch;
use nr_blob::{Blob, Memory};
use nr_keyspace::{Db, Keyspace};
use std::alloc::Global;
use std::marker::Model;

/// The watches of a connection in the order in which they were begun, at least one, and whether a key of them was
/// touched.
#[derive(Drop)]
pub(crate) struct Watched {
    watches: Vec<Watch>,
    touched: bool,
}

impl Model for Watched {
    ghost use Rattle.std.specs.Prelude.{◌≡◌, []};
    ghost use Rattle.nr_watch.specs.Kept.{Watcher, coded_watcher};

    ghost Value = { Watcher };

    ghost coded = { coded_watcher };

    ghost view = { λ w. record { watches = w.watches.items; touched = w.touched } };

    ghost invariant = { λ w. w.watches.items ≡ [] → ⊥ };
}

impl Watched {
    /// Where memory runs out the watch comes back.
    pub(crate) fn new(alloc: Global, watch: Watch) -> Result<Watched, (Watch, Memory)>
        ensures ok { IfOk result (λ watched. watched ≡ record { watches = watch ∷ []; touched = false }) }
        ensures err { IfErr result (λ back. back.0 ≡ watch) }
    {
        let mut watches = Vec::new(alloc);
        match watches.push(watch) {
            Ok(()) => Ok(Watched {
                watches,
                touched: false,
            }),
            Err(failed) => Err(Memory::giving_back(failed)),
        }
    }

    /// The first of its watches alone.
    pub(crate) fn into_first(self) -> Watch
        ensures { (watch : model.Watch) (others : List model.Watch) → self.watches ≡ watch ∷ others → result ≡ watch }
    {
        let mut watches = self.watches;
        watches.remove(0)
    }

    /// The same once more. Linear in what it watches.
    pub(crate) fn copy(&self) -> Result<Watched, Memory>
        ensures { IfOk result (λ watched. watched ≡ self.now) }
    {
        Ok(Watched {
            watches: copy_each(&self.watches)?,
            touched: self.touched,
        })
    }

    pub(crate) fn watches(&self) -> &[Watch]
        ensures { result.now ≡ self.now.watches }
    {
        &self.watches
    }

    /// Where memory runs out nothing changes, and the watch comes back.
    pub(crate) fn add(&mut self, watch: Watch) -> Result<(), (Watch, Memory)>
        ensures ok { OnOk result (self.new ≡ record self.old { watches = self.old.watches ++ watch ∷ [] }) }
        ensures err { OnErr result (self.new ≡ self.old) }
        ensures back { IfErr result (λ back. back.0 ≡ watch) }
    {
        match self.watches.push(watch) {
            Ok(()) => Ok(()),
            Err(failed) => Err(Memory::giving_back(failed)),
        }
    }

    /// Remembers that a key was touched, if it is watched. Where one was touched before it looks at nothing.
    pub(crate) fn mark(&mut self, database: Db, name: &Blob)
        ensures { self.new ≡ marked_at (key_of database name.now) self.old }
    {
        if self.touched {
            return;
        }
        self.touched = has_key(&self.watches, database, name);
    }

    /// Remembers that the keys of the database `target` by the names that are live in `source` were touched, if one of them is
    /// watched. At most one look-up a watch; where one was touched before it looks at nothing.
    pub(crate) fn mark_named(&mut self, keyspace: &Keyspace, now: u64, source: Db, target: Db)
        ensures { self.new ≡ marked_where (is_named_in (live keyspace.now now) source target) self.old }
    {
        if self.touched {
            return;
        }
        self.touched = has_named(&self.watches, keyspace, now, source, target);
    }

    /// Whether a key was touched, or has passed its deadline.
    pub(crate) fn is_spoiled(&self, now: u64) -> bool
        ensures { result ≡ (self.now.touched || list_any (λ w. model.has_gone now w.deadline) self.now.watches) }
    {
        self.touched || has_gone(&self.watches, now)
    }
}

fn copy_each(watches: &Vec<Watch>) -> Result<Vec<Watch>, Memory>
    ensures { IfOk result (λ copies. copies.items ≡ watches.now.items) }
{
    let mut copies = Vec::with_capacity(*watches.allocator(), watches.len())?;
    for watch in watches {
        copies.push(watch.copy()?)?;
    }
    Ok(copies)
}

// Whether one is of this key.
fn has_key(watches: &[Watch], database: Db, name: &Blob) -> bool
    ensures { result ≡ list_any (λ watch. same_key watch.key (key_of database name.now)) watches.now }
{
    watches.iter().any(|watch| watch.is_of(database, name))
}

// Whether one is of the database `target`, by a name that is live in `source`.
fn has_named(watches: &[Watch], keyspace: &Keyspace, now: u64, source: Db, target: Db) -> bool
    ensures { result ≡ list_any (λ watch. is_named_in (live keyspace.now now) source target watch.key) watches.now }
{
    watches
        .iter()
        .any(|watch| watch.is_named_in(keyspace, now, source, target))
}

// Whether what one saw live has passed its deadline.
fn has_gone(watches: &[Watch], now: u64) -> bool
    ensures { result ≡ list_any (λ watch. model.has_gone now watch.deadline) watches.now }
{
    watches.iter().any(|watch| watch.has_gone(now))
}
