// What each connection holds.
ghost use Rattle.std.specs.Prelude.{◌≡◌, ◌==◌, IsTrue, IfOk, OnOk, OnErr, slice_get};
ghost use Rattle.std.specs.Option.{option_map};
ghost use Rattle.std.specs.List.Sorted.{IsStrictlySortedBy};
ghost use Rattle.std.specs.FinMap as finmap;
ghost use Rattle.nr_model.specs.Keyspace.{byte_cmp};
ghost use Rattle.nr_model.specs.Names.{held, how_many_held, holding_none, subscribed, unsubscribed};
ghost use Rattle.nr_model.specs.Sequential.Subscribers.{names};
ghost use Rattle.nr_model.specs.Servers.{held_in, with_held_by};
ghost use Rattle.nr_entry.specs.Jobs.{connection_of};
ghost use Rattle.nr_pubsub.specs.Holdings.{all_held_of};

use crate::holding::Holding;
use nr_blob::{Blob, Memory};
use nr_entry::ConnId;
use nr_model::command::Kind;
use std::alloc::Global;
use std::collections::BTreeMap;
use std::marker::Model;

/// What each connection holds. A connection that holds nothing takes no room.
#[derive(Drop)]
pub(crate) struct Holders {
    alloc: Global,
    by_conn: BTreeMap<ConnId, Holding>,
}

impl Model for Holders {
    ghost use Rattle.nr_pubsub.specs.Holdings.{AllHeld, coded_all_held, all_held_of};

    ghost Value = { AllHeld };

    ghost coded = { coded_all_held };

    ghost view = { λ h. all_held_of h.by_conn.entries };
}

fn copy_each(
    alloc: Global,
    by_conn: &BTreeMap<ConnId, Holding>,
) -> Result<BTreeMap<ConnId, Holding>, Memory>
    ensures { IfOk result (λ copied. all_held_of copied.entries ≡ all_held_of by_conn.now.entries) }
{
    let mut copied = BTreeMap::new(alloc);
    for (conn, holding) in by_conn.iter() {
        copied.insert(*conn, holding.copy()?)?;
    }
    Ok(copied)
}

// Whether nothing is left.
fn give_up(holding: &mut Holding, kind: Kind, name: &Blob) -> bool
    ensures left { holding.new ≡ unsubscribed kind holding.old name.now }
    ensures empty { result ≡ (how_many_held holding.new == 0) }
{
    holding.unsubscribe(kind, name);
    holding.count() == 0
}

impl Holders {
    /// Nobody holds anything.
    pub(crate) fn new(alloc: Global) -> Holders
        ensures { result ≡ finmap.empty }
    {
        Holders {
            alloc,
            by_conn: BTreeMap::new(alloc),
        }
    }

    /// The same once more. Linear in what is held.
    pub(crate) fn copy(&self) -> Result<Holders, Memory>
        ensures { IfOk result (λ copied. copied ≡ self.now) }
    {
        Ok(Holders {
            alloc: self.alloc,
            by_conn: copy_each(self.alloc, &self.by_conn)?,
        })
    }

    fn get(&self, conn: ConnId) -> Option<&Holding>
        ensures { option_map (λ holding. holding.now) result ≡ finmap.get self.now (connection_of conn) }
    {
        self.by_conn.get(&conn)
    }

    /// How many channels and patterns a connection holds.
    pub(crate) fn count(&self, conn: ConnId) -> usize
        ensures { result ≡ how_many_held (held_in self.now (connection_of conn)) }
    {
        match self.get(conn) {
            Some(holding) => holding.count(),
            None => 0,
        }
    }

    /// The least name of a kind that a connection holds.
    pub(crate) fn first(&self, conn: ConnId, kind: Kind) -> Option<&Blob>
        ensures first { option_map (λ name. name.now) result ≡ slice_get (held kind (held_in self.now (connection_of conn))) 0 }
        ensures ordered { IsStrictlySortedBy byte_cmp (held kind (held_in self.now (connection_of conn))) }
    {
        match self.get(conn) {
            Some(holding) => holding.first(kind),
            None => None,
        }
    }

    /// Whether a connection holds a name. To subscribe to it again changes nothing.
    pub(crate) fn holds(&self, conn: ConnId, kind: Kind, name: &Blob) -> bool
        ensures test { result ≡ names (held kind (held_in self.now (connection_of conn))) name.now }
        ensures again { let h = held_in self.now (connection_of conn) in IsTrue result → subscribed kind h name.now ≡ h }
    {
        match self.get(conn) {
            Some(holding) => holding.holds(kind, name),
            None => false,
        }
    }

    /// Subscribes a connection to a name. Where memory runs out nothing changes.
    pub(crate) fn subscribe(&mut self, conn: ConnId, kind: Kind, name: Blob) -> Result<(), Memory>
        ensures ok { let c = connection_of conn in OnOk result (self.new ≡ finmap.insert self.old c (subscribed kind (held_in self.old c) name)) }
        ensures err { OnErr result (self.new ≡ self.old) }
    {
        match self.by_conn.get_mut(&conn) {
            Some(holding) => holding.subscribe(kind, name),
            None => self.begin(conn, kind, name),
        }
    }

    // Subscribes a connection that holds nothing.
    fn begin(&mut self, conn: ConnId, kind: Kind, name: Blob) -> Result<(), Memory>
        ensures ok { OnOk result (self.new ≡ finmap.insert self.old (connection_of conn) (subscribed kind holding_none name)) }
        ensures err { OnErr result (self.new ≡ self.old) }
    {
        let mut holding = Holding::new(self.alloc);
        holding.subscribe(kind, name)?;
        self.by_conn.insert(conn, holding)?;
        Ok(())
    }

    /// Gives a name of a connection up. It takes no memory.
    pub(crate) fn unsubscribe(&mut self, conn: ConnId, kind: Kind, name: &Blob)
        ensures { let c = connection_of conn in self.new ≡ with_held_by self.old c (unsubscribed kind (held_in self.old c) name.now) }
    {
        let is_empty = match self.by_conn.get_mut(&conn) {
            Some(holding) => give_up(holding, kind, name),
            None => return,
        };
        if is_empty {
            self.by_conn.remove(&conn);
        }
    }

    /// Takes out all that a connection holds, if it holds anything.
    pub(crate) fn take(&mut self, conn: ConnId) -> Option<Holding>
        ensures taken { result ≡ finmap.get self.old (connection_of conn) }
        ensures removed { self.new ≡ finmap.remove self.old (connection_of conn) }
    {
        self.by_conn.remove(&conn)
    }
}
