// Who is subscribed to what, from both sides: what each connection holds, and who stands at each name.
ghost use Rattle.std.specs.Prelude.{◌≡◌, [], false, IfOk, OnOk, OnErr, unwrap_or, slice_get};
ghost use Rattle.std.specs.Option.{option_map};
ghost use Rattle.std.specs.List.Sorted.{IsStrictlySortedBy};
ghost use Rattle.std.specs.FinMap as finmap;
ghost use Rattle.nr_model.specs.Keyspace.{byte_cmp};
ghost use Rattle.nr_model.specs.Names.{held, how_many_held, subscribed, unsubscribed};
ghost use Rattle.nr_model.specs.Sequential.Subscribers.{names};
ghost use Rattle.nr_model.specs.Servers.{held_in, with_held_by, subscribers_in};
ghost use Rattle.nr_entry.specs.Jobs.{connection_of};
ghost use Rattle.nr_pubsub.specs.Indices.{listed_in};
ghost use Rattle.nr_pubsub.specs.Standings.{connections, standing_entries};

use crate::holders::Holders;
use crate::indices::Indices;
use nr_blob::{Blob, Memory};
use nr_entry::ConnId;
use nr_model::command::Kind;
use std::alloc::Global;
use std::collections::{BTreeMap, BTreeSet};
use std::marker::Model;

/// Who is subscribed to what. SUBSCRIBE, UNSUBSCRIBE, PUBLISH and PUBSUB ask it (Redis reference, pub/sub).
#[derive(Drop)]
pub struct Subs {
    holders: Holders,
    indices: Indices,
}

impl Model for Subs {
    ghost use Rattle.nr_pubsub.specs.Holdings.{AllHeld, coded_all_held};
    ghost use Rattle.nr_pubsub.specs.Indices.{AreExact};

    ghost Value = { AllHeld };

    ghost coded = { coded_all_held };

    ghost view = { λ s. s.holders };

    ghost invariant = { λ s. AreExact s.holders s.indices };
}

impl Subs {
    /// Nobody is subscribed to anything.
    pub fn new(alloc: Global) -> Subs
        ensures { result ≡ finmap.empty }
    {
        Subs {
            holders: Holders::new(alloc),
            indices: Indices::new(alloc),
        }
    }

    /// The same once more. Linear in what is held.
    pub fn copy(&self) -> Result<Subs, Memory>
        ensures { IfOk result (λ copied. copied ≡ self.now) }
    {
        Ok(Subs {
            holders: self.holders.copy()?,
            indices: self.indices.copy()?,
        })
    }

    /// Subscribes a connection to a channel or pattern, and says how many of both it then holds. Logarithmic. Where
    /// memory runs out nothing changes.
    pub fn subscribe(&mut self, conn: ConnId, kind: Kind, name: Blob) -> Result<usize, Memory>
        ensures ok { let c = connection_of conn in OnOk result (self.new ≡ with_held_by self.old c (subscribed kind (held_in self.old c) name)) }
        ensures count { IfOk result (λ count. count ≡ how_many_held (subscribed kind (held_in self.old (connection_of conn)) name)) }
        ensures err { OnErr result (self.new ≡ self.old) }
    {
        if self.holders.holds(conn, kind, &name) {
            return Ok(self.count(conn));
        }
        self.begin(conn, kind, name)?;
        Ok(self.count(conn))
    }

    // Subscribes a connection to what it doesn't hold.
    fn begin(&mut self, conn: ConnId, kind: Kind, name: Blob) -> Result<(), Memory>
        requires { names (held kind (held_in self.old (connection_of conn))) name ≡ false }
        ensures ok { let c = connection_of conn in OnOk result (self.new ≡ finmap.insert self.old c (subscribed kind (held_in self.old c) name)) }
        ensures err { OnErr result (self.new ≡ self.old) }
    {
        let held_name = name.copy()?;
        self.indices.add(kind, &name, conn)?;
        if let Err(refused) = self.holders.subscribe(conn, kind, held_name) {
            self.indices.remove(kind, &name, conn);
            return Err(refused);
        }
        Ok(())
    }

    /// Gives a channel or pattern of a connection up, if it holds that, and says how many of both it holds then.
    /// Logarithmic; it takes no memory.
    pub fn unsubscribe(&mut self, conn: ConnId, kind: Kind, name: &Blob) -> usize
        ensures left { let c = connection_of conn in self.new ≡ with_held_by self.old c (unsubscribed kind (held_in self.old c) name.now) }
        ensures count { result ≡ how_many_held (unsubscribed kind (held_in self.old (connection_of conn)) name.now) }
    {
        self.holders.unsubscribe(conn, kind, name);
        self.indices.remove(kind, name, conn);
        self.count(conn)
    }

    /// How many channels and patterns together a connection holds: what holds none isn't remembered. Logarithmic.
    pub fn count(&self, conn: ConnId) -> usize
        ensures count { result ≡ how_many_held (held_in self.now (connection_of conn)) }
        ensures kept { let c = connection_of conn in with_held_by self.now c (held_in self.now c) ≡ self.now }
    {
        self.holders.count(conn)
    }

    /// The least channel or pattern that a connection holds, in byte order. Logarithmic.
    pub fn first(&self, conn: ConnId, kind: Kind) -> Option<&Blob>
        ensures first { option_map (λ name. name.now) result ≡ slice_get (held kind (held_in self.now (connection_of conn))) 0 }
        ensures ordered { IsStrictlySortedBy byte_cmp (held kind (held_in self.now (connection_of conn))) }
    {
        self.holders.first(conn, kind)
    }

    /// The connections that hold a channel or pattern, in order; `None` where there are none. One look-up.
    pub fn subscribers(&self, kind: Kind, name: &Blob) -> Option<&BTreeSet<ConnId>>
        ensures { unwrap_or (option_map (λ set. connections set.now.keys) result) [] ≡ subscribers_in self.now kind name.now }
    {
        self.indices.get(kind, name)
    }

    /// Each channel or pattern that some connection holds, in byte order, with those connections. In constant time.
    pub fn by_name(&self, kind: Kind) -> &BTreeMap<Blob, BTreeSet<ConnId>>
        ensures { standing_entries result.now.entries ≡ listed_in self.now kind }
    {
        self.indices.by_name(kind)
    }

    /// Gives all up that a connection holds. It takes no memory, and a look-up for each name held.
    pub fn forget(&mut self, conn: ConnId)
        ensures { self.new ≡ finmap.remove self.old (connection_of conn) }
    {
        if let Some(holding) = self.holders.take(conn) {
            self.indices.remove_all(&holding, conn);
        }
    }
}
