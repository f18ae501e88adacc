// The connections at each name, so that a message finds them by one look-up.
ghost use Rattle.std.specs.Prelude.{◌≡◌, [], ◌∷◌, ◌↔◌, IsTrue, IfOk, OnOk, OnErr, cond};
ghost use Rattle.std.specs.List.Sorted.{IsStrictlySortedBy};
ghost use Rattle.std.specs.Map.{keys_of};
ghost use Rattle.std.specs.Option.{option_map};
ghost use Rattle.std.specs.Ordering.{eq_by_cmp};
ghost use Rattle.std.specs.List.{list_any};
ghost use Rattle.std.specs.FinMap as finmap;
ghost use Rattle.nr_model.specs.Bytes.{Bytes};
ghost use Rattle.nr_model.specs.Keyspace.{byte_cmp};
ghost use Rattle.nr_model.specs.Names.{put};
ghost use Rattle.nr_model.specs.Items.{connection_cmp};
ghost use Rattle.nr_entry.specs.Jobs.{connection_of};
ghost use Rattle.nr_pubsub.specs.Standings.{connections, standing_at, standing_entries, standing_of, without, IsPlaced, IsLeft};

use nr_blob::{Blob, Memory};
use nr_entry::ConnId;
use std::alloc::Global;
use std::collections::{BTreeMap, BTreeSet};
use std::marker::Model;

/// The connections at each name. A name at which none stands takes no room.
#[derive(Drop)]
pub(crate) struct Index {
    alloc: Global,
    by_name: BTreeMap<Blob, BTreeSet<ConnId>>,
}

impl Model for Index {
    ghost use Rattle.nr_pubsub.specs.Standings.{Standing, coded_standing, standing_of, IsInOrder};

    ghost Value = { Standing };

    ghost coded = { coded_standing };

    ghost view = { λ i. standing_of i.by_name.entries };

    ghost invariant = { λ i. IsInOrder i.by_name.entries };
}

fn join(set: &mut BTreeSet<ConnId>, conn: ConnId) -> Result<(), Memory>
    ensures ok { OnOk result (connections set.new.keys ≡ put connection_cmp (connection_of conn) (connections set.old.keys)) }
    ensures err { OnErr result (set.new ≡ set.old) }
    ensures ordered { IsStrictlySortedBy connection_cmp (connections set.new.keys) }
{
    set.insert(conn)?;
    Ok(())
}

fn alone(alloc: Global, conn: ConnId) -> Result<BTreeSet<ConnId>, Memory>
    ensures { IfOk result (λ set. connections set.keys ≡ connection_of conn ∷ []) }
{
    let mut set = BTreeSet::new(alloc);
    join(&mut set, conn)?;
    Ok(set)
}

// Whether nobody is left.
fn leave(set: &mut BTreeSet<ConnId>, conn: ConnId) -> bool
    requires { IsStrictlySortedBy connection_cmp (connections set.old.keys) }
    ensures left { connections set.new.keys ≡ without (connection_of conn) (connections set.old.keys) }
    ensures ordered { IsStrictlySortedBy connection_cmp (connections set.new.keys) }
    ensures empty { IsTrue result ↔ (connections set.new.keys ≡ []) }
{
    set.remove(&conn);
    set.is_empty()
}

fn copy_set(set: &BTreeSet<ConnId>) -> Result<BTreeSet<ConnId>, Memory>
    ensures { IfOk result (λ copied. copied.keys ≡ set.now.keys) }
{
    Ok(set.clone()?)
}

fn copy_each(
    alloc: Global,
    by_name: &BTreeMap<Blob, BTreeSet<ConnId>>,
) -> Result<BTreeMap<Blob, BTreeSet<ConnId>>, Memory>
    ensures same { IfOk result (λ copied. standing_of copied.entries ≡ standing_of by_name.now.entries) }
    ensures ordered { IfOk result (λ copied. IsStrictlySortedBy byte_cmp (keys_of copied.entries)) }
{
    let mut copied = BTreeMap::new(alloc);
    for (name, set) in by_name.iter() {
        let set = copy_set(set)?;
        copied.insert(name.copy()?, set)?;
    }
    Ok(copied)
}

impl Index {
    /// Nobody at any name.
    pub(crate) fn new(alloc: Global) -> Index
        ensures { result ≡ finmap.empty }
    {
        Index {
            alloc,
            by_name: BTreeMap::new(alloc),
        }
    }

    /// The same once more. Linear in what is held.
    pub(crate) fn copy(&self) -> Result<Index, Memory>
        ensures { IfOk result (λ copied. copied ≡ self.now) }
    {
        Ok(Index {
            alloc: self.alloc,
            by_name: copy_each(self.alloc, &self.by_name)?,
        })
    }

    /// Who stands at a name, if anybody does.
    pub(crate) fn get(&self, name: &Blob) -> Option<&BTreeSet<ConnId>>
        ensures { option_map (λ set. connections set.now.keys) result ≡ finmap.get self.now name.now }
    {
        self.by_name.get(name)
    }

    /// Each name with those who stand there.
    pub(crate) fn by_name(&self) -> &BTreeMap<Blob, BTreeSet<ConnId>>
        ensures { standing_entries result.now.entries ≡ finmap.entries self.now }
    {
        &self.by_name
    }

    /// Puts a connection at a name. The name is copied where nobody stood there.
    pub(crate) fn add(&mut self, name: &Blob, conn: ConnId) -> Result<(), Memory>
        ensures ok { OnOk result (IsPlaced self.old self.new name.now (put connection_cmp (connection_of conn) (standing_at self.old name.now))) }
        ensures err { OnErr result (self.new ≡ self.old) }
    {
        match self.by_name.get_mut(name) {
            Some(set) => join(set, conn),
            None => self.begin(name, conn),
        }
    }

    // Puts a connection at a name where nobody stands.
    fn begin(&mut self, name: &Blob, conn: ConnId) -> Result<(), Memory>
        ensures ok { OnOk result (IsPlaced self.old self.new name.now (connection_of conn ∷ [])) }
        ensures err { OnErr result (self.new ≡ self.old) }
    {
        let set = alone(self.alloc, conn)?;
        self.by_name.insert(name.copy()?, set)?;
        Ok(())
    }

    /// Takes a connection away from a name, if it stands there. It takes no memory.
    pub(crate) fn remove(&mut self, name: &Blob, conn: ConnId)
        ensures { IsPlaced self.old self.new name.now (without (connection_of conn) (standing_at self.old name.now)) }
    {
        let is_empty = match self.by_name.get_mut(name) {
            Some(set) => leave(set, conn),
            None => return,
        };
        if is_empty {
            self.by_name.remove(name);
        }
    }
    /// Takes a connection away from each of these names. It takes no memory.
    pub(crate) fn remove_each(&mut self, names: &BTreeSet<Blob>, conn: ConnId)
        ensures { IsLeft self.old self.new names.now.keys (connection_of conn) }
    {
        for name in names {
            self.remove(name, conn);
        }
    }
}
