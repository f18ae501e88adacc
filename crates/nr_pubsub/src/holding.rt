// What one connection is subscribed to: two ordered sets of names.
ghost use Rattle.std.specs.Prelude.{◌≡◌, IsTrue, IfOk, OnOk, OnErr, [], slice_get};
ghost use Rattle.std.specs.BTreeSet.{IsOrdered};
ghost use Rattle.std.specs.List.Sorted.{IsStrictlySortedBy};
ghost use Rattle.std.specs.Option.{option_map};
ghost use Rattle.nr_model.specs.Keyspace.{byte_cmp};
ghost use Rattle.nr_model.specs.Names.{with_name, without_name, held, holding_none, how_many_held, subscribed, unsubscribed, with_held};
ghost use Rattle.nr_model.specs.Sequential.Subscribers.{names};

use nr_blob::{Blob, Memory};
use nr_model::command::Kind;
use std::alloc::Global;
use std::collections::BTreeSet;
use std::marker::Model;

/// The channels and patterns that one connection is subscribed to, each once and in byte order.
#[derive(Drop)]
pub struct Holding {
    // Copies are made with it: a set doesn't hand its own out.
    alloc: Global,
    channels: BTreeSet<Blob>,
    patterns: BTreeSet<Blob>,
}

impl Model for Holding {
    ghost use Rattle.std.specs.BTreeSet.{IsOrdered};
    ghost use Rattle.nr_model.specs.Keyspace.{byte_cmp};
    ghost use Rattle.nr_model.specs.Names.{Held};
    ghost use Rattle.nr_pubsub.specs.Holdings.{coded_held};

    ghost Value = { Held };

    ghost coded = { coded_held };

    ghost view = { λ h. record { channels = h.channels.keys; patterns = h.patterns.keys } };

    ghost invariant = { λ h. IsOrdered byte_cmp h.channels × IsOrdered byte_cmp h.patterns };
}

fn add(names: &mut BTreeSet<Blob>, name: Blob) -> Result<(), Memory>
    ensures ok { OnOk result (names.new.keys ≡ with_name names.old.keys name) }
    ensures err { OnErr result (names.new ≡ names.old) }
    ensures ordered { IsOrdered byte_cmp names.new }
{
    names.insert(name)?;
    Ok(())
}

fn remove(names: &mut BTreeSet<Blob>, name: &Blob)
    requires { IsOrdered byte_cmp names.old }
    ensures removed { names.new.keys ≡ without_name names.old.keys name.now }
    ensures ordered { IsOrdered byte_cmp names.new }
{
    names.remove(name);
}

fn contains(set: &BTreeSet<Blob>, name: &Blob) -> bool
    requires { IsOrdered byte_cmp set.now }
    ensures test { result ≡ names set.now.keys name.now }
    ensures again { IsTrue result → with_name set.now.keys name.now ≡ set.now.keys }
{
    set.contains(name)
}

fn copy(alloc: Global, names: &BTreeSet<Blob>) -> Result<BTreeSet<Blob>, Memory>
    ensures same { IfOk result (λ copied. copied.keys ≡ names.now.keys) }
    ensures ordered { IfOk result (λ copied. IsOrdered byte_cmp copied) }
{
    let mut copied = BTreeSet::new(alloc);
    for name in names {
        copied.insert(name.copy()?)?;
    }
    Ok(copied)
}

impl Holding {
    /// Subscribed to nothing.
    pub fn new(alloc: Global) -> Holding
        ensures { result ≡ holding_none }
    {
        Holding {
            alloc,
            channels: BTreeSet::new(alloc),
            patterns: BTreeSet::new(alloc),
        }
    }

    /// The same names once more. Linear in their bytes.
    pub fn copy(&self) -> Result<Holding, Memory>
        ensures { IfOk result (λ copied. copied ≡ self.now) }
    {
        Ok(Holding {
            alloc: self.alloc,
            channels: copy(self.alloc, &self.channels)?,
            patterns: copy(self.alloc, &self.patterns)?,
        })
    }

    /// The names of a kind.
    pub(crate) fn names(&self, kind: Kind) -> &BTreeSet<Blob>
        ensures names { result.now.keys ≡ held kind self.now }
        ensures ordered { IsStrictlySortedBy byte_cmp result.now.keys }
    {
        match kind {
            Kind::Channels => &self.channels,
            Kind::Patterns => &self.patterns,
        }
    }

    /// Subscribes to a channel or pattern, if it isn't held yet. Logarithmic. Where memory runs out nothing changes.
    pub fn subscribe(&mut self, kind: Kind, name: Blob) -> Result<(), Memory>
        ensures ok { OnOk result (self.new ≡ subscribed kind self.old name) }
        ensures err { OnErr result (self.new ≡ self.old) }
    {
        match kind {
            Kind::Channels => add(&mut self.channels, name),
            Kind::Patterns => add(&mut self.patterns, name),
        }
    }

    /// Gives a channel or pattern up, if it is held. Logarithmic; it takes no memory.
    pub fn unsubscribe(&mut self, kind: Kind, name: &Blob)
        ensures { self.new ≡ unsubscribed kind self.old name.now }
    {
        match kind {
            Kind::Channels => remove(&mut self.channels, name),
            Kind::Patterns => remove(&mut self.patterns, name),
        }
    }

    /// Gives all of a kind up. Linear in what is given up.
    pub fn clear(&mut self, kind: Kind)
        ensures { self.new ≡ with_held kind [] self.old }
    {
        match kind {
            Kind::Channels => self.channels.clear(),
            Kind::Patterns => self.patterns.clear(),
        }
    }

    /// Whether a channel or pattern is held. Logarithmic. To subscribe to it again changes nothing.
    pub fn holds(&self, kind: Kind, name: &Blob) -> bool
        ensures test { result ≡ names (held kind self.now) name.now }
        ensures again { IsTrue result → subscribed kind self.now name.now ≡ self.now }
    {
        match kind {
            Kind::Channels => contains(&self.channels, name),
            Kind::Patterns => contains(&self.patterns, name),
        }
    }

    /// How many channels and patterns together. In constant time.
    pub fn count(&self) -> usize
        ensures { result ≡ how_many_held self.now }
    {
        self.channels.len() + self.patterns.len()
    }

    /// The least name of a kind, in byte order. Logarithmic.
    pub fn first(&self, kind: Kind) -> Option<&Blob>
        ensures first { option_map (λ name. name.now) result ≡ slice_get (held kind self.now) 0 }
        ensures ordered { IsStrictlySortedBy byte_cmp (held kind self.now) }
    {
        self.names(kind).first()
    }
}
