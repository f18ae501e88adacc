// An index for channels and one for patterns.
ghost use Rattle.std.specs.Prelude.{◌≡◌, IfOk, OnOk, OnErr};
ghost use Rattle.std.specs.Option.{option_map};
ghost use Rattle.std.specs.FinMap as finmap;
ghost use Rattle.nr_model.specs.Names.{put};
ghost use Rattle.nr_model.specs.Items.{connection_cmp};
ghost use Rattle.nr_model.specs.declared.command.Kind.{Kind};
ghost use Rattle.nr_entry.specs.Jobs.{connection_of};
ghost use Rattle.nr_pubsub.specs.Standings.{connections, standing_at, standing_entries, without};
ghost use Rattle.nr_pubsub.specs.Indices.{standing, ArePlaced, AreLeft};

use crate::holding::Holding;
use crate::index::Index;
use nr_blob::{Blob, Memory};
use nr_entry::ConnId;
use nr_model::command::Kind;
use std::alloc::Global;
use std::collections::{BTreeMap, BTreeSet};

/// Who stands at which channel, and who at which pattern.
#[derive(Drop)]
pub(crate) struct Indices {
    channels: Index,
    patterns: Index,
}

impl Indices {
    pub(crate) fn new(alloc: Global) -> Indices
        ensures { (kind : Kind) → standing kind result ≡ finmap.empty }
    {
        Indices {
            channels: Index::new(alloc),
            patterns: Index::new(alloc),
        }
    }

    /// The same once more. Linear in what is held.
    pub(crate) fn copy(&self) -> Result<Indices, Memory>
        ensures { IfOk result (λ copied. copied ≡ self.now) }
    {
        Ok(Indices {
            channels: self.channels.copy()?,
            patterns: self.patterns.copy()?,
        })
    }

    fn of_kind(&self, kind: Kind) -> &Index
        ensures { result.now ≡ standing kind self.now }
    {
        match kind {
            Kind::Channels => &self.channels,
            Kind::Patterns => &self.patterns,
        }
    }

    /// Who stands at a name, if anybody does.
    pub(crate) fn get(&self, kind: Kind, name: &Blob) -> Option<&BTreeSet<ConnId>>
        ensures { option_map (λ set. connections set.now.keys) result ≡ finmap.get (standing kind self.now) name.now }
    {
        self.of_kind(kind).get(name)
    }

    /// Each name of a kind with those who stand there.
    pub(crate) fn by_name(&self, kind: Kind) -> &BTreeMap<Blob, BTreeSet<ConnId>>
        ensures { standing_entries result.now.entries ≡ finmap.entries (standing kind self.now) }
    {
        self.of_kind(kind).by_name()
    }

    /// Puts a connection at a name.
    pub(crate) fn add(&mut self, kind: Kind, name: &Blob, conn: ConnId) -> Result<(), Memory>
        ensures ok { OnOk result (ArePlaced kind self.old self.new name.now
            (put connection_cmp (connection_of conn) (standing_at (standing kind self.old) name.now))) }
        ensures err { OnErr result (self.new ≡ self.old) }
    {
        match kind {
            Kind::Channels => self.channels.add(name, conn),
            Kind::Patterns => self.patterns.add(name, conn),
        }
    }

    /// Takes a connection away from a name, if it stands there. It takes no memory.
    pub(crate) fn remove(&mut self, kind: Kind, name: &Blob, conn: ConnId)
        ensures { ArePlaced kind self.old self.new name.now (without (connection_of conn) (standing_at (standing kind self.old) name.now)) }
    {
        match kind {
            Kind::Channels => self.channels.remove(name, conn),
            Kind::Patterns => self.patterns.remove(name, conn),
        }
    }

    /// Takes a connection away from all that it holds. It takes no memory.
    pub(crate) fn remove_all(&mut self, holding: &Holding, conn: ConnId)
        ensures { AreLeft self.old self.new holding.now (connection_of conn) }
    {
        self.channels
            .remove_each(holding.names(Kind::Channels), conn);
        self.patterns
            .remove_each(holding.names(Kind::Patterns), conn);
    }
}
