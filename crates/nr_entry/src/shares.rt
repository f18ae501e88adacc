// An entry, shared by all nodes.
ghost use Rattle.std.specs.Prelude.{◌≡◌, ◌<◌, ◌+◌, ◌++◌, length, map, slice_index_or, slice_set, option_map, Some, None, IfOk, IfErr, IfSome, OnOk, replicate};
ghost use Rattle.std.specs.Arc.{arc_value};
ghost use Rattle.std.specs.Vec.{vec_len, vec_capacity};
ghost use Rattle.nr_entry.specs.Shares.{entry_of};

use crate::entry::Entry;
use nr_blob::Memory;
use std::alloc::Global;
use std::marker::Model;
use std::sync::Arc;

/// An entry whose shares aren't made yet: as it is, or as one share of it.
#[derive(Drop)]
pub enum Unshared {
    Whole(Entry),
    One(Arc<Entry, Global>),
}

/// One share of an entry for each node that hasn't got its own yet. Contracts see a list: at each node's place the entry, or `None` where
/// the share was taken out.
#[derive(Drop)]
pub struct Shares {
    shares: Vec<Option<Arc<Entry, Global>>>,
}

impl Model for Shares {
    ghost use Rattle.std.specs.Prelude.{List, Option, option_map, map};
    ghost use Rattle.std.specs.Arc.{arc_value};
    ghost use Rattle.std.specs.Coded.{codes};
    ghost use Rattle.nr_entry.specs.declared.entry.Entry.{Entry};
    ghost use Rattle.nr_entry.specs.contracts.entry.Entry as of_entry;

    ghost Value = { List (Option Entry) };

    ghost coded = { Prim.hlevel (codes, of_entry.the_row.coded) };

    ghost view = { λ s. map (option_map arc_value) s.shares.items };
}

impl Shares {
    ghost use Rattle.std.specs.Prelude.{◌≡◌, ◌<◌, length, slice_index_or, slice_set, option_map, Some, None, IfOk, IfErr, IfSome};
    ghost use Rattle.std.specs.Arc.{arc_value};
    ghost use Rattle.nr_entry.specs.Shares.{shares_of, entry_of};

    /// No shares of anything. It takes no memory.
    pub fn none(alloc: Global) -> Shares
        ensures { length result ≡ 0 }
    {
        Shares {
            shares: Vec::new(alloc),
        }
    }

    /// A share for each of the nodes 0 to `nodes - 1`, which takes one block for the entry, unless it has one already, and one for the list.
    ///
    /// # Errors
    ///
    /// Where memory is refused the entry comes back, in whatever form it has then.
    pub fn of(alloc: Global, entry: Unshared, nodes: usize) -> Result<Shares, (Unshared, Memory)>
        requires { 0 < nodes }
        ensures ok { IfOk result (λ shares. shares ≡ shares_of (entry_of entry) nodes) }
        ensures err { IfErr result (λ back. entry_of back.0 ≡ entry_of entry) }
    {
        let mut shares = match Vec::with_capacity(alloc, nodes) {
            Ok(shares) => shares,
            Err(error) => return Err((entry, error.into())),
        };
        let last = one_share(alloc, entry)?;
        match add_clones(&mut shares, &last, nodes - 1) {
            Ok(()) => {
                shares.push_reserved(Some(last));
                Ok(Shares { shares })
            }
            Err(memory) => Err((Unshared::One(last), memory)),
        }
    }

    /// The share of a node, which is then gone from here.
    pub fn take(&mut self, node: usize) -> Option<Arc<Entry, Global>>
        requires { node < length self.old }
        ensures share { option_map arc_value result ≡ slice_index_or self.old node None }
        ensures others { self.new ≡ slice_set self.old node None }
    {
        self.shares[node].take()
    }

    /// The share of a node, to look at.
    pub fn get(&self, node: usize) -> &Option<Arc<Entry, Global>>
        requires { node < length self.now }
        ensures { option_map arc_value result.now ≡ slice_index_or self.now node None }
    {
        &self.shares[node]
    }
}

// The entry as one share of it. Where memory is refused it comes back.
fn one_share(alloc: Global, entry: Unshared) -> Result<Arc<Entry, Global>, (Unshared, Memory)>
    ensures ok { IfOk result (λ one. arc_value one ≡ entry_of entry) }
    ensures err { IfErr result (λ back. entry_of back.0 ≡ entry_of entry) }
{
    match entry {
        Unshared::One(one) => Ok(one),
        Unshared::Whole(entry) => match Arc::new(alloc, entry) {
            Ok(one) => Ok(one),
            Err(failed) => {
                let (entry, memory) = Memory::giving_back(failed);
                Err((Unshared::Whole(entry), memory))
            }
        },
    }
}

// So many shares more, of the same entry, for which there is room.
fn add_clones(
    shares: &mut Vec<Option<Arc<Entry, Global>>>,
    one: &Arc<Entry, Global>,
    count: usize,
) -> Result<(), Memory>
    requires { vec_len shares.old + count < vec_capacity shares.old }
    ensures added { OnOk result (map (option_map arc_value) shares.new.items ≡ map (option_map arc_value) shares.old.items ++ replicate count (Some (arc_value one.now))) }
    ensures room { OnOk result (vec_len shares.new < vec_capacity shares.new) }
{
    for _ in 0..count {
        shares.push_reserved(Some(Arc::try_clone(one)?));
    }
    Ok(())
}
