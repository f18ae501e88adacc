// A set: what the commands add, look up and take out, member by member.
ghost use Rattle.std.specs.Prelude.{◌≡◌, ◌↔◌, ◌<◌, ◌^◌, not, length, IsTrue, IfOk, OnOk, OnErr};
ghost use Rattle.std.specs.FinSet as set;
ghost use Rattle.nr_model.specs.Sets.{listed};

use crate::form::Form;
use crate::members::Members;
use nr_blob::{Blob, Memory};
use std::alloc::Global;
use std::hash::RandomState;
use std::marker::Model;

/// A set, as a key holds it. It is seen as a finite set of byte lists. At most 32 members, none of them longer than 64 bytes, stand in one block;
/// more or longer ones make a table of such blocks, and a table stays one. To drop it is linear in its members.
#[derive(Debug, Drop)]
pub struct Set {
    // Blocks and copies are made with it: a set doesn't hand its own out.
    alloc: Global,
    form: Form,
}

impl Model for Set {
    ghost use Rattle.std.specs.FinSet as set;
    ghost use Rattle.nr_model.specs.Sets.{Members, coded_members};

    ghost Value = { Members };

    ghost coded = { coded_members };

    ghost use Rattle.std.specs.Map.{keys_of};
    ghost use Rattle.nr_sets.specs.Forms.{entries_of, AreMembers};

    ghost view = { λ s. set.from_list (keys_of (entries_of s.form)) };

    ghost invariant = { λ s. AreMembers (entries_of s.form) };
}

impl Set {
    /// The empty set. It takes no memory.
    pub fn new(alloc: Global) -> Set
        ensures { result ≡ set.empty }
    {
        Set {
            alloc,
            form: Form::new(alloc),
        }
    }

    /// How many members. Constant.
    pub fn len(&self) -> usize
        ensures len { result ≡ set.len self.now }
        ensures small { result < 2 ^ 63 }
    {
        self.form.len()
    }

    pub fn is_empty(&self) -> bool
        ensures { IsTrue result ↔ (self.now ≡ set.empty) }
    {
        self.form.len() == 0
    }

    /// Puts a member in, and says whether it is new. Linear in the bytes of a block; where a block becomes a table, in those of all, and the table
    /// hashes by these keys. Where memory runs out nothing is changed.
    pub fn insert(&mut self, keys: RandomState, member: &Blob) -> Result<bool, Memory>
        ensures new { IfOk result (λ is_new. is_new ≡ not (set.contains self.old member.now)) }
        ensures ok { OnOk result (self.new ≡ set.insert self.old member.now) }
        ensures err { OnErr result (self.new ≡ self.old) }
    {
        let is_new = self.form.insert(self.alloc, keys, member)?;
        Ok(is_new)
    }

    /// Whether this is a member. Linear in the bytes of a block.
    pub fn contains(&self, member: &Blob) -> bool
        ensures { result ≡ set.contains self.now member.now }
    {
        self.form.contains(member)
    }

    /// Takes a member out, and says whether it was there. Linear in the bytes of a block.
    pub fn remove(&mut self, member: &Blob) -> bool
        ensures there { result ≡ set.contains self.old member.now }
        ensures removed { self.new ≡ set.remove self.old member.now }
    {
        self.form.remove(member)
    }

    /// The members, in byte order. Those of one block are lent as they lie; those of a table are gathered and sorted, in O(n log n) and memory for
    /// 40 bytes each, which may be refused.
    pub fn members(&self) -> Result<Members<'_>, Memory>
        ensures members { IfOk result (λ members. members ≡ listed self.now) }
        ensures len { IfOk result (λ members. length members ≡ set.len self.now) }
    {
        let members = self.form.members()?;
        Ok(members)
    }

    /// The same members once more. Linear in their bytes.
    pub fn copy(&self) -> Result<Set, Memory>
        ensures { IfOk result (λ copied. copied ≡ self.now) }
    {
        Ok(Set {
            alloc: self.alloc,
            form: self.form.copy(self.alloc)?,
        })
    }
}
