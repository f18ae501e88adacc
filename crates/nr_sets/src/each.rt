// Many members at once.
ghost use Rattle.std.specs.Prelude.{◌≡◌, ◌-◌, ◌<◌, ◌^◌, map, IfOk, OnOk};
ghost use Rattle.std.specs.FinSet as set;
ghost use Rattle.std.specs.Map.Iter.{deref};
ghost use Rattle.nr_model.specs.Commands.Sets.{with_each, without_each};

use crate::set::Set;
use nr_blob::{Blob, Memory};
use std::alloc::Global;
use std::hash::RandomState;

impl Set {
    /// A set of copies of these members. Linear in the bytes of a block for each.
    pub fn collect(alloc: Global, keys: RandomState, members: &[&[u8]]) -> Result<Set, Memory>
        ensures { IfOk result (λ collected. collected ≡ with_each set.empty (map deref members.now)) }
    {
        let mut collected = Set::new(alloc);
        for member in members {
            let member = Blob::from_slice(alloc, member)?;
            collected.insert(keys, &member)?;
        }
        Ok(collected)
    }

    /// Puts copies of these members in, and says how many are new. Linear in the bytes of a block for each. Where memory runs out some of them are
    /// in.
    pub fn insert_each(&mut self, keys: RandomState, members: &[Blob]) -> Result<usize, Memory>
        ensures new { IfOk result (λ new. new ≡ set.len self.new - set.len self.old) }
        ensures small { IfOk result (λ new. new < 2 ^ 63) }
        ensures ok { OnOk result (self.new ≡ with_each self.old members.now) }
    {
        let before = self.len();
        for member in members {
            self.insert(keys, member)?;
        }
        Ok(self.len() - before)
    }

    /// Takes these members out, and says how many were there. Linear in the bytes of a block for each.
    pub fn remove_each(&mut self, members: &[Blob]) -> usize
        ensures there { result ≡ set.len self.old - set.len self.new }
        ensures small { result < 2 ^ 63 }
        ensures removed { self.new ≡ without_each self.old members.now }
    {
        let before = self.len();
        for member in members {
            self.remove(member);
        }
        before - self.len()
    }
}
