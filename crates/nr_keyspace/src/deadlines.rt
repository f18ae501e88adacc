// The deadlines of one database, in order, so that a sweep looks at expired keys alone.
ghost use Rattle.std.specs.Prelude.{◌≡◌, ℤ, true, false, pos, int_lt, IfSome, IfNone, OnOk, OnErr, ◌+◌};
ghost use Rattle.std.specs.FinMap as map;
ghost use Rattle.std.specs.FinSet as set;
ghost use Rattle.nr_model.specs.Bytes.{Bytes};
ghost use Rattle.nr_keyspace.specs.Deadlines.{Due, with_deadline, without_deadline, has_deadline, IsReplaced, IsFirst};
ghost use Rattle.nr_keyspace.specs.Names.{live_store};
ghost use Rattle.nr_keyspace.specs.Stores.{Store, IsIndexed};

use crate::cuts::{BeforeDue, Until};
use crate::moment::is_live;
use nr_blob::{Blob, Memory};
use nr_ordered::Tree;
use std::alloc::Global;
use std::marker::Model;

/// Deadlines in milliseconds, with the names of their keys. Each takes the bytes of its name, and some twenty more. A name that goes in, and one that
/// is looked for, takes a logarithmic number of comparisons.
#[derive(Drop)]
pub(crate) struct Deadlines {
    alloc: Global,
    ordered: Tree,
}

impl Model for Deadlines {
    ghost use Rattle.std.specs.FinSet as set;
    ghost use Rattle.nr_keyspace.specs.Deadlines.{due_cmp, dues_of, coded_dues, AreInOrder};

    ghost Value = { set.FinSet due_cmp };

    ghost coded = { coded_dues };

    ghost view = { λ d. dues_of d.ordered.0 };

    ghost invariant = { λ d. AreInOrder d.ordered.0 };
}

impl Deadlines {
    pub(crate) fn new(alloc: Global) -> Deadlines
        ensures { result ≡ set.empty }
    {
        Deadlines {
            alloc,
            ordered: Tree::new(),
        }
    }

    /// The allocator that they are from.
    pub(crate) fn allocator(&self) -> Global {
        self.alloc
    }

    // Puts a name in that isn't there at this deadline.
    fn insert(&mut self, deadline: i64, name: &[u8]) -> Result<(), Memory>
        requires { set.contains self.old (deadline, name.now) ≡ false }
        ensures ok { OnOk result (self.new ≡ set.insert self.old (deadline, name.now)) }
        ensures err { OnErr result (self.new ≡ self.old) }
    {
        let place = self.ordered.find(&BeforeDue { name, deadline });
        self.ordered.insert(self.alloc, place, name, deadline)?;
        Ok(())
    }

    // Takes a name out that is there at this deadline.
    fn remove(&mut self, deadline: i64, name: &[u8])
        requires { set.contains self.old (deadline, name.now) ≡ true }
        ensures { self.new ≡ set.remove self.old (deadline, name.now) }
    {
        let place = self.ordered.find(&BeforeDue { name, deadline });
        self.ordered.remove(place);
    }

    // Puts a name in at its deadline, if it has one.
    fn add(&mut self, deadline: Option<i64>, name: &Blob) -> Result<(), Memory>
        requires { IfSome deadline (λ deadline. set.contains self.old (deadline, name.now) ≡ false) }
        ensures ok { OnOk result (self.new ≡ with_deadline self.old deadline name.now) }
        ensures err { OnErr result (self.new ≡ self.old) }
    {
        match deadline {
            Some(deadline) => self.insert(deadline, name.bytes()),
            None => Ok(()),
        }
    }

    /// Takes a name out at its deadline, if it has one.
    pub(crate) fn take(&mut self, deadline: Option<i64>, name: &Blob)
        requires { IfSome deadline (λ deadline. set.contains self.old (deadline, name.now) ≡ true) }
        ensures { self.new ≡ without_deadline self.old deadline name.now }
    {
        if let Some(deadline) = deadline {
            self.remove(deadline, name.bytes());
        }
    }

    /// Gives a name another deadline, or none.
    pub(crate) fn replace(
        &mut self,
        before: Option<i64>,
        after: Option<i64>,
        name: &Blob,
    ) -> Result<(), Memory>
        requires { (deadline : ℤ) → set.contains self.old (deadline, name.now) ≡ has_deadline deadline before }
        ensures ok { OnOk result (IsReplaced self.old self.new after name.now) }
        ensures err { OnErr result (self.new ≡ self.old) }
    {
        if before == after {
            return Ok(());
        }
        self.add(after, name)?;
        self.take(before, name);
        Ok(())
    }

    /// The name whose deadline is the earliest, if that is not after the moment.
    pub(crate) fn first_expired(&self, now: u64) -> Option<&[u8]>
        ensures expired { IfSome result (λ name. (deadline : ℤ) × (int_lt (pos now) deadline ≡ false) × IsFirst self.now (deadline, name.now)) }
        ensures live { IfNone result ((deadline : ℤ) (name : Bytes) → set.contains self.now (deadline, name) ≡ true → int_lt (pos now) deadline ≡ true) }
    {
        let (name, deadline) = self.ordered.get(0)?;
        if is_live(now, Some(deadline)) {
            return None;
        }
        Some(name)
    }

    /// Takes the earliest deadline out.
    pub(crate) fn remove_first(&mut self)
        requires { (due : Due) × IsFirst self.old due }
        ensures { (due : Due) → IsFirst self.old due → self.new ≡ set.remove self.old due }
    {
        self.ordered.remove(0);
    }

    /// How many deadlines are not after the moment.
    pub(crate) fn count_expired(&self, now: u64) -> usize
        ensures { (store : Store) → IsIndexed store self.now → map.len (live_store store now) + result ≡ map.len store }
    {
        self.ordered.find(&Until { now })
    }
}
