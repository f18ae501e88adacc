// Shares of a node's own entries that some node may have to pass yet.
ghost use Rattle.std.specs.Prelude.{◌≡◌, ◌<◌, ◌≤◌, ◌++◌, ◌∷◌, [], ℕ, List, length, slice_index_or, true, false, Some, None, IfSome, IfOk, OnOk};
ghost use Rattle.std.specs.Arc.{arc_value};
ghost use Rattle.std.specs.List.{slice_get};
ghost use Rattle.std.specs.VecDeque.{deque_len, deque_capacity};
ghost use Rattle.nr_entry.specs.declared.entry.Entry.{Entry};
ghost use Rattle.nr_log_end.specs.Standings.{IsSharesFor, IsAllFilled, reservation};
ghost use Rattle.nr_log_end.specs.Tries.{IsTaken, IsFull, IsLost};
ghost use Rattle.nr_node.specs.OwnEntries.{IfBack, IfTaken, IfFull, IfLost, IfRefused, IsFirst, AreBelow, IsFromOn, LetsGo, is_from};

use nr_blob::Memory;
use nr_entry::{Entry, Shares};
use nr_log_end::{LogEnd, Reserve};
use nr_oplog::{End, LogName};
use std::alloc::Global;
use std::collections::VecDeque;
use std::marker::Model;
use std::sync::Arc;

/// What came of a try to put an entry into the log.
#[derive(Drop)]
pub(crate) enum EntryPut {
    /// It has this number.
    Taken(u64),
    /// All places are taken by entries that some node hasn't passed. The shares come back.
    Full(Shares),
    /// Another node reserved in between. The shares come back.
    Lost(Shares),
    /// There was no memory to keep a share. The shares come back.
    Refused(Shares, Memory),
}

// A share of an entry, with the entry's number.
#[derive(Drop)]
struct Kept {
    number: u64,
    share: Arc<Entry, Global>,
}

impl Model for Kept {
    ghost use Rattle.std.specs.Prelude.{ℕ};
    ghost use Rattle.std.specs.Arc.{arc_value};
    ghost use Rattle.std.specs.Coded.{coded×, coded_ℕ};
    ghost use Rattle.nr_entry.specs.declared.entry.Entry.{Entry};
    ghost use Rattle.nr_entry.specs.contracts.entry.Entry as of_entry;

    ghost Value = { ℕ × Entry };

    ghost coded = { coded× coded_ℕ of_entry.the_row.coded };

    ghost view = { λ k. (k.number, arc_value k.share) };
}

/// Shares of a node's own entries, which it keeps until all nodes have passed them: so the memory that the node took for an entry is given back by this node, and not by
/// the one that passes it last. Contracts see the entries with their numbers, and the number of the last entry that was reserved.
#[derive(Drop)]
pub(crate) struct OwnEntries {
    kept: VecDeque<Kept>,
    last: Option<u64>,
}

impl Model for OwnEntries {
    ghost use Rattle.nr_node.specs.OwnEntries.{OwnState, coded_own};

    ghost Value = { OwnState };

    ghost coded = { coded_own };

    ghost view = { λ o. record { kept = o.kept.items; last = o.last } };
}

impl OwnEntries {
    /// None is kept yet, nor was any reserved.
    pub(crate) fn new(alloc: Global) -> OwnEntries
        ensures { result ≡ record { kept = []; last = None } }
    {
        OwnEntries {
            kept: VecDeque::new(alloc),
            last: None,
        }
    }

    /// Whether an entry with this number or a greater one was reserved. Constant.
    pub(crate) fn has_from(&self, number: u64) -> bool
        ensures { result ≡ is_from number self.now.last }
    {
        match self.last {
            Some(last) => number <= last,
            None => false,
        }
    }

    /// Tries once to reserve the next number for an entry of this node, of which it keeps a share then. Where there is no memory for that nothing is tried.
    pub(crate) fn reserve<B: LogName>(&mut self, end: &mut End<B>, shares: Shares) -> EntryPut
        requires shares { IsSharesFor end.old.standing shares }
        requires filled { IsAllFilled end.old.standing }
        requires nodes { 0 < end.old.standing.nodes }
        ensures taken { IfTaken result (λ at. IsTaken end.old.standing end.old.looks at shares end.new.standing end.new.looks) }
        ensures full { IfFull result (λ back. (back ≡ shares) × IsFull end.old.standing end.old.looks B.places end.new.standing end.new.looks) }
        ensures lost { IfLost result (λ back. (back ≡ shares) × IsLost end.old.standing end.old.looks end.new.standing end.new.looks) }
        ensures refused { IfRefused result (λ back. (back ≡ shares) × (end.new ≡ end.old)) }
        ensures kept { IfTaken result (λ at. self.new ≡ record { kept = self.old.kept ++ reservation at shares; last = Some at }) }
        ensures others { IfBack result (self.new ≡ self.old) }
    {
        let share = match prepare(&mut self.kept, &shares) {
            Ok(share) => share,
            Err(memory) => return EntryPut::Refused(shares, memory),
        };
        match end.reserve(shares) {
            Reserve::Taken(number) => {
                self.kept.push_back_reserved(Kept { number, share });
                self.last = Some(number);
                EntryPut::Taken(number)
            }
            Reserve::Full(back) => EntryPut::Full(back),
            Reserve::Lost(back) => EntryPut::Lost(back),
        }
    }

    /// Lets go of the shares of the entries that all nodes have passed: one load for each node, where any are kept.
    pub(crate) fn let_go<B: LogName>(&mut self, end: &mut End<B>)
        ensures go { LetsGo self.old.kept self.new.kept end.old end.new }
        ensures last { self.new.last ≡ self.old.last }
    {
        let_go_passed(end, &mut self.kept);
    }
}

// Makes room to keep one more, and a share of the entry for it.
fn prepare(kept: &mut VecDeque<Kept>, shares: &Shares) -> Result<Arc<Entry, Global>, Memory>
    requires { IsFirst shares.now }
    ensures share { IfOk result (λ share. slice_index_or shares.now 0 None ≡ Some (arc_value share)) }
    ensures room { OnOk result (deque_len kept.new < deque_capacity kept.new) }
    ensures same { kept.new.items ≡ kept.old.items }
{
    kept.reserve(1)?;
    first_share(shares)
}

// A further share of an entry, of which there is one for the first node.
fn first_share(shares: &Shares) -> Result<Arc<Entry, Global>, Memory>
    requires { IsFirst shares.now }
    ensures { IfOk result (λ share. slice_index_or shares.now 0 None ≡ Some (arc_value share)) }
{
    match shares.get(0) {
        Some(share) => Ok(Arc::try_clone(share)?),
        None => unreachable!(),
    }
}

// Lets go of the shares of the entries that all nodes have passed, by the counts that it loads where any are kept.
fn let_go_passed<B: LogName>(end: &mut End<B>, kept: &mut VecDeque<Kept>)
    ensures { LetsGo kept.old.items kept.new.items end.old end.new }
{
    if kept.is_empty() {
        return;
    }
    let least = end.least_passed();
    let_go_below(kept, least);
}

// Lets go of the shares of the entries with numbers below one. Linear in them.
fn let_go_below(kept: &mut VecDeque<Kept>, least: u64)
    ensures gone { (gone : List (ℕ × Entry)) × (gone ++ kept.new.items ≡ kept.old.items) × AreBelow least gone }
    ensures left { IfSome (slice_get kept.new.items 0) (IsFromOn least) }
{
    while take_below(kept, least) {}
}

// Takes the first share out, where its entry's number is below one.
fn take_below(kept: &mut VecDeque<Kept>, least: u64) -> bool
    ensures taken { result ≡ true → (one : ℕ × Entry) × (one ∷ kept.new.items ≡ kept.old.items) × (one.0 < least) }
    ensures fewer { result ≡ true → deque_len kept.new < deque_len kept.old }
    ensures left { result ≡ false → (kept.new.items ≡ kept.old.items) × IfSome (slice_get kept.new.items 0) (IsFromOn least) }
{
    if !is_below(kept, least) {
        return false;
    }
    drop(kept.pop_front());
    true
}

// Whether there is a first share, of an entry whose number is below one.
fn is_below(kept: &VecDeque<Kept>, least: u64) -> bool
    ensures some { result ≡ true → (one : ℕ × Entry) × (slice_get kept.now.items 0 ≡ Some one) × (one.0 < least) }
    ensures none { result ≡ false → IfSome (slice_get kept.now.items 0) (IsFromOn least) }
{
    match kept.front() {
        Some(first) => first.number < least,
        None => false,
    }
}
