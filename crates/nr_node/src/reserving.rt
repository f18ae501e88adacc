// The updates that lead go into the log, in one entry.
ghost use Rattle.std.specs.Prelude.{◌≡◌, ◌<◌, ◌≤◌, [], ◌++◌, true, false, None, Some, IfOk, OnErr, IfSome, IfNone, MatchOption, List};
ghost use Rattle.nr_entry.specs.declared.entry.Entry.{Entry};
ghost use Rattle.nr_entry.specs.Shares.{shares_of, entry_of};
ghost use Rattle.nr_log_end.specs.Standings.{IsSharesFor, IsAllFilled, reservation};
ghost use Rattle.nr_log_end.specs.Tries.{IsFull, IsLost};
ghost use Rattle.nr_node.specs.OwnEntries.{IfBack, IfTaken, IfFull, IfLost, IfRefused};
ghost use Rattle.nr_node.specs.Next.{IsNextOf, HasLeft};
ghost use Rattle.nr_node.specs.Reserved.{AreTaken, AreNone, AreDue, IsReserved, HasMet, IsFresh, IsFilled};

use crate::next::Next;
use crate::own_entries::{EntryPut, OwnEntries};
use nr_blob::Memory;
use nr_entry::{Shares, Unshared};
use nr_log_end::{Load, LogEnd};
use nr_oplog::{End, LogName};
use nr_replica::Replica;
use std::alloc::Global;

/// The shares of the next entry: of the one that found no place before, else of one of the updates that lead. `None` where there is none. Where memory runs out
/// no job is lost.
pub(crate) fn take_shares(
    alloc: Global,
    nodes: usize,
    replica: &mut Replica,
    next: &mut Option<Next>,
) -> Result<Option<Shares>, Memory>
    requires nodes { 0 < nodes }
    requires next { IsNextOf replica.old.node nodes next.old }
    ensures some { IfOk result (λ shares. IfSome shares (λ shares. (entry : Entry) × (shares ≡ shares_of entry nodes) × (entry.node ≡ replica.old.node)
        × AreTaken entry.jobs.items next.old replica.old next.new replica.new)) }
    ensures none { IfOk result (λ shares. IfNone shares (AreNone next.old replica.old next.new replica.new)) }
    ensures err { OnErr result (AreDue next.old replica.old next.new replica.new) }
    ensures next { OnErr result (IsNextOf replica.old.node nodes next.new) }
{
    match next.take() {
        Some(Next::Shared(shares)) => Ok(Some(shares)),
        Some(Next::Unshared(entry)) => Ok(Some(share(alloc, nodes, entry, next)?)),
        None => match replica.take_entry()? {
            Some(entry) => Ok(Some(share(alloc, nodes, Unshared::Whole(entry), next)?)),
            None => Ok(None),
        },
    }
}

// The shares of an entry. Where there is no memory it goes on waiting.
fn share(
    alloc: Global,
    nodes: usize,
    entry: Unshared,
    next: &mut Option<Next>,
) -> Result<Shares, Memory>
    requires { 0 < nodes }
    ensures ok { IfOk result (λ shares. (shares ≡ shares_of (entry_of entry) nodes) × (next.new ≡ next.old)) }
    ensures err { OnErr result (HasLeft (entry_of entry) next.new) }
{
    match Shares::of(alloc, entry, nodes) {
        Ok(shares) => Ok(shares),
        Err((entry, memory)) => {
            *next = Some(Next::Unshared(entry));
            Err(memory)
        }
    }
}

/// Tries once to reserve a place for the entry of these shares, and fills all its cells where it got one.
pub(crate) fn put_in<B: LogName>(
    end: &mut End<B>,
    kept: &mut OwnEntries,
    nodes: usize,
    shares: Shares,
) -> EntryPut
    requires nodes { (nodes ≡ end.old.standing.nodes) × (0 < nodes) }
    requires shares { IsSharesFor end.old.standing shares }
    requires filled { IsAllFilled end.old.standing }
    ensures taken { IfTaken result (λ at. IsReserved at shares end.old.standing end.new.standing) }
    ensures full { IfFull result (λ back. (back ≡ shares) × HasMet end.old.standing end.new.standing) }
    ensures lost { IfLost result (λ back. (back ≡ shares) × HasMet end.old.standing end.new.standing) }
    ensures refused { IfRefused result (λ back. (back ≡ shares) × HasMet end.old.standing end.new.standing) }
    ensures met_full { IfFull result (λ _. IsFull end.old.standing end.old.looks B.places end.new.standing end.new.looks) }
    ensures met_lost { IfLost result (λ _. IsLost end.old.standing end.old.looks end.new.standing end.new.looks) }
    ensures filled { IsAllFilled end.new.standing }
    ensures kept { IfTaken result (λ at. kept.new ≡ record { kept = kept.old.kept ++ reservation at shares; last = Some at }) }
    ensures others { IfBack result (kept.new ≡ kept.old) }
    ensures looks { (more : List Load) × (end.new.looks ≡ end.old.looks ++ more) }
{
    match kept.reserve(end, shares) {
        EntryPut::Taken(at) => {
            fill_all(end, nodes, at);
            EntryPut::Taken(at)
        }
        EntryPut::Full(back) => EntryPut::Full(back),
        EntryPut::Lost(back) => EntryPut::Lost(back),
        EntryPut::Refused(back, memory) => EntryPut::Refused(back, memory),
    }
}

// Puts each node's share into its cell.
fn fill_all<B: LogName>(end: &mut End<B>, nodes: usize, at: u64)
    requires { IsFresh at nodes end.old.standing }
    ensures filled { IsFilled end.old.standing end.new.standing }
    ensures looks { end.new.looks ≡ end.old.looks }
{
    for node in 0..nodes {
        end.fill(at, node);
    }
}
