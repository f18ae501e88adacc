// One node's end of the log.
ghost use Rattle.std.specs.Prelude.{◌≡◌, ◌≤◌, ◌∷◌, ◌++◌, [], IfSome, IfNone, IsSome, None, slice_index_or};
ghost use Rattle.std.specs.Arc.{arc_value};
ghost use Rattle.nr_log_end.specs.Standings.{LooksOn, IsSharesFor, IsAllFilled, StandsInLog, filled_for, fetched_with, passed_of, passed_on, noted_with, opened_with, AreNextReads};
ghost use Rattle.nr_log_end.specs.Reserves.{IfTaken, IfFull, IfLost};
ghost use Rattle.nr_log_end.specs.Tries.{IsTaken, IsFull, IsLost};

use crate::reserve::Reserve;
use crate::standing::{Load, Standing};
use nr_entry::{Entry, Job, Shares};
use std::alloc::Global;
use std::sync::Arc;

/// One node's end of the operation log. Entries have the numbers 0, 1, 2 and so on, in the order in which they were reserved, and each node
/// fetches all of them in this order. No call waits or takes memory.
pub trait LogEnd {
    ghost use Rattle.std.specs.Prelude.{ℕ, List};
    ghost use Rattle.nr_log_end.specs.declared.standing.Standing.{Standing};
    ghost use Rattle.nr_log_end.specs.declared.standing.Load.{Load};

    /// What an end knew at one moment.
    type Token;

    ghost standing: { Self → Standing };

    ghost kept_by: { Self.Token → Standing };

    /// The loads that an end has made, in order: of the tail, of passed counts, and of its next cell where that wasn't filled.
    ghost looks: { Self → List Load };

    /// How many places the log has.
    ghost places: { ℕ };

    /// Tries once to reserve the next number for an entry of this node. The numbers of each connection's jobs rise along all that the node reserves and notes.
    fn reserve(&mut self, shares: Shares) -> Reserve
        requires shares { IsSharesFor (standing self.old) shares }
        requires filled { IsAllFilled (standing self.old) }
        ensures taken { IfTaken result (λ at. IsTaken (standing self.old) (looks self.old) at shares (standing self.new) (looks self.new)) }
        ensures full { IfFull result (λ back. (back ≡ shares) × IsFull (standing self.old) (looks self.old) places (standing self.new) (looks self.new)) }
        ensures lost { IfLost result (λ back. (back ≡ shares) × IsLost (standing self.old) (looks self.old) (standing self.new) (looks self.new)) };

    /// Puts a node's share of the entry that was reserved last into that node's cell.
    fn fill(&mut self, at: u64, node: usize)
        requires number { at ≡ (standing self.old).at }
        requires share { IsSome (slice_index_or (standing self.old).unfilled node None) }
        ensures filled { standing self.new ≡ filled_for node (standing self.old) }
        ensures looks { looks self.new ≡ looks self.old };

    /// The next entry, where its cell is filled.
    fn fetch(&mut self) -> Option<Arc<Entry, Global>>
        requires { (standing self.old).held ≡ None }
        ensures some { IfSome result (λ entry. standing self.new ≡ fetched_with (arc_value entry) (standing self.old)) }
        ensures none { IfNone result (standing self.new ≡ standing self.old) }
        ensures in_log { StandsInLog (standing self.new) }
        ensures looks_some { IfSome result (λ _. looks self.new ≡ looks self.old) }
        ensures looks_none { IfNone result (looks self.new ≡ looks self.old ++ Load.Unfilled (passed_of (standing self.old)) ∷ []) };

    /// Passes the entry that was fetched last. Its place may be reserved again once all nodes passed it.
    fn pass(&mut self)
        requires { IsSome (standing self.old).held }
        ensures passed { standing self.new ≡ passed_on (standing self.old) }
        ensures looks { looks self.new ≡ looks self.old };

    /// How many entries were reserved.
    fn tail(&mut self) -> u64
        ensures tail { result ≡ (standing self.new).seen }
        ensures standing { LooksOn (standing self.old) (standing self.new) }
        ensures looks { looks self.new ≡ looks self.old ++ Load.Tail result ∷ [] }
        ensures in_log { StandsInLog (standing self.new) };

    /// Notes that this node's replica has run these reads, in this order, behind the entries that were passed so far. Their numbers go on rising.
    fn note(&mut self, jobs: &[Job])
        requires rising { AreNextReads jobs.now (standing self.old) }
        ensures noted { standing self.new ≡ noted_with jobs.now (standing self.new).seen (standing self.old) }
        ensures seen { (standing self.old).seen ≤ (standing self.new).seen }
        ensures looks { looks self.new ≡ looks self.old ++ Load.Tail (standing self.new).seen ∷ [] };

    /// Notes that this node opened its next connection, which a worker serves.
    fn note_opened(&mut self, worker: u8)
        ensures opened { standing self.new ≡ opened_with worker (standing self.new).seen (standing self.old) }
        ensures seen { (standing self.old).seen ≤ (standing self.new).seen }
        ensures looks { looks self.new ≡ looks self.old ++ Load.Tail (standing self.new).seen ∷ [] };

    /// A token that keeps how this end stands now.
    fn token(&mut self) -> Self::Token
        ensures kept { kept_by result ≡ standing self.old }
        ensures same { standing self.new ≡ standing self.old }
        ensures looks { looks self.new ≡ looks self.old };
}
