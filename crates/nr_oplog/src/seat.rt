// A node's seat at the log.
ghost use Rattle.std.specs.Prelude.{ℕ, ◌≡◌, ◌∷◌, ◌≢◌, ◌+◌, ◌^◌, ◌<◌, ◌≤◌, ◌++◌, [], length, map, slice_index, slice_index_or, IfSome, IfNone, IsSome, None};
ghost use Rattle.std.specs.Bool.{OnTrue, OnFalse};
ghost use Rattle.std.specs.Arc.{arc_value};
ghost use Rattle.nr_log_end.specs.Reserves.{IfTaken, IfFull, IfLost};
ghost use Rattle.nr_log_end.specs.Tries.{IsTaken, IsFull, IsLost};
ghost use Rattle.nr_log_end.specs.Standings.{IsSharesFor, IsAllFilled, StandsInLog, passed_of, reserved_as, filled_for, fetched_with, passed_on, noted_with, opened_with, AreNextReads};
ghost use Rattle.nr_log_end.specs.declared.standing.LogEvent.TheVariants.{Ran, Opened};
ghost use Rattle.nr_oplog.specs.Rule.{opening_view};
ghost use Rattle.nr_oplog.specs.Plays.{with_done};
ghost use Rattle.nr_oplog.specs.Seats.{IsBehind};
ghost use Rattle.nr_oplog.specs.Calls.{LooksAtTail, OnlyCounts, LoadsCounts, IsLeastOf};

use crate::log::{LogName, Oplog};
use crate::plays::DoneTurns;
use crate::token::Token;
use crate::view::LogSlotSeat;
use nr_entry::{Entry, Job, Shares};
use nr_log_end::{Load, Reserve};
use std::alloc::Global;
use std::marker::{Brand, Model, PhantomData};
use std::sync::Arc;

/// How many entries a log takes at most: more than any run makes.
pub const MOST_ENTRIES: u64 = 1 << 63;

/// A node's seat at the log: what the node does there, it does by its seat. Contracts see what it knows.
#[derive(Drop)]
pub struct LogSeat<B: LogName> {
    seat: LogSlotSeat,
    node: usize,
    passed: u64,
    held: bool,
    seen: u64,
    at: u64,
    shares: Shares,
    // All nodes have passed so many entries, or more.
    least: u64,
    of: PhantomData<B>,
}

impl<B: LogName> Model for LogSeat<B> {
    ghost use Rattle.std.specs.Prelude.{◌≡◌};
    ghost use Rattle.nr_oplog.specs.declared.view.LogView.{LogView};
    ghost use Rattle.nr_oplog.specs.contracts.view.LogView as of_view;
    ghost use Rattle.nr_oplog.specs.Calls.{IsSeated};

    ghost Value = { LogView };

    ghost coded = { of_view.the_row.coded };

    ghost view = { λ s. s.seat.me.0 };

    ghost invariant = { λ s. (s.seat.table_id ≡ B.log) × (s.seat.me.0.standing.nodes ≡ B.nodes) × (s.seat.me.0.places ≡ B.places) × IsSeated s.seat.me s.node s.passed s.held s.seen s.at s.shares s.least };
}

impl<B: LogName> LogSeat<B> {
    pub(crate) fn first(alloc: Global, seat: LogSlotSeat, node: usize) -> LogSeat<B>
        requires seat { (seat.table_id ≡ B.log) × (seat.me ≡ (opening_view B.nodes B.places node (node + 1), [])) }
        requires node { node < B.nodes }
        ensures { result ≡ opening_view B.nodes B.places node (node + 1) }
    {
        LogSeat {
            seat,
            node,
            passed: 0,
            held: false,
            seen: 0,
            at: 0,
            shares: Shares::none(alloc),
            least: 0,
            of: PhantomData,
        }
    }

    /// Tries once to reserve the next number for an entry of this node: one load of the tail, at most as many loads of passed counts as
    /// there are nodes, and one exchange of the tail.
    pub fn reserve(&mut self, log: &Oplog<B>, shares: Shares) -> Reserve
        requires shares { IsSharesFor self.old.standing shares }
        requires filled { IsAllFilled self.old.standing }
        ensures taken { IfTaken result (λ at. IsTaken self.old.standing self.old.looks at shares self.new.standing self.new.looks) }
        ensures full { IfFull result (λ back. (back ≡ shares) × IsFull self.old.standing self.old.looks B.places self.new.standing self.new.looks) }
        ensures lost { IfLost result (λ back. (back ≡ shares) × IsLost self.old.standing self.old.looks self.new.standing self.new.looks) }
    {
        let tail = self.tail(log);
        if tail >= MOST_ENTRIES {
            return Reserve::Full(shares);
        }
        if self.is_full(log, tail) {
            return Reserve::Full(shares);
        }
        self.claim(log, tail, shares)
    }

    // Whether some node has to pass more before there is a place at this tail. Passed counts are loaded only where there seems to be none.
    fn is_full(&mut self, log: &Oplog<B>, tail: u64) -> bool
        ensures view { OnlyCounts self.old self.new }
        ensures full { OnTrue result (IsBehind self.old.standing.nodes B.places tail self.old self.new) }
        ensures room { OnFalse result ((node : ℕ) → node < self.old.standing.nodes → tail < slice_index self.new.met node + self.old.places) }
    {
        if tail.saturating_sub(self.least) < log.places as u64 {
            return false;
        }
        match log.least_passed(&mut self.seat, tail) {
            None => true,
            Some(least) => {
                self.least = least;
                false
            }
        }
    }

    // Moves the tail on if it still is as it was loaded.
    fn claim(&mut self, log: &Oplog<B>, tail: u64, shares: Shares) -> Reserve
        requires shares { IsSharesFor self.old.standing shares }
        requires filled { IsAllFilled self.old.standing }
        requires tail { (tail ≡ self.old.standing.seen) × (tail < 2 ^ 63) }
        requires room { (node : ℕ) → node < self.old.standing.nodes → tail < slice_index self.old.met node + self.old.places }
        ensures taken { IfTaken result (λ at. (at ≡ tail) × (self.new ≡ record self.old { standing = reserved_as at shares self.old.standing })) }
        ensures full { IfFull result (λ back. ⊥) }
        ensures lost { IfLost result (λ back. (back ≡ shares) × (self.new ≡ record self.old { standing = record self.old.standing { seen = self.new.standing.seen } }) × (tail < self.new.standing.seen)) }
    {
        let found = log.claim(&mut self.seat, tail, shares.get(0));
        if found != tail {
            self.seen = found;
            return Reserve::Lost(shares);
        }
        self.seen = tail + 1;
        self.at = tail;
        self.shares = shares;
        Reserve::Taken(tail)
    }

    /// Puts a node's share of the entry that was reserved last into that node's cell: one load and one store.
    pub fn fill(&mut self, log: &Oplog<B>, at: u64, node: usize)
        requires number { at ≡ self.old.standing.at }
        requires share { IsSome (slice_index_or self.old.standing.unfilled node None) }
        ensures { self.new ≡ record self.old { standing = filled_for node self.old.standing } }
    {
        let share = self.shares.take(node);
        log.put(&mut self.seat, node, at, share);
    }

    /// The next entry, where its cell is filled: one load.
    pub fn fetch(&mut self, log: &Oplog<B>) -> Option<Arc<Entry, Global>>
        requires { self.old.standing.held ≡ None }
        ensures some { IfSome result (λ entry. self.new ≡ record self.old { standing = fetched_with (arc_value entry) self.old.standing }) }
        ensures none { IfNone result (self.new ≡ record self.old { looks = self.old.looks ++ Load.Unfilled (passed_of self.old.standing) ∷ [] }) }
        ensures in_log { StandsInLog self.new.standing }
    {
        let share = log.lift(&mut self.seat, self.node, self.passed)?;
        self.held = true;
        Some(share)
    }

    /// Passes the entry that was fetched last: one store.
    pub fn pass(&mut self, log: &Oplog<B>)
        requires { IsSome self.old.standing.held }
        ensures { self.new ≡ record self.old { standing = passed_on self.old.standing } }
    {
        log.pass_next(&mut self.seat, self.node, self.passed);
        self.passed += 1;
        self.held = false;
    }

    /// How many entries were reserved: one load of the tail.
    pub fn tail(&mut self, log: &Oplog<B>) -> u64
        ensures tail { result ≡ self.new.standing.seen }
        ensures looks { LooksAtTail self.old self.new }
        ensures in_log { StandsInLog self.new.standing }
    {
        self.seen = log.load_tail(&mut self.seat);
        self.seen
    }

    /// The least of the counts of entries that nodes have passed: one load for each node. All nodes have passed each entry of a lower number, and
    /// go on having passed it.
    pub fn least_passed(&mut self, log: &Oplog<B>) -> u64
        ensures loads { LoadsCounts self.old self.new }
        ensures least { IsLeastOf result self.new.met }
    {
        self.least = log.load_all_passed(&mut self.seat);
        self.least
    }

    /// How many entries this node has passed. It takes no load.
    pub fn passed(&self) -> u64
        ensures { result ≡ passed_of self.now.standing }
    {
        self.passed
    }

    /// Notes that this node's replica has run these reads, in this order, behind the entries that were passed so far: one load of the tail for all of them.
    pub fn note(&mut self, log: &Oplog<B>, jobs: &[Job])
        requires rising { AreNextReads jobs.now self.old.standing }
        ensures noted { self.new.standing ≡ noted_with jobs.now self.new.standing.seen self.old.standing }
        ensures seen { self.old.standing.seen ≤ self.new.standing.seen }
        ensures looks { self.new.looks ≡ self.old.looks ++ Load.Tail self.new.standing.seen ∷ [] }
    {
        self.note_named::<Brand>(log, jobs);
    }

    fn note_named<T: DoneTurns>(&mut self, log: &Oplog<B>, jobs: &[Job])
        requires turns { T.turns ≡ map Ran jobs.now }
        requires rising { AreNextReads jobs.now self.old.standing }
        ensures noted { self.new ≡ with_done (map Ran jobs.now) self.new.standing.seen self.old }
        ensures seen { self.old.standing.seen ≤ self.new.standing.seen }
    {
        self.seen = log.load_tail_and_do::<T>(&mut self.seat);
    }

    /// Notes that this node opened its next connection, which a worker serves: one load of the tail.
    pub fn note_opened(&mut self, log: &Oplog<B>, worker: u8)
        ensures opened { self.new.standing ≡ opened_with worker self.new.standing.seen self.old.standing }
        ensures seen { self.old.standing.seen ≤ self.new.standing.seen }
        ensures looks { self.new.looks ≡ self.old.looks ++ Load.Tail self.new.standing.seen ∷ [] }
    {
        self.note_opened_named::<Brand>(log, worker);
    }

    fn note_opened_named<T: DoneTurns>(&mut self, log: &Oplog<B>, worker: u8)
        requires { T.turns ≡ Opened worker ∷ [] }
        ensures opened { self.new ≡ with_done (Opened worker ∷ []) self.new.standing.seen self.old }
        ensures seen { self.old.standing.seen ≤ self.new.standing.seen }
    {
        self.seen = log.load_tail_and_do::<T>(&mut self.seat);
    }

    /// A token that keeps how this node stands now: one load of the tail.
    pub fn token(&mut self, log: &Oplog<B>) -> Token<B>
        ensures kept { result.standing ≡ self.old.standing }
        ensures same { self.new ≡ self.old }
    {
        let known = self.passed + u64::from(self.held);
        Token::new(log.keep(&mut self.seat), known)
    }
}
