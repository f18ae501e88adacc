// A seat with its log.
ghost use Rattle.std.specs.Prelude.{◌≡◌, ◌↔◌, IsTrue, length};
ghost use Rattle.nr_log_end.specs.Standings.{known_of, passed_of};
ghost use Rattle.nr_oplog.specs.Calls.{LoadsCounts, IsLeastOf};
ghost use Rattle.nr_oplog.specs.Plays.{AreOfOneLog};

use crate::log::{LogName, Oplog};
use crate::seat::LogSeat;
use crate::token::Token;
use nr_entry::{Entry, Job, Shares};
use nr_log_end::{LogEnd, Reserve};
use std::alloc::Global;
use std::cmp::Ordering;
use std::marker::Model;
use std::sync::Arc;

/// One node's end of the running log: its seat, with the log that all nodes share. Contracts see what the seat knows.
#[derive(Drop)]
pub struct End<B: LogName> {
    seat: LogSeat<B>,
    log: Arc<Oplog<B>, Global>,
}

impl<B: LogName> Model for End<B> {
    ghost use Rattle.nr_oplog.specs.declared.view.LogView.{LogView};
    ghost use Rattle.nr_oplog.specs.contracts.view.LogView as of_view;

    ghost Value = { LogView };

    ghost coded = { of_view.the_row.coded };

    ghost view = { λ e. e.seat };
}

impl<B: LogName> End<B> {
    /// The end of a seat.
    pub fn new(seat: LogSeat<B>, log: Arc<Oplog<B>, Global>) -> End<B>
        ensures { result ≡ seat }
    {
        End { seat, log }
    }

    /// The least of the counts of entries that nodes have passed: one load for each node. All nodes have passed each entry of a lower number, and
    /// go on having passed it.
    pub fn least_passed(&mut self) -> u64
        ensures loads { LoadsCounts self.old self.new }
        ensures least { IsLeastOf result self.new.met }
    {
        self.seat.least_passed(&self.log)
    }

    /// How many entries this node has passed. It takes no load.
    pub fn passed(&self) -> u64
        ensures { result ≡ passed_of self.now.standing }
    {
        self.seat.passed()
    }

    /// Meets a token of the log: of what this node and the token's know, one is a beginning of the other. It takes four loads of the tail.
    pub fn meets(&mut self, token: &mut Token<B>)
        ensures of_one_log { AreOfOneLog self.old.standing token.old.standing }
        ensures standing { self.new ≡ self.old }
        ensures token { token.new ≡ token.old }
    {
        let mut own = self.seat.token(&self.log);
        own.order(&self.log, token);
    }

    /// Whether a token of the log knows as many entries as this node: then they know the same ones. It takes four loads of the tail.
    pub fn is_as_far(&mut self, token: &mut Token<B>) -> bool
        ensures as_many { IsTrue result ↔ (length (known_of self.old.standing) ≡ length (known_of token.old.standing)) }
        ensures of_one_log { AreOfOneLog self.old.standing token.old.standing }
        ensures standing { self.new ≡ self.old }
        ensures token { token.new ≡ token.old }
    {
        let mut own = self.seat.token(&self.log);
        own.order(&self.log, token) == Ordering::Equal
    }
}

impl<B: LogName> LogEnd for End<B> {
    type Token = Token<B>;

    ghost standing = { λ v. v.standing };

    ghost kept_by = { λ v. v.standing };

    ghost looks = { λ v. v.looks };

    ghost places = { B.places };

    fn reserve(&mut self, shares: Shares) -> Reserve {
        self.seat.reserve(&self.log, shares)
    }

    fn fill(&mut self, at: u64, node: usize) {
        self.seat.fill(&self.log, at, node);
    }

    fn fetch(&mut self) -> Option<Arc<Entry, Global>> {
        self.seat.fetch(&self.log)
    }

    fn pass(&mut self) {
        self.seat.pass(&self.log);
    }

    fn tail(&mut self) -> u64 {
        self.seat.tail(&self.log)
    }

    fn note(&mut self, jobs: &[Job]) {
        self.seat.note(&self.log, jobs);
    }

    fn note_opened(&mut self, worker: u8) {
        self.seat.note_opened(&self.log, worker);
    }

    fn token(&mut self) -> Token<B> {
        self.seat.token(&self.log)
    }
}
