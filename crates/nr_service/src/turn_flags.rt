// What the parts of a turn find for the parts behind them.
ghost use Rattle.std.specs.Prelude.{◌≡◌, ◌||◌, true};
ghost use Rattle.nr_service.specs.Sweeps.{LooksSoon};

use crate::client::{Client, Ending};
use crate::poller::Poller;
use crate::stream::Stream;
use crate::visits::Visits;
use nr_entry::ConnId;
use std::alloc::Global;

/// What the parts of a turn found.
#[derive(Drop)]
pub(crate) struct TurnFlags {
    /// Something was opened or closed since the last work.
    pub has_news: bool,
    /// More can be done at once.
    pub is_busy: bool,
    /// All clients are looked at, and not only those that are listed.
    pub is_all: bool,
    /// Nothing was read in this turn, since what answers was busy.
    pub is_unread: bool,
    pub visits: Visits,
}

impl TurnFlags {
    pub(crate) fn new(alloc: Global) -> TurnFlags {
        TurnFlags {
            has_news: false,
            is_busy: false,
            is_all: true,
            is_unread: false,
            visits: Visits::new(alloc),
        }
    }

    /// Finds who is looked at in this turn: all, where it is time for that. In how many turns at most all are looked at again.
    pub(crate) fn begin<S: Stream, D: Poller<S>>(
        &mut self,
        device: &D,
        clients: &[Client<S>],
        until: u32,
    ) -> u32
        ensures looks { LooksSoon until result (self.new.is_all ≡ true) }
        ensures busy { self.new.is_busy ≡ self.old.is_busy }
    {
        let is_due = self.visits.begin(device, clients);
        self.is_all = is_due || until == 0;
        self.is_unread = false;
        if self.is_all {
            return self.visits.look_at_all();
        }
        until - 1
    }

    /// How many of so many clients are looked at.
    pub(crate) fn count(&self, clients: usize) -> usize
        ensures { self.now.is_all ≡ true → result ≡ clients }
    {
        if self.is_all {
            clients
        } else {
            self.visits.count()
        }
    }

    /// Where the one stands that is looked at as this one, from 0 on.
    pub(crate) fn place(&self, visit: usize) -> usize
        ensures { self.now.is_all ≡ true → result ≡ visit }
    {
        if self.is_all {
            visit
        } else {
            self.visits.place(visit)
        }
    }

    /// Nothing is read in this turn: those that are looked at in it are looked at in the next one too.
    pub(crate) fn put_off<S>(&mut self, clients: &[Client<S>])
        ensures all { self.new.is_all ≡ self.old.is_all }
        ensures busy { self.new.is_busy ≡ self.old.is_busy }
    {
        self.is_unread = true;
        if self.is_all {
            self.visits.put_off_all();
        } else {
            self.visits.put_off(clients);
        }
    }

    /// A client is let go of.
    pub(crate) fn let_go<S: Stream>(&mut self, client: &Client<S>)
        ensures all { self.new.is_all ≡ self.old.is_all }
        ensures busy { self.new.is_busy ≡ true }
    {
        self.has_news = true;
        self.is_busy = true;
        self.visits.forget(client);
    }

    /// Whether a client that would end so isn't let go of before it was read: nobody is silent in a turn in which nothing was read. Then more can be done
    /// at once.
    pub(crate) fn puts_off(&mut self, ending: Ending) -> bool
        ensures all { self.new.is_all ≡ self.old.is_all }
        ensures busy { self.new.is_busy ≡ (self.old.is_busy || result) }
    {
        let is_unheard = self.is_unread && ending == Ending::Silent;
        self.is_busy |= is_unheard;
        is_unheard
    }

    /// Whether more can be done at once for this connection.
    pub(crate) fn note_rest(&mut self, conn: ConnId, has_rest: bool)
        ensures all { self.new.is_all ≡ self.old.is_all }
        ensures busy { self.new.is_busy ≡ (self.old.is_busy || has_rest) }
    {
        if has_rest {
            self.is_busy = true;
            self.visits.come_again(conn);
        }
    }
}
