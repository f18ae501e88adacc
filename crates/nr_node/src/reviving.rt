// A node that is down comes back with a copy of another one's server.
ghost use Rattle.std.specs.Prelude.{◌≡◌, ◌⊎◌, ◌<◌, ◌≤◌, [], ◌++◌, length, true, false, None, List};
ghost use Rattle.nr_entry.specs.declared.entry.Entry.{Entry};
ghost use Rattle.nr_log_end.specs.Standings.{passed_of};
ghost use Rattle.nr_oplog.specs.Plays.{AreOfOneLog};
ghost use Rattle.nr_node.specs.OwnEntries.{is_from};
ghost use Rattle.nr_node.specs.Next.{HasFirst};
ghost use Rattle.nr_node.specs.Advanced.{GoesOn, MeetsNoTail, HasStopped};
ghost use Rattle.nr_node.specs.Revived.{IsOffered, is_busy, place_of, revived_replica};

use crate::advancing::advance_by;
use crate::next::Next;
use crate::own_entries::OwnEntries;
use nr_job_numbers::JobNumbers;
use nr_oplog::{End, LogName, Token};
use nr_replica::Replica;
use std::marker::Model;

/// A copy of a node's server, with which another node of the log that is down comes back, and how its end of the log stood.
#[derive(Drop)]
pub struct NodeOffer<B: LogName> {
    pub(crate) server: nr_replica::Offer,
    pub(crate) token: Token<B>,
    // How many entries of the log the server has.
    pub(crate) place: u64,
}

impl<B: LogName> Model for NodeOffer<B> {
    ghost use Rattle.std.specs.Prelude.{◌≡◌};
    ghost use Rattle.nr_log_end.specs.Standings.{passed_of};
    ghost use Rattle.nr_node.specs.Revived.{OfferState, coded_offer, IsOffered};

    ghost Value = { OfferState };

    ghost coded = { coded_offer };

    ghost view = { λ o. record { server = o.server; standing = o.token.standing } };

    ghost invariant = { λ o. (o.place ≡ passed_of o.token.standing) × IsOffered (record { server = o.server; standing = o.token.standing }) };
}

impl<B: LogName> NodeOffer<B> {
    /// How many entries of the log its server has. Whoever made the offer, and whatever was done since, the server is the sequential Redis after the record of the
    /// end of the log that it keeps.
    pub fn place(&self) -> u64
        ensures place { result ≡ place_of self.now }
        ensures offered { IsOffered self.now }
    {
        self.place
    }
}

impl<B: LogName> NodeOffer<B> {
    /// How many keys its server has: [`Offer::keys`](nr_replica::Offer::keys).
    pub fn keys(&self) -> u64 {
        self.server.keys()
    }
}

/// Why a node didn't come back.
#[derive(Clone, Copy, Debug, PartialEq, Eq)]
pub enum ReviveError {
    /// It isn't down.
    NotDown,
    /// It has passed more entries than the offer's server has.
    Behind,
    /// A batch that it took isn't answered.
    Busy,
    /// An entry that the offer's server has isn't filled for the node yet, or the node has reserved one that it doesn't have.
    NotYet,
}

/// Whether a batch that was taken isn't answered. Linear in the workers.
pub(crate) fn is_busy(replica: &Replica, workers: usize) -> bool
    requires { workers ≡ length replica.now.owed }
    ensures { result ≡ is_busy replica.now.owed }
{
    for worker in 0..workers {
        if replica.owed(worker).is_some() {
            return true;
        }
    }
    false
}

/// Passes the entries up to a place, where they are there. False where one isn't yet, or where the node has reserved one that lies there or behind.
pub(crate) fn reach<B: LogName>(
    end: &mut End<B>,
    kept: &OwnEntries,
    replica: &mut Replica,
    accounts: &mut JobNumbers,
    next: &mut Option<Next>,
    place: u64,
) -> bool
    requires idle { end.old.standing.held ≡ None }
    requires next { HasFirst next.old }
    requires behind { passed_of end.old.standing ≤ place }
    ensures idle { end.new.standing.held ≡ None }
    ensures met { MeetsNoTail end.old end.new }
    ensures goes { (entries : List Entry) × GoesOn entries end.old.standing end.new.standing replica.old replica.new next.old next.new accounts.old accounts.new }
    ensures reached { result ≡ true → (passed_of end.new.standing ≡ place) × (is_from place kept.now.last ≡ false) }
    ensures before { result ≡ false → ((passed_of end.new.standing < place) × HasStopped end.old.looks end.new replica.new) ⊎ ((passed_of end.new.standing ≡ place) × (is_from place kept.now.last ≡ true)) }
{
    let count = place - end.passed();
    if !advance_by(end, replica, accounts, next, count) {
        return false;
    }
    !kept.has_from(place)
}

/// A replica that is down comes back with an offer of the log.
pub(crate) fn come_back<B: LogName>(end: &mut End<B>, replica: &mut Replica, offer: NodeOffer<B>)
    requires { replica.old.down ≡ true }
    ensures replica { replica.new ≡ revived_replica offer replica.old }
    ensures of_one_log { AreOfOneLog end.old.standing offer.standing }
    ensures end { end.new ≡ end.old }
    ensures offered { IsOffered offer }
{
    let NodeOffer {
        server,
        mut token,
        place,
    } = offer;
    end.meets(&mut token);
    replica.revive(server, place);
}
