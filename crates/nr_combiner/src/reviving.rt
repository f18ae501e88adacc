// A node that is down comes back with a copy of another one's server.
ghost use Rattle.std.specs.Prelude.{OnOk};
ghost use Rattle.nr_combiner.specs.Behind.{RevivesBehind};

use crate::name::ServerName;
use crate::node::Node;
use nr_blob::Memory;
use nr_node::{NodeOffer, ReviveError};
use nr_replica::OfferError;
use std::sync::Wait;
use std::thread;

/// How often a copy is asked for, and how often it is tried to come back with it, before that is given up. Between two tries the lock is free, and others may run.
const MOST_TRIES: u32 = 10_000;

/// Why a node behind its lock didn't come back.
#[derive(Clone, Copy, Debug, PartialEq, Eq)]
pub enum RevivalError {
    /// It isn't down.
    NotDown,
    /// The other one is down.
    DonorDown,
    /// An entry wasn't there in time: it may be tried again.
    NotYet,
    /// The copy lacks an entry that was passed: it may be tried again with another.
    Behind,
    /// Another node stands behind the lock, which there never is.
    Elsewhere,
    /// There was no memory for the copy.
    Memory(Memory),
}

impl From<OfferError> for RevivalError {
    fn from(why: OfferError) -> RevivalError {
        match why {
            OfferError::Down => RevivalError::DonorDown,
            OfferError::Memory(memory) => RevivalError::Memory(memory),
        }
    }
}

impl From<ReviveError> for RevivalError {
    fn from(why: ReviveError) -> RevivalError {
        match why {
            ReviveError::NotDown => RevivalError::NotDown,
            ReviveError::Behind => RevivalError::Behind,
            ReviveError::Busy | ReviveError::NotYet => RevivalError::NotYet,
        }
    }
}

impl<B: ServerName> Node<B> {
    /// Where it is down it comes back with a copy of the server of another node of its log. The lock of one of the two is held at a time: of its own for a turn, by which
    /// all batches are answered, and from which on it passes no entry; then of the other's, for a turn and a copy of what is stored, which is linear in that; then of its
    /// own, for the entries up to the copy's place, again and again while one of them isn't there yet. Where it doesn't come back it goes on as before. It takes no memory
    /// but that of the copy. How many keys it has then.
    ///
    /// # Errors
    ///
    /// Those of [`RevivalError`]. Nothing changed then, but that entries were passed.
    pub fn revive<R: Wait>(&self, rt: &R, donor: &Node<B>) -> Result<u64, RevivalError>
        ensures { OnOk result (RevivesBehind self.now.node) }
    {
        self.halt(rt)?;
        let revived = self.revive_halted(rt, donor);
        if revived.is_err() {
            self.go_on(rt);
        }
        revived
    }

    // The same once it passes nothing.
    fn revive_halted<R: Wait>(&self, rt: &R, donor: &Node<B>) -> Result<u64, RevivalError>
        ensures { OnOk result (RevivesBehind self.now.node) }
    {
        let offer = donor.offer_in_time(rt)?;
        let keys = offer.keys();
        self.come_back_in_time(rt, offer)?;
        Ok(keys)
    }

    // A copy of its server, where all entries that there were are in it after a while.
    fn offer_in_time<R: Wait>(&self, rt: &R) -> Result<NodeOffer<B>, RevivalError> {
        for _ in 0..MOST_TRIES {
            let offer = self.offer(rt);
            if !matches!(offer, Err(RevivalError::NotYet)) {
                return offer;
            }
            thread::yield_now();
        }
        Err(RevivalError::NotYet)
    }

    // It comes back with a copy, where the entries up to its place are there after a while.
    fn come_back_in_time<R: Wait>(&self, rt: &R, offer: NodeOffer<B>) -> Result<(), RevivalError>
        ensures { OnOk result (RevivesBehind self.now.node) }
    {
        let mut offer = offer;
        for _ in 0..MOST_TRIES {
            match self.come_back(rt, offer) {
                Ok(()) => return Ok(()),
                Err((back, RevivalError::NotYet)) => offer = back,
                Err((_, why)) => return Err(why),
            }
            thread::yield_now();
        }
        Err(RevivalError::NotYet)
    }
}
