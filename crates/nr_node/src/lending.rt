// A node's server is lent: whoever has the loan reads from it beside the node's lock.
ghost use Rattle.std.specs.Prelude.{◌≡◌, ◌≤◌, ◌++◌, ◌∷◌, [], None, true, false, IfSome, IfNone};
ghost use Rattle.nr_model.specs.Entries.{Jobs};
ghost use Rattle.nr_model.specs.Servers.{fresh, after_all};
ghost use Rattle.nr_entry.specs.Jobs.{items_of};
ghost use Rattle.nr_replica.specs.Lent.{AreRepliesTo};
ghost use Rattle.nr_log_end.specs.Standings.{LooksOn, StandsInLog, passed_of, record_of};
ghost use Rattle.nr_node.specs.Lending.{AreReadyFor};
ghost use Rattle.nr_node.specs.Level.{IsLevel};
ghost use Rattle.nr_node.specs.Sound.{IsSound};

use nr_entry::Job;
use nr_log_end::{Load, LogEnd};
use nr_oplog::{End, LogName, Token};
use nr_replica::{Lent, Replica, Replies, Spares};
use std::alloc::Global;
use std::marker::Model;

/// A node's server, lent to be read from beside its lock, and what the node had done then. While it is there the node takes no entry in. Contracts see how it stood.
#[derive(Drop)]
pub struct Loan<B: LogName> {
    lent: Lent,
    token: Token<B>,
}

impl<B: LogName> Model for Loan<B> {
    ghost use Rattle.std.specs.Prelude.{◌≡◌};
    ghost use Rattle.nr_model.specs.Servers.{fresh, after_all};
    ghost use Rattle.nr_log_end.specs.declared.standing.Standing.{Standing};
    ghost use Rattle.nr_log_end.specs.contracts.standing.Standing as of_standing;
    ghost use Rattle.nr_log_end.specs.Standings.{record_of};
    ghost use Rattle.nr_node.specs.Sound.{IsSound};

    ghost Value = { Standing };

    ghost coded = { of_standing.the_row.coded };

    ghost view = { λ l. l.token.standing };

    ghost invariant = { λ l. (l.lent ≡ after_all fresh (record_of l.token.standing.history)) × IsSound l.token.standing };
}

/// Replies to reads that were run beside the lock of a node that stood so. Contracts see them and how it stood.
#[derive(Drop)]
pub struct Prepared<B: LogName> {
    replies: Vec<Replies>,
    token: Token<B>,
}

impl<B: LogName> Model for Prepared<B> {
    ghost use Rattle.nr_node.specs.Lending.{PreparedState, coded_prepared};

    ghost Value = { PreparedState };

    ghost coded = { coded_prepared };

    ghost view = { λ p. record { replies = p.replies.items; standing = p.token.standing } };
}

impl<B: LogName> Loan<B> {
    /// Runs these jobs, where all are reads, and gives the server back, also where there are no replies. `None` where one is no read, where the replies to those of a
    /// connection that stand behind one another pass the limit, or where memory runs out. It costs what the looks cost.
    pub fn answer(
        self,
        alloc: Global,
        limit: usize,
        spares: &mut Spares,
        jobs: &[Job],
    ) -> Option<Prepared<B>>
        ensures ready { IfSome result (λ prepared. AreReadyFor (items_of jobs.now) prepared) }
        ensures stood { IfSome result (λ prepared. prepared.standing ≡ self) }
    {
        let Loan { lent, token } = self;
        let Some(replies) = lent.answer(alloc, limit, spares, jobs) else {
            return None;
        };
        Some(Prepared { replies, token })
    }
}

/// The replies that were prepared, where the node has passed as many entries as it had then: whoever lent the server, it is the same one.
pub(crate) fn replies_for<B: LogName>(
    end: &mut End<B>,
    prepared: Option<Prepared<B>>,
) -> Option<Vec<Replies>>
    requires sound { IsSound end.old.standing }
    ensures ready { IfSome result (λ replies. (jobs : Jobs) → IfSome prepared (AreReadyFor jobs) → AreRepliesTo (after_all fresh (record_of end.old.standing.history)) jobs replies.items) }
    ensures end { end.new ≡ end.old }
{
    let Some(prepared) = prepared else {
        return None;
    };
    let Prepared { replies, mut token } = prepared;
    if !end.is_as_far(&mut token) {
        return None;
    }
    Some(replies)
}

/// Lends a replica's server, where all entries are passed that there are by a load of the tail.
pub(crate) fn lend<B: LogName>(end: &mut End<B>, replica: &mut Replica) -> Option<Loan<B>>
    requires level { IsLevel end.old.standing replica.old }
    requires sound { IsSound end.old.standing }
    ensures stood { IfSome result (λ loan. (loan ≡ end.new.standing) × IsSound loan) }
    ensures lent { IfSome result (λ _. (replica.old.down ≡ false) × (replica.new ≡ record replica.old { lent = true })) }
    ensures passed { IfSome result (λ _. end.new.standing.seen ≤ passed_of end.new.standing) }
    ensures none { IfNone result (replica.new ≡ replica.old) }
    ensures replica { replica.new ≡ record replica.old { lent = replica.new.lent } }
    ensures met { LooksOn end.old.standing end.new.standing }
    ensures in_log { StandsInLog end.new.standing }
    ensures looks { end.new.looks ≡ end.old.looks ++ Load.Tail end.new.standing.seen ∷ [] }
{
    let tail = end.tail();
    if end.passed() < tail {
        return None;
    }
    let Some(lent) = replica.lend() else {
        return None;
    };
    let token = end.token();
    Some(Loan { lent, token })
}
