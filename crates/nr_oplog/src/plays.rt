// What each step tells its seat. These types are for the proofs alone.
ghost use Rattle.nr_oplog.specs.Plays.{saw_tail, saw_tail_and_did, saw_passed, claimed, took_to_fill, filled, looked_for_next, passed_next, compared, adopted, node_left, node_right, token_view, with_told, nobody};

use crate::view::LogView;
use atomic_table::{Join, Play, Split};
use nr_entry::Entry;
use std::alloc::Global;
use std::marker::{Brand, PhantomData};
use std::sync::Arc;

pub(crate) struct SeeTail;

impl Play<Option<Arc<Entry, Global>>, LogView> for SeeTail {
    ghost then = { λ _. saw_tail };
}

/// Names what was done.
pub trait DoneTurns {
    ghost use Rattle.std.specs.Prelude.{List};
    ghost use Rattle.nr_log_end.specs.declared.standing.LogEvent.{LogEvent};

    ghost turns: { List LogEvent };
}

impl DoneTurns for Brand {
    ghost use Rattle.std.specs.Prelude.{[]};

    ghost turns = { [] };
}

pub(crate) struct SeeTailAndDo<T> {
    marker: PhantomData<T>,
}

impl<T: DoneTurns> Play<Option<Arc<Entry, Global>>, LogView> for SeeTailAndDo<T> {
    ghost then = { λ _. saw_tail_and_did T.turns };
}

pub(crate) struct SeePassed;

impl Play<Option<Arc<Entry, Global>>, LogView> for SeePassed {
    ghost then = { saw_passed };
}

pub(crate) struct Claim;

impl Play<Option<Arc<Entry, Global>>, LogView> for Claim {
    ghost then = { claimed };
}

pub(crate) struct TakeToFill;

impl Play<Option<Arc<Entry, Global>>, LogView> for TakeToFill {
    ghost then = { took_to_fill };
}

pub(crate) struct Fill;

impl Play<Option<Arc<Entry, Global>>, LogView> for Fill {
    ghost then = { λ _ m _. filled m };
}

pub(crate) struct LookForNext;

impl Play<Option<Arc<Entry, Global>>, LogView> for LookForNext {
    ghost then = { looked_for_next };
}

pub(crate) struct PassNext;

impl Play<Option<Arc<Entry, Global>>, LogView> for PassNext {
    ghost then = { λ _ m _. passed_next m };
}

pub(crate) struct Compare;

impl Play<Option<Arc<Entry, Global>>, LogView> for Compare {
    ghost then = { λ _. compared };
}

// A token that was told of another one takes over what that knows, where it is later.
pub(crate) struct Adopt;

impl Play<Option<Arc<Entry, Global>>, LogView> for Adopt {
    ghost then = { λ _. adopted };
}

// The next node's seat is cut from the seat of all nodes from there on.
pub(crate) struct NextNode;

impl Split<LogView> for NextNode {
    ghost left = { node_left };

    ghost right = { node_right };
}

// A token is cut from a node's seat, or from a token.
pub(crate) struct Keep;

impl Split<LogView> for Keep {
    ghost left = { λ v. v };

    ghost right = { token_view };
}

// A token is told of another one.
pub(crate) struct Tell;

impl Join<LogView> for Tell {
    ghost both = { with_told };

    ghost spent = { nobody };
}
