// A node's end of a log, with the entry that it is about to append.
ghost use Rattle.std.specs.Prelude.{◌≡◌, ◌<◌};
ghost use Rattle.nr_log_tests.specs.Ready.{IsReady};

use crate::entries::{append, shares, take};
use nr_blob::Memory;
use nr_entry::Shares;
use nr_log_end::{LogEnd, Reserve};
use nr_oplog::{End, LogName};
use std::alloc::Global;
use std::marker::Model;

// A node's end, between two calls, with the shares of an entry that wait for a place. Contracts see the node.
#[derive(Drop)]
pub(crate) struct Node<B: LogName> {
    end: End<B>,
    node: usize,
    nodes: usize,
    // The number of the job that waits, or the least that the next one may have. Those of the entries that were appended are below it.
    next: u64,
    waiting: Option<Shares>,
}

impl<B: LogName> Model for Node<B> {
    ghost use Rattle.std.specs.Prelude.{ℕ, IfSome};
    ghost use Rattle.nr_log_tests.specs.Ready.{IsReady, IsOfNode};

    ghost Value = { ℕ };

    ghost view = { λ n. n.node };

    ghost invariant = { λ n. IsReady n.node n.nodes n.next n.end.standing × IfSome n.waiting (IsOfNode n.node n.nodes n.next) };
}

// What came of a try to append an entry.
#[derive(Clone, Copy, Debug, PartialEq, Eq)]
pub(crate) enum Tried {
    At(u64),
    Full,
    Lost,
    // No entry waits, or there is no number behind its own.
    Nothing,
}

impl<B: LogName> Node<B> {
    // The node of an end that is ready, before the first entry.
    pub(crate) fn new(end: End<B>, node: usize, nodes: usize) -> Node<B>
        requires { IsReady node nodes 0 end.standing }
        ensures { result ≡ node }
    {
        Node {
            end,
            node,
            nodes,
            next: 0,
            waiting: None,
        }
    }

    // Makes an entry whose job has this number. It waits for a place, instead of one that waited before. `false` comes back, and nothing is made,
    // where the number is below the next one: a node's numbers rise. The tests never meet this.
    pub(crate) fn offer(&mut self, alloc: Global, number: u64) -> Result<bool, Memory>
        ensures { self.new ≡ self.old }
    {
        if number < self.next {
            return Ok(false);
        }
        let offered = shares(alloc, self.node, self.nodes, number)?;
        self.next = number;
        self.waiting = Some(offered);
        Ok(true)
    }

    // Tries once to append the entry that waits. It goes on waiting where there is no place.
    pub(crate) fn append(&mut self) -> Tried
        ensures { self.new ≡ self.old }
    {
        let Some(after) = self.next.checked_add(1) else {
            return Tried::Nothing;
        };
        let Some(shares) = self.waiting.take() else {
            return Tried::Nothing;
        };
        match append(&mut self.end, self.node, self.nodes, self.next, shares) {
            Reserve::Taken(at) => {
                self.next = after;
                Tried::At(at)
            }
            Reserve::Full(back) => {
                self.waiting = Some(back);
                Tried::Full
            }
            Reserve::Lost(back) => {
                self.waiting = Some(back);
                Tried::Lost
            }
        }
    }

    // The number of the next entry's job, where the entry is there. It is passed.
    pub(crate) fn take(&mut self) -> Option<u64>
        ensures { self.new ≡ self.old }
    {
        take(&mut self.end, self.node, self.nodes, self.next)
    }

    // How many entries were appended.
    pub(crate) fn tail(&mut self) -> u64
        ensures { self.new ≡ self.old }
    {
        self.end.tail()
    }
}
