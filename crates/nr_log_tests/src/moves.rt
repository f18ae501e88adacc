// Moves at a log that nodes make in turn.
ghost use Rattle.std.specs.Prelude.{◌≡◌, length, IfOk};
ghost use Rattle.nr_oplog.specs.Opening.{name_of, nodes_of, places_of};

use crate::node::{Node, Tried};
use crate::nodes::nodes;
use nr_blob::Memory;
use nr_entry::BuildError;
use nr_oplog::{LogName, OpenedLog};
use std::alloc::Global;
use std::marker::Brand;

/// What a node does at the log.
#[derive(Clone, Copy, Debug, PartialEq, Eq)]
pub(crate) enum Move {
    /// Tries once to append an entry whose job has this number.
    Append(u64),
    /// Takes the next entry, and passes it.
    Take,
    /// Asks how many entries were appended.
    Tail,
}

/// What came of a move.
#[derive(Clone, Copy, Debug, PartialEq, Eq)]
pub(crate) enum Outcome {
    /// The entry has this number among all.
    At(u64),
    /// There is no place.
    Full,
    /// Another node appended in between.
    Lost,
    /// The number is below one that the node appended or offered before. The tests never meet it.
    Refused,
    /// The entry that was taken has a job of this number.
    Took(u64),
    /// The next entry isn't there.
    Nothing,
    /// So many entries were appended.
    Tail(u64),
    /// The log has no such node.
    NoNode,
}

/// What comes of these moves at a new log of `nodes` nodes, 1 to 8, and `places` places, 2 to 65,536, each move that of a node.
pub(crate) fn play(
    alloc: Global,
    nodes: usize,
    places: usize,
    moves: &[(usize, Move)],
) -> Result<Vec<Outcome>, BuildError>
    ensures { IfOk result (λ outcomes. length outcomes.items ≡ length moves.now) }
{
    let opened = OpenedLog::open(alloc, nodes, places)?;
    Ok(play_named::<Brand>(alloc, opened, moves)?)
}

fn play_named<B: LogName>(
    alloc: Global,
    opened: OpenedLog,
    moves: &[(usize, Move)],
) -> Result<Vec<Outcome>, Memory>
    requires name { name_of opened ≡ B.log }
    requires shape { (nodes_of opened ≡ B.nodes) × (places_of opened ≡ B.places) }
    ensures { IfOk result (λ outcomes. length outcomes.items ≡ length moves.now) }
{
    let mut nodes = nodes::<B>(alloc, opened)?;
    let mut outcomes = Vec::with_capacity(alloc, moves.len())?;
    for (node, step) in moves {
        let outcome = match nodes.get_mut(*node) {
            Some(node) => make(alloc, node, *step)?,
            None => Outcome::NoNode,
        };
        outcomes.push(outcome)?;
    }
    Ok(outcomes)
}

fn make<B: LogName>(alloc: Global, node: &mut Node<B>, step: Move) -> Result<Outcome, Memory> {
    Ok(match step {
        Move::Append(number) => {
            if !node.offer(alloc, number)? {
                return Ok(Outcome::Refused);
            }
            match node.append() {
                Tried::At(at) => Outcome::At(at),
                Tried::Full => Outcome::Full,
                Tried::Lost => Outcome::Lost,
                Tried::Nothing => Outcome::Nothing,
            }
        }
        Move::Take => match node.take() {
            Some(number) => Outcome::Took(number),
            None => Outcome::Nothing,
        },
        Move::Tail => Outcome::Tail(node.tail()),
    })
}
