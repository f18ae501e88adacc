// All nodes of a log.
ghost use Rattle.std.specs.Prelude.{ℕ, ◌≡◌, ◌+◌, ◌<◌, length, slice_get, Some, IfOk};
ghost use Rattle.nr_oplog.specs.Rule.{opening_view};
ghost use Rattle.nr_oplog.specs.Opening.{name_of, nodes_of, places_of};

use crate::node::Node;
use nr_blob::Memory;
use nr_oplog::{End, LogName, LogSeat, OpenedLog, Oplog};
use std::alloc::Global;
use std::sync::Arc;

// The nodes of a log that was opened, the first one node 0.
pub(crate) fn nodes<B: LogName>(alloc: Global, opened: OpenedLog) -> Result<Vec<Node<B>>, Memory>
    requires name { name_of opened ≡ B.log }
    requires shape { (nodes_of opened ≡ B.nodes) × (places_of opened ≡ B.places) }
    ensures { IfOk result (λ all. length all.items ≡ B.nodes) }
{
    let (log, seats) = opened.named::<B>(alloc)?;
    ends(alloc, log, seats)
}

fn ends<B: LogName>(
    alloc: Global,
    log: Oplog<B>,
    mut seats: Vec<LogSeat<B>>,
) -> Result<Vec<Node<B>>, Memory>
    requires { (length seats.items ≡ B.nodes) × ((node : ℕ) → node < B.nodes → slice_get seats.items node ≡ Some (opening_view B.nodes B.places node (node + 1))) }
    ensures { IfOk result (λ all. length all.items ≡ B.nodes) }
{
    let nodes = log.nodes();
    let log = Arc::new(alloc, log)?;
    let mut all = Vec::with_capacity(alloc, nodes)?;
    while let Some(seat) = seats.pop() {
        let node = seats.len();
        all.push(ready(seat, Arc::try_clone(&log)?, node, nodes))?;
    }
    all.reverse();
    Ok(all)
}

fn ready<B: LogName>(
    seat: LogSeat<B>,
    log: Arc<Oplog<B>, Global>,
    node: usize,
    nodes: usize,
) -> Node<B>
    requires { (seat ≡ opening_view B.nodes B.places node (node + 1)) × (node < B.nodes) × (nodes ≡ B.nodes) }
{
    Node::new(End::new(seat, log), node, nodes)
}
