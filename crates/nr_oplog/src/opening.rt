// Opening a log, and giving it its name.
ghost use Rattle.std.specs.Prelude.{ℕ, ◌≡◌, ◌+◌, ◌*◌, ◌<◌, ◌≤◌, ◌↔◌, [], length, IfOk, Err, slice_get, Some};
ghost use Rattle.nr_oplog.specs.Rule.{opening_view};
ghost use Rattle.nr_oplog.specs.Names.{IsShape};
ghost use Rattle.nr_oplog.specs.Opening.{name_of, nodes_of, places_of};

use crate::log::{LogName, Oplog};
use crate::open::OpenedLog;
use crate::seat::LogSeat;
use crate::view::{LogShape, LogSlotSeat};
use atomic_table::Table;
use nr_blob::Memory;
use nr_entry::BuildError;
use std::alloc::Global;
use std::marker::PhantomData;

impl OpenedLog {
    /// A log of `nodes` nodes, 1 to 8, and `places` places, 2 to 65,536. It takes a block of a word and one of a slot for each place of each
    /// node, and some words more.
    pub fn open(alloc: Global, nodes: usize, places: usize) -> Result<OpenedLog, BuildError>
        ensures ok { IfOk result (λ opened. (nodes_of opened ≡ nodes) × (places_of opened ≡ places)) }
        ensures shape { (result ≡ Err BuildError.BadShape) ↔ (IsShape nodes places → ⊥) }
    {
        if nodes < 1 || nodes > 8 || places < 2 || places > 65536 {
            return Err(BuildError::BadShape);
        }
        Ok(OpenedLog::laid(alloc, nodes, places)?)
    }

    // The words and slots of a log of this shape.
    fn laid(alloc: Global, nodes: usize, places: usize) -> Result<OpenedLog, Memory>
        requires { IsShape nodes places }
        ensures { IfOk result (λ opened. (nodes_of opened ≡ nodes) × (places_of opened ≡ places)) }
    {
        let row = places + 16;
        let words = Vec::from_elem(alloc, 0u64, 16 * nodes + 16 + nodes * row)?;
        let shape = LogShape {
            nodes: nodes as u64,
            places: places as u64,
        };
        let (table, seat) = Table::vacant(alloc, words.as_slice(), nodes * places, &shape)?;
        Ok(OpenedLog {
            table,
            seat,
            nodes,
            places,
        })
    }

    /// Gives the log its name, and each node its seat, the first one node 0. It takes memory for the list of seats alone.
    pub fn named<B: LogName>(self, alloc: Global) -> Result<(Oplog<B>, Vec<LogSeat<B>>), Memory>
        requires name { name_of self ≡ B.log }
        requires shape { (nodes_of self ≡ B.nodes) × (places_of self ≡ B.places) }
        ensures seats { IfOk result (λ r. (length r.1.items ≡ B.nodes) × ((node : ℕ) → node < B.nodes → slice_get r.1.items node ≡ Some (opening_view B.nodes B.places node (node + 1)))) }
    {
        let OpenedLog {
            table,
            seat,
            nodes,
            places,
        } = self;
        let log = Oplog {
            table,
            nodes,
            places,
            of: PhantomData,
        };
        let seats = log.seats(alloc, seat)?;
        Ok((log, seats))
    }
}

impl<B: LogName> Oplog<B> {
    // The seats of all nodes, cut from the first one.
    fn seats(&self, alloc: Global, mut seat: LogSlotSeat) -> Result<Vec<LogSeat<B>>, Memory>
        requires { (seat.table_id ≡ B.log) × (seat.me ≡ (opening_view B.nodes B.places 0 B.nodes, [])) }
        ensures { IfOk result (λ seats. (length seats.items ≡ B.nodes) × ((node : ℕ) → node < B.nodes → slice_get seats.items node ≡ Some (opening_view B.nodes B.places node (node + 1)))) }
    {
        let mut seats = Vec::with_capacity(alloc, self.nodes)?;
        for node in 0..self.nodes {
            let own = self.cut(&mut seat, node);
            seats.push(LogSeat::first(alloc, own, node))?;
        }
        Ok(seats)
    }
}
