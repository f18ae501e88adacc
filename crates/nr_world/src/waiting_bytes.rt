// Handing out: the bytes that wait for a worker's connections, one connection after the other.
ghost use Rattle.std.specs.Prelude.{◌≡◌, ◌<◌, ◌++◌, true, OnOk, length, map, slice_index_or, slice_set};
ghost use Rattle.nr_model.specs.Connections.{is_some_bytes};
ghost use Rattle.nr_replica.specs.Members.{Member, AreNumbered};
ghost use Rattle.nr_world.specs.Seen.{handed_seen};
ghost use Rattle.nr_world.specs.Collected.{emptied, waiting_of, emptied_member, collected_members};

use crate::step::HandedBytes;
use nr_blob::Memory;
use nr_replica::{Replica, Spares};

/// Hands out all bytes that wait for the connections of a worker, in the order of their serials. Linear in those for which bytes wait, and
/// the bytes.
pub(crate) fn collect(
    replica: &mut Replica,
    worker: usize,
    handed: &mut Vec<HandedBytes>,
) -> Result<(), Memory>
    requires is_there { worker < length replica.old.owed }
    requires numbered { AreNumbered replica.old.node 0 replica.old.members }
    ensures members { OnOk result (replica.new ≡ record replica.old { members = map (emptied_member worker) replica.old.members }) }
    ensures handed { OnOk result (map handed_seen handed.new.items ≡ map handed_seen handed.old.items ++ collected_members worker replica.old.members) }
{
    while let Some(serial) = replica.next_ready(worker, 0) {
        hand_out(replica, serial, handed)?;
    }
    Ok(())
}

// What waits for one connection.
fn hand_out(
    replica: &mut Replica,
    serial: usize,
    handed: &mut Vec<HandedBytes>,
) -> Result<(), Memory>
    requires is_there { serial < length replica.old.members }
    requires named { (d : Member) → (slice_index_or replica.old.members serial d).outbox.connection ≡ record { node = replica.old.node; serial = serial } }
    requires waits { (d : Member) → is_some_bytes (slice_index_or replica.old.members serial d).outbox.waiting ≡ true }
    ensures members { (d : Member) → OnOk result (replica.new
        ≡ record replica.old { members = slice_set replica.old.members serial (emptied (slice_index_or replica.old.members serial d)) }) }
    ensures handed { (d : Member) → OnOk result (map handed_seen handed.new.items
        ≡ map handed_seen handed.old.items ++ waiting_of (slice_index_or replica.old.members serial d)) }
{
    let waiting = replica.waiting(serial);
    let mut spares = Spares::new(*handed.allocator());
    let Some(piece) = replica.take_piece(serial, waiting, &mut spares)? else {
        return Ok(());
    };
    handed.push(HandedBytes {
        conn: piece.conn,
        bytes: piece.bytes,
    })?;
    Ok(())
}
