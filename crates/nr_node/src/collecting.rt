// What waits for a worker's connections is handed out in one go.
ghost use Rattle.std.specs.Prelude.{◌≡◌, ◌≢◌, ◌<◌, ◌++◌, ◌∷◌, [], length, IfOk, IfSome, IfNone, OnOk, OnErr};
ghost use Rattle.nr_entry.specs.Jobs.{connection_of};
ghost use Rattle.nr_node.specs.Batches.{IsOpened};
ghost use Rattle.nr_node.specs.Collected.{Collects, HandsOver, IsHanded};
ghost use Rattle.nr_node.specs.Level.{queue_at};

use crate::node_core::Core;
use nr_blob::Memory;
use nr_entry::ConnId;
use nr_oplog::LogName;
use nr_replica::{Piece, Spares};

/// What was handed out for a connection.
#[derive(Drop)]
pub struct LastPiece {
    pub piece: Piece,
    /// Whether nothing more comes to wait for it: its queue was cut, or it was closed. Bytes that were left behind the piece are still handed out.
    pub is_cut: bool,
}

impl<B: LogName> Core<B> {
    /// Hands out what waits for the connections that a worker serves, that of the lowest serial first: of each at most `most` of its first bytes, and at least
    /// one. They stand behind what `taken` has. It costs a [`Replica::next_ready`](nr_replica::Replica::next_ready) for each of these connections and one more,
    /// and is linear in the bytes. Queues that give their buffers away take spare ones. Where memory runs out it stops there, and what was handed out stands in
    /// `taken`: nothing is lost.
    pub fn collect(
        &mut self,
        worker: usize,
        most: usize,
        spares: &mut Spares,
        taken: &mut Vec<LastPiece>,
    ) -> Result<(), Memory>
        requires some { 0 < most }
        requires worker { worker < length self.old.replica.owed }
        ensures { Collects worker most taken.old.items taken.new.items result self.old self.new }
    {
        let count = self.connections();
        let mut from = 0;
        while from < count {
            let Some(conn) = self.next_ready(worker, from) else {
                return Ok(());
            };
            self.hand_over(conn, most, spares, taken)?;
            from = conn.serial + 1;
        }
        Ok(())
    }

    // Hands out the first bytes that wait for a connection, behind what was taken. Where memory runs out nothing changes.
    fn hand_over(
        &mut self,
        conn: ConnId,
        most: usize,
        spares: &mut Spares,
        taken: &mut Vec<LastPiece>,
    ) -> Result<(), Memory>
        requires some { 0 < most }
        requires opened { IsOpened self.old (connection_of conn) }
        requires waiting { (queue_at conn.serial self.old.replica.members).waiting ≢ [] }
        ensures handed { OnOk result (HandsOver most conn.serial taken.old.items taken.new.items self.old self.new) }
        ensures same { OnErr result ((taken.new.items ≡ taken.old.items) × (self.new ≡ self.old)) }
    {
        taken.reserve(1)?;
        let Some(one) = self.hand_out(conn, most, spares)? else {
            return Ok(());
        };
        taken.push_reserved(one);
        Ok(())
    }
}
