// What an entry emitted is delivered once all of it was applied, each reply and message to its connection.
ghost use Rattle.std.specs.Prelude.{◌≡◌, ◌<◌, ◌∷◌, ℕ, [], length, slice_index_or, Option};
ghost use Rattle.nr_model.specs.Connections.{is_some_bytes};
ghost use Rattle.nr_model.specs.Queues.{received};
ghost use Rattle.nr_emission.specs.Emitted.{Written};
ghost use Rattle.nr_entry.specs.Jobs.{connection_of};
ghost use Rattle.nr_replica.specs.Members.{AreNumbered, AreGiven, members_seen};
ghost use Rattle.nr_replica.specs.Ready.{has_serial, IsMarked, AreReady};

use crate::members::NodeMembers;
use crate::outbox::Outbox;
use crate::ready::ReadySerials;
use nr_emission::Staging;
use nr_entry::ConnId;

/// Delivers what is held back for connections of the node, in order. It takes as many steps as there are emissions, each logarithmic, and
/// copies their bytes.
pub(crate) fn deliver(staging: &Staging, node: usize, members: &mut NodeMembers)
    requires numbered { AreNumbered node 0 (members_seen node members.old) }
    requires ready { AreReady members.old.ready.sets.items (members_seen node members.old) }
    ensures given { AreGiven staging.now (members_seen node members.old) (members_seen node members.new) }
    ensures ready { AreReady members.new.ready.sets.items (members_seen node members.new) }
{
    for index in 0..staging.len() {
        let (conn, bytes) = staging.get(index);
        give(conn, bytes, node, members);
    }
}

// A reply or a message to one connection, if it is one of the node's that is open.
fn give(conn: ConnId, bytes: &[u8], node: usize, members: &mut NodeMembers)
    requires numbered { AreNumbered node 0 (members_seen node members.old) }
    requires ready { AreReady members.old.ready.sets.items (members_seen node members.old) }
    ensures given { AreGiven (record { connection = connection_of conn; bytes = bytes.now } ∷ []) (members_seen node members.old) (members_seen node members.new) }
    ensures ready { AreReady members.new.ready.sets.items (members_seen node members.new) }
{
    if conn.node == node {
        let Some(worker) = members.find_worker(conn.serial) else {
            return;
        };
        if let Some(outbox) = members.outboxes.get_mut(&conn.serial) {
            let was_cut = outbox.is_cut();
            put(bytes, worker, conn.serial, outbox, &mut members.ready);
            members
                .ready
                .backlogs
                .note(worker, conn.serial, was_cut, outbox);
        }
    }
}

// The same to its queue.
fn put(bytes: &[u8], worker: usize, serial: u64, outbox: &mut Outbox, ready: &mut ReadySerials)
    requires { has_serial ready.old.sets.items worker serial ≡ is_some_bytes outbox.old.waiting }
    ensures received { (refused : Option ℕ) × (outbox.new ≡ received refused outbox.old (bytes.now ∷ [])) }
    ensures marked { IsMarked worker serial (is_some_bytes outbox.new.waiting) ready.old.sets.items ready.new.sets.items }
{
    if ready.announce(worker, serial, outbox) {
        outbox.put_bytes(bytes);
        ready.withdraw(worker, serial, outbox);
    }
}
