// The taps of the connections that are open here.
ghost use Rattle.std.specs.Prelude.{◌≡◌, ◌≤◌, ◌∷◌, [], Some, None, drop, length, map, OnOk};
ghost use Rattle.std.specs.Option.{option_map};
ghost use Rattle.nr_model.specs.Bytes.{Bytes};
ghost use Rattle.nr_model.specs.Items.{Connection};
ghost use Rattle.nr_entry.specs.Jobs.{connection_of};
ghost use Rattle.nr_world.specs.Seen.{handed_seen};
ghost use Rattle.nr_service.specs.Stories.{kept_bytes};
ghost use Rattle.nr_world_service.specs.Kept.{kept_at, IsPut, AreKept};

use crate::tap::Tap;
use nr_blob::Memory;
use nr_entry::ConnId;
use nr_world::HandedBytes;
use std::alloc::Global;
use std::collections::BTreeMap;

/// By connection, what was handed out for it and not yet written.
#[derive(Drop)]
pub(crate) struct Taps {
    pub(crate) alloc: Global,
    pub(crate) by_conn: BTreeMap<ConnId, Tap>,
    // For which connections pieces came last. A hint.
    told: Vec<ConnId>,
}

// Tells of a connection, where there is room for that.
fn tell(told: &mut Vec<ConnId>, conn: ConnId) {
    let _ = told.push(conn);
}

impl Taps {
    pub(crate) fn new(alloc: Global) -> Taps
        ensures { (c : Connection) → kept_at c result.by_conn.entries ≡ None }
    {
        Taps {
            alloc,
            by_conn: BTreeMap::new(alloc),
            told: Vec::new(alloc),
        }
    }

    /// An empty tap for a connection. Logarithmic.
    #[tactic(auto, using(crate::proofs::Found::put_by))]
    pub(crate) fn open(&mut self, conn: ConnId) -> Result<(), Memory>
        ensures { OnOk result (IsPut conn (Some []) self.old.by_conn.entries self.new.by_conn.entries) }
    {
        self.by_conn.insert(conn, Tap::new(self.alloc))?;
        Ok(())
    }

    /// The tap of a connection goes. Logarithmic.
    #[tactic(auto, using(crate::proofs::Found::put_by))]
    pub(crate) fn close(&mut self, conn: ConnId)
        ensures { IsPut conn None self.old.by_conn.entries self.new.by_conn.entries }
    {
        self.by_conn.remove(&conn);
    }

    /// A connection for which a piece came last, the first at place 0 and so on.
    pub(crate) fn told(&self, place: usize) -> Option<ConnId> {
        self.told.get(place).copied()
    }

    /// What is kept for a connection. Logarithmic.
    pub(crate) fn bytes(&self, conn: ConnId) -> &[u8]
        ensures { result.now ≡ kept_bytes (kept_at (connection_of conn) self.now.by_conn.entries) }
    {
        match self.by_conn.get(&conn) {
            Some(tap) => tap.bytes(),
            None => &[],
        }
    }

    /// Lets go of the first so many bytes of a connection. Logarithmic.
    pub(crate) fn let_go(&mut self, conn: ConnId, count: usize)
        requires { count ≤ length (kept_bytes (kept_at (connection_of conn) self.old.by_conn.entries)) }
        ensures { IsPut conn (option_map (λ (bytes : Bytes). drop count bytes) (kept_at (connection_of conn) self.old.by_conn.entries))
            self.old.by_conn.entries self.new.by_conn.entries }
    {
        if let Some(tap) = self.by_conn.get_mut(&conn) {
            tap.let_go(count);
        }
    }

    // A piece, for its connection. Where that has no tap it is lost.
    fn put(&mut self, handed: HandedBytes) -> Result<(), Memory>
        ensures { OnOk result (AreKept (handed_seen handed ∷ []) self.old.by_conn.entries self.new.by_conn.entries) }
    {
        tell(&mut self.told, handed.conn);
        if let Some(tap) = self.by_conn.get_mut(&handed.conn) {
            tap.put(handed.bytes)?;
        }
        Ok(())
    }

    /// Each piece, for its connection, in their order. Linear in the pieces and their bytes.
    pub(crate) fn put_each(&mut self, mut handed: Vec<HandedBytes>) -> Result<(), Memory>
        ensures { OnOk result (AreKept (map handed_seen handed.items) self.old.by_conn.entries self.new.by_conn.entries) }
    {
        self.told.clear();
        handed.reverse();
        while let Some(piece) = handed.pop() {
            self.put(piece)?;
        }
        Ok(())
    }
}
