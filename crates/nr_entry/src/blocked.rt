// The connections of which no further job leads.
ghost use Rattle.std.specs.Prelude.{◌≡◌, ◌||◌, false, OnOk};
ghost use Rattle.std.specs.BTreeSet.{contains};
ghost use Rattle.nr_model.specs.Items.{same_connection};
ghost use Rattle.nr_entry.specs.Jobs.{connection_of, conn_cmp};
ghost use Rattle.nr_entry.specs.Runs.{holds, is_last};

use crate::conn::ConnId;
use nr_blob::Memory;
use std::alloc::Global;
use std::collections::BTreeSet;

/// Connections of which no further job leads. The last one stands apart, so a single one takes no memory.
#[derive(Drop)]
pub(crate) struct Blocked {
    pub(crate) last: Option<ConnId>,
    pub(crate) others: BTreeSet<ConnId>,
}

impl Blocked {
    /// No connection is blocked. It takes no memory.
    pub(crate) fn new(alloc: Global) -> Blocked
        ensures { (q : ConnId) → holds result q ≡ false }
    {
        Blocked {
            last: None,
            others: BTreeSet::new(alloc),
        }
    }

    /// Whether a connection is blocked. It takes log n steps for n of them.
    pub(crate) fn contains(&self, conn: &ConnId) -> bool
        ensures { result ≡ holds self.now conn.now }
    {
        self.last == Some(*conn) || self.others.contains(conn)
    }

    /// Blocks a connection. It takes log n steps for n of them, and memory from the second one on.
    pub(crate) fn insert(&mut self, conn: ConnId) -> Result<(), Memory>
        ensures { OnOk result ((q : ConnId) → holds self.new q ≡ (holds self.old q || same_connection (connection_of conn) (connection_of q))) }
    {
        add(&mut self.others, self.last)?;
        self.last = Some(conn);
        Ok(())
    }
}

// A connection more, where there is one.
fn add(others: &mut BTreeSet<ConnId>, conn: Option<ConnId>) -> Result<(), Memory>
    ensures { OnOk result ((q : ConnId) → contains conn_cmp others.new q ≡ (contains conn_cmp others.old q || is_last conn q)) }
{
    if let Some(conn) = conn {
        others.insert(conn)?;
    }
    Ok(())
}
