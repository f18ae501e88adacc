// Names of servers.
use nr_oplog::LogName;
use std::marker::Brand;

/// Names the log that a server's nodes share and, by node, the slots in which its workers hand in their batches. So what stands behind a node's lock and what
/// stands beside it are known to be of the same slots.
pub trait ServerName: LogName {
    ghost use Rattle.std.specs.Prelude.{ℕ};
    ghost use Rattle.atomic_table.specs.Seated.{TableId};

    ghost slots: { ℕ → TableId };
}

impl ServerName for Brand {
    ghost use Rattle.nr_oplog.specs.Names.{no_log};

    ghost slots = { λ _. no_log };
}
