// How connections and nodes stand.
ghost use Rattle.std.specs.Prelude.{◌≡◌, ◌<◌, false, length};
ghost use Rattle.nr_model.specs.Nodes as nodes;
ghost use Rattle.nr_entry.specs.Jobs.{connection_of};
ghost use Rattle.nr_world.specs.Standing.{has_ended};
ghost use Rattle.nr_world.specs.WorldState.{Shows};

use crate::connection_steps::has_ended_in;
use crate::world::World;
use nr_entry::ConnId;

impl World {
    /// Whether a connection takes no more bytes: it was never opened, its bytes asked for its end, it was closed, or its queue was cut.
    pub fn has_ended(&self, conn: ConnId) -> bool
        ensures { (world : nodes.World) → Shows self.now world → result ≡ has_ended world (connection_of conn) }
    {
        self.failed.is_some() || has_ended_in(&self.nodes, conn)
    }

    /// Whether a node is down.
    pub fn is_down(&self, node: usize) -> bool
        requires { node < length self.now.nodes }
        ensures { (world : nodes.World) → Shows self.now world → result ≡ (nodes.node_at node world).down }
    {
        self.nodes[node].replica.is_down()
    }
}
