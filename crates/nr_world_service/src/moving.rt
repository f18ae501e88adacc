// What a service asks of the nodes, as steps of their world.
ghost use Rattle.std.specs.Prelude.{◌≡◌, [], ◌∷◌, IfOk, IfSome, IfNone, OnOk, length, map};
ghost use Rattle.std.specs.Option.{option_map};
ghost use Rattle.nr_model.specs.Keyspace.{moment as moment_of};
ghost use Rattle.nr_entry.specs.Jobs.{connection_of};
ghost use Rattle.nr_world.specs.Seen.{handed_seen};
ghost use Rattle.nr_service.specs.declared.backend.ConnectionState.TheVariants as standings;
ghost use Rattle.nr_world_service.specs.Placing.{Places, StandsAt};
ghost use Rattle.nr_world_service.specs.Moves.{ClosesConnection, FindsFull, Moves, Refuses, Rests};
ghost use Rattle.nr_world_service.specs.Stands.{StandsIn, AreDownIn};
ghost use Rattle.nr_world_service.specs.Told.{opening};
ghost use Rattle.nr_service.specs.Stories.{Fed};

use nr_blob::Memory;
use nr_entry::ConnId;
use nr_service::{ConnectionState, node_at, worker_at};
use nr_world::{HandedBytes, StepOutcome, World};

fn open_at(world: &mut World, node: usize, worker: usize) -> Result<Option<ConnId>, Memory>
    ensures moves { IfOk result (λ opened. Moves world.old world.new (opening (option_map connection_of opened))) }
    ensures refuses { IfOk result (λ opened. IfNone opened (Refuses world.old world.new node worker)) }
    ensures stands { IfOk result (λ opened. IfSome opened (λ conn. StandsAt world.old world.new node worker (connection_of conn))) }
{
    match world.open(node, worker)? {
        StepOutcome::Opened(conn) => Ok(Some(conn)),
        StepOutcome::Done | StepOutcome::Idle(_) => Ok(None),
    }
}

/// Opens a connection at the place of its number, or at that worker of the next node that takes it.
pub(crate) fn open(world: &mut World, number: u64) -> Result<Option<ConnId>, Memory>
    ensures moves { IfOk result (λ opened. Moves world.old world.new (opening (option_map connection_of opened))) }
    ensures full { IfOk result (λ opened. IfNone opened (FindsFull world.old)) }
    ensures placed { IfOk result (λ opened. IfSome opened (λ conn. Places world.old world.new number (connection_of conn))) }
{
    let setup = world.setup();
    let worker = worker_at(setup, number);
    for passed in 0..setup.nodes() {
        let node = node_at(setup, number, passed);
        let opened = open_at(world, node, worker)?;
        if opened.is_some() {
            return Ok(opened);
        }
    }
    Ok(None)
}

/// Feeds bytes to a connection that takes them, at a moment in milliseconds.
pub(crate) fn feed(world: &mut World, conn: ConnId, moment: u64, bytes: &[u8]) -> Result<(), Memory>
    requires { StandsIn world.old (connection_of conn) standings.Open }
    ensures { OnOk result (Moves world.old world.new
        (Fed (record { connection = connection_of conn; moment = moment_of moment; bytes = bytes.now }) ∷ [])) }
{
    world.feed(conn, moment, bytes)?;
    Ok(())
}

/// Has all work done that is at hand. Hands back what was handed out, in order.
pub(crate) fn settle(world: &mut World) -> Result<Vec<HandedBytes>, Memory>
    ensures { IfOk result (λ handed. Rests world.old world.new (map handed_seen handed.items)) }
{
    let handed = world.settle()?;
    Ok(handed)
}

/// Closes a connection, where it takes room, at a moment in milliseconds.
pub(crate) fn close(world: &mut World, conn: ConnId, moment: u64) -> Result<(), Memory>
    ensures { OnOk result (ClosesConnection world.old world.new (connection_of conn) moment) }
{
    world.close(conn, moment)?;
    Ok(())
}

/// How a connection stands.
pub(crate) fn standing(world: &World, conn: ConnId) -> ConnectionState
    requires { length world.now.nodes ≡ world.now.setup.nodes }
    ensures { StandsIn world.now (connection_of conn) result }
{
    if conn.node < world.setup().nodes() && world.is_down(conn.node) {
        return ConnectionState::Down;
    }
    if world.has_ended(conn) {
        return ConnectionState::Over;
    }
    ConnectionState::Open
}

/// Whether every node is down.
pub(crate) fn is_down(world: &World) -> bool
    requires { length world.now.nodes ≡ world.now.setup.nodes }
    ensures { AreDownIn world.now result }
{
    for node in 0..world.setup().nodes() {
        if !world.is_down(node) {
            return false;
        }
    }
    true
}
