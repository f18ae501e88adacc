// The server of several nodes with the bytes that it handed out and that weren't written yet.
ghost use Rattle.std.specs.Prelude.{◌≡◌, false, Some, None, IfOk, IfSome, IfNone};
ghost use Rattle.std.specs.Option.{option_map};
ghost use Rattle.nr_model.specs.Items.{Connection};
ghost use Rattle.nr_entry.specs.Jobs.{connection_of};
ghost use Rattle.nr_world_service.specs.Kept.{kept_at, IsTapped};
ghost use Rattle.nr_world_service.specs.Moves.{Moves, FindsFull};
ghost use Rattle.nr_world_service.specs.Placing.{Places};
ghost use Rattle.nr_world_service.specs.Led.{HasLedTo};
ghost use Rattle.nr_world_service.specs.Told.{opening};
ghost use Rattle.nr_service.specs.Stories.{beginning};

use crate::moving;
use crate::taps::Taps;
use nr_blob::Memory;
use nr_entry::{ConnId, Setup};
use nr_service::{Backend, ConnectionState};
use nr_world::World;
use std::alloc::Global;
use std::hash::RandomState;
use std::marker::Model;

/// The server of several nodes, as a service asks it.
#[derive(Drop)]
pub struct WorldBackend {
    world: World,
    taps: Taps,
    // Why it failed, once it has.
    failed: Option<Memory>,
}

impl Model for WorldBackend {
    ghost use Rattle.std.specs.Prelude.{◌≡◌, false, is_some};
    ghost use Rattle.nr_world_service.specs.State.{WorldBackendState, coded_answering, IsSound};

    ghost Value = { WorldBackendState };

    ghost coded = { coded_answering };

    ghost view = { λ a. record { world = a.world; taps = a.taps.by_conn.entries; failed = is_some a.failed } };

    ghost invariant = { λ a. is_some a.failed ≡ false → IsSound a.world a.taps.by_conn.entries };
}

impl WorldBackend {
    /// No connection and no key. Strangers choose the keys, so the hashers take a seed of their own.
    pub fn new(alloc: Global, keys: RandomState, setup: Setup) -> Result<WorldBackend, Memory>
        ensures setup { IfOk result (λ answering. answering.world.setup ≡ setup) }
        ensures works { IfOk result (λ answering. answering.failed ≡ false) }
        ensures past { IfOk result (λ answering. HasLedTo answering (beginning setup)) }
        ensures kept { IfOk result (λ answering. (c : Connection) → kept_at c answering.taps ≡ None) }
    {
        let world = World::new(alloc, keys, setup)?;
        Ok(WorldBackend {
            world,
            taps: Taps::new(alloc),
            failed: None,
        })
    }

    /// How large it is.
    pub fn setup(&self) -> Setup
        ensures { result ≡ self.now.world.setup }
    {
        self.world.setup()
    }
}

// It fails for want of memory: it keeps the cause, and hands it back.
fn fail(failed: &mut Option<Memory>, memory: Memory) -> Memory
    ensures kept { failed.new ≡ Some memory }
    ensures cause { result ≡ memory }
{
    *failed = Some(memory);
    memory
}

// Opens a connection, and an empty tap for it.
fn open_tapped(world: &mut World, taps: &mut Taps, number: u64) -> Result<Option<ConnId>, Memory>
    ensures moves { IfOk result (λ opened. Moves world.old world.new (opening (option_map connection_of opened))) }
    ensures taps { IfOk result (λ opened. IsTapped opened taps.old.by_conn.entries taps.new.by_conn.entries) }
    ensures full { IfOk result (λ opened. IfNone opened (FindsFull world.old)) }
    ensures placed { IfOk result (λ opened. IfSome opened (λ conn. Places world.old world.new number (connection_of conn))) }
{
    match moving::open(world, number)? {
        Some(conn) => {
            taps.open(conn)?;
            Ok(Some(conn))
        }
        None => Ok(None),
    }
}

impl Backend for WorldBackend {
    ghost use Rattle.std.specs.Prelude.{◌≡◌, false};
    ghost use Rattle.nr_world_service.specs.Kept.{kept_at};
    ghost use Rattle.nr_world_service.specs.Led.{HasLedTo, HasOnceLed, IsAtRest};
    ghost use Rattle.nr_world_service.specs.Stands.{Stands, AreDown, IsFull, IsGone};
    ghost use Rattle.nr_world_service.specs.Placing.{IsPlaced};

    ghost is_past = { HasLedTo };

    ghost is_settled = { IsAtRest };

    ghost is_left = { λ _ story. HasOnceLed story };

    // Its work is always at its end.
    ghost busy = { λ _. false };

    ghost kept = { λ a c. kept_at c a.taps };

    ghost stands = { Stands };

    ghost falls = { AreDown };

    ghost is_full = { λ a. IsFull a.world };

    ghost is_placed = { λ a b. IsPlaced a.world b.world };

    ghost is_gone = { λ a. IsGone a.world };

    // Silence is none of its matters.
    ghost listens = { λ _ _ is_listening. is_listening ≡ false };

    /// A connection goes to the node and the worker of its number, in turn, or to the next node that takes it.
    fn open(&mut self, number: u64) -> Result<Option<ConnId>, Memory> {
        if let Some(memory) = self.failed {
            return Err(memory);
        }
        match open_tapped(&mut self.world, &mut self.taps, number) {
            Ok(opened) => Ok(opened),
            Err(memory) => Err(fail(&mut self.failed, memory)),
        }
    }

    /// A server that runs on one thread ends where there is no memory.
    fn turn_away(&mut self, memory: Memory) -> Result<(), Memory> {
        Err(memory)
    }

    fn standing(&self, conn: ConnId) -> ConnectionState {
        if self.failed.is_some() {
            return ConnectionState::Down;
        }
        moving::standing(&self.world, conn)
    }

    fn is_down(&self) -> bool {
        self.failed.is_some() || moving::is_down(&self.world)
    }

    fn feed(&mut self, conn: ConnId, moment: u64, bytes: &[u8]) -> Result<(), Memory> {
        if let Some(memory) = self.failed {
            return Err(memory);
        }
        match moving::feed(&mut self.world, conn, moment, bytes) {
            Ok(()) => Ok(()),
            Err(memory) => Err(fail(&mut self.failed, memory)),
        }
    }

    fn work(&mut self) -> Result<(), Memory> {
        if let Some(memory) = self.failed {
            return Err(memory);
        }
        match moving::settle(&mut self.world) {
            Ok(handed) => match self.taps.put_each(handed) {
                Ok(()) => Ok(()),
                Err(memory) => Err(fail(&mut self.failed, memory)),
            },
            Err(memory) => Err(fail(&mut self.failed, memory)),
        }
    }

    fn is_busy(&self) -> bool {
        false
    }

    fn leaves(&self) {}

    fn pass_on(&self) {}

    fn is_listening(&self, _: ConnId) -> bool {
        false
    }

    fn told(&self, place: usize) -> Option<ConnId> {
        self.taps.told(place)
    }

    fn pending(&self, conn: ConnId) -> &[u8] {
        self.taps.bytes(conn)
    }

    fn written(&mut self, conn: ConnId, count: usize) {
        self.taps.let_go(conn, count);
    }

    fn close(&mut self, conn: ConnId, moment: u64) -> Result<(), Memory> {
        if let Some(memory) = self.failed {
            return Err(memory);
        }
        match moving::close(&mut self.world, conn, moment) {
            Ok(()) => {
                self.taps.close(conn);
                Ok(())
            }
            Err(memory) => Err(fail(&mut self.failed, memory)),
        }
    }
}
