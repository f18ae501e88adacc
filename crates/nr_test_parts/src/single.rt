// A server in one value, with one connection.
ghost use Rattle.std.specs.Prelude.{◌≡◌, true, IfOk, OnErr};

use crate::error::HeldError;
use nr_blob::Memory;
use nr_entry::{ConnId, Setup};
use nr_world::{StepOutcome, World};
use std::alloc::Global;
use std::hash::RandomState;

/// A server of one node and one worker in one value, with the one connection that it serves.
pub struct Single {
    pub world: World,
    pub conn: ConnId,
}

impl Drop for Single {
    fn drop(self) {
        let Single {
            world: _world,
            conn: _,
        } = self;
    }
}

impl Single {
    /// One with no key, whose log has so many places, and in which at most so many bytes wait for the connection.
    pub fn new(
        alloc: Global,
        keys: RandomState,
        places: usize,
        limit: usize,
    ) -> Result<Single, HeldError>
        ensures setup { IfOk result (λ single. single.world.setup ≡ record { nodes = 1; places = places; workers = 1; connections = 1; queue_limit = limit }) }
    {
        let Some(setup) = Setup::new(1, places, 1, 1, limit) else {
            return Err(HeldError::Invalid);
        };
        let mut world = World::new(alloc, keys, setup)?;
        match world.open(0, 0)? {
            StepOutcome::Opened(conn) => Ok(Single { world, conn }),
            _ => Err(HeldError::Invalid),
        }
    }

    /// Each step of a batch that the connection sends. How many bytes it got.
    pub fn serve(&mut self, sent: &[u8]) -> Result<usize, Memory>
        ensures setup { self.new.world.setup ≡ self.old.world.setup }
        ensures conn { self.new.conn ≡ self.old.conn }
        ensures err { OnErr result (self.new.world.failed ≡ true) }
    {
        let world = &mut self.world;
        world.feed(self.conn, 0, sent)?;
        world.post(0, 0)?;
        world.lift(0, 0)?;
        world.reserve(0)?;
        world.fill(0, 0)?;
        world.fetch(0)?;
        world.apply(0)?;
        world.look(0)?;
        world.answer(0, 0)?;
        let happened = world.collect(0, 0)?;
        Ok(
            happened
                .handed
                .iter()
                .map(|handed| handed.bytes.len())
                .fold(0usize, usize::saturating_add),
        )
    }
}
