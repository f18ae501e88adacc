// A queue of what was emitted: a reply is written into bytes of its own, and a message is shared without a copy.
ghost use Rattle.std.specs.Prelude.{◌≡◌, []};

use nr_blob::Memory;
use nr_emission::Sink;
use nr_entry::ConnId;
use nr_resp::Shown;
use std::alloc::Global;
use std::marker::Model;
use std::sync::Arc;

// The bytes of an emission.
#[derive(Drop)]
enum Kept {
    Own(Vec<u8>),
    Shared(Arc<Vec<u8>>),
}

// An emission, and the connection that it is for.
#[derive(Drop)]
struct Piece {
    conn: ConnId,
    kept: Kept,
}

impl Model for Piece {
    ghost use Rattle.nr_entry.specs.Jobs.{connection_of};
    ghost use Rattle.nr_emission.specs.Emitted.{Written};
    ghost use Rattle.nr_bench.specs.Kept.{bytes_of};

    ghost Value = { Written };

    ghost view = { λ piece. record { connection = connection_of piece.conn; bytes = bytes_of piece.kept } };
}

/// What was emitted, in order.
#[derive(Drop)]
pub(crate) struct Queue {
    pieces: Vec<Piece>,
}

impl Model for Queue {
    ghost use Rattle.std.specs.Prelude.{List};
    ghost use Rattle.nr_emission.specs.Emitted.{Written};

    ghost Value = { List Written };

    ghost view = { λ queue. queue.pieces.items };
}

impl Queue {
    pub(crate) fn new(alloc: Global) -> Queue
        ensures { result ≡ [] }
    {
        Queue {
            pieces: Vec::new(alloc),
        }
    }

    /// How many of them are messages, which share their bytes. Linear.
    pub(crate) fn messages(&self) -> usize {
        self.pieces.iter().filter(|piece| piece.is_shared()).count()
    }
}

impl Piece {
    fn is_shared(&self) -> bool {
        match self.kept {
            Kept::Own(_) => false,
            Kept::Shared(_) => true,
        }
    }
}

impl Sink for Queue {
    ghost use Rattle.nr_emission.specs.Emitted.{written_after};

    ghost after = { written_after };

    fn put(&mut self, conn: ConnId, shown: Shown<'_>) -> Result<(), Memory> {
        let mut bytes = Vec::new(*self.pieces.allocator());
        shown.write(&mut bytes)?;
        let kept = Kept::Own(bytes);
        self.pieces.push(Piece { conn, kept })?;
        Ok(())
    }

    fn share(&mut self, conn: ConnId, message: &Arc<Vec<u8>>) -> Result<(), Memory> {
        let kept = Kept::Shared(Arc::try_clone(message)?);
        self.pieces.push(Piece { conn, kept })?;
        Ok(())
    }
}
