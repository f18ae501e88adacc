// What an entry emits, held back until all of it is applied.
ghost use Rattle.std.specs.Prelude.{◌≡◌, ◌<◌, [], length, slice_index_or};
ghost use Rattle.std.specs.Arc.{arc_value};
ghost use Rattle.nr_entry.specs.Jobs.{connection_of};
ghost use Rattle.nr_emission.specs.Emitted.{Written};

use crate::sink::Sink;
use nr_blob::Memory;
use nr_entry::ConnId;
use nr_resp::Shown;
use std::alloc::Global;
use std::marker::Model;
use std::sync::Arc;

/// An emission that is held back: a reply, as a range of the bytes written, or a message that its receivers share.
#[derive(Drop)]
pub(crate) enum Staged {
    Reply {
        conn: ConnId,
        from: usize,
        len: usize,
    },
    Message {
        conn: ConnId,
        message: Arc<Vec<u8>>,
    },
}

/// What was emitted, in order, held back until it is known that all of it is to be sent. Replies are written behind one another into one
/// buffer, which is kept from one entry to the next.
#[derive(Drop)]
pub struct Staging {
    bytes: Vec<u8>,
    staged: Vec<Staged>,
}

impl Model for Staging {
    ghost use Rattle.std.specs.Prelude.{List, map};
    ghost use Rattle.nr_emission.specs.Emitted.{Written};
    ghost use Rattle.nr_emission.specs.Staged.{written_in, AreHeld};

    ghost Value = { List Written };

    ghost view = { λ s. map (written_in s.bytes.items) s.staged.items };

    ghost invariant = { λ s. AreHeld s.bytes.items s.staged.items };
}

impl Staging {
    /// Nothing was emitted. It takes no memory.
    pub fn new(alloc: Global) -> Staging
        ensures { result ≡ [] }
    {
        Staging {
            bytes: Vec::new(alloc),
            staged: Vec::new(alloc),
        }
    }

    /// How many emissions are held back.
    pub fn len(&self) -> usize
        ensures { result ≡ length self.now }
    {
        self.staged.len()
    }

    /// The connection and the bytes of one of them.
    #[tactic(auto, using(crate::proofs::Held::reply_within))]
    pub fn get(&self, index: usize) -> (ConnId, &[u8])
        requires { index < length self.now }
        ensures { (d : Written) → record { connection = connection_of result.0; bytes = result.1.now } ≡ slice_index_or self.now index d }
    {
        match &self.staged[index] {
            Staged::Reply { conn, from, len } => (*conn, &self.bytes[*from..*from + *len]),
            Staged::Message { conn, message } => (*conn, message.as_slice()),
        }
    }

    /// Forgets all of them. The buffer is kept.
    pub fn clear(&mut self)
        ensures { self.new ≡ [] }
    {
        self.staged.clear();
        self.bytes.clear();
    }
}

impl Sink for Staging {
    ghost use Rattle.nr_emission.specs.Emitted.{written_after};

    ghost after = { written_after };

    fn put(&mut self, conn: ConnId, shown: Shown<'_>) -> Result<(), Memory> {
        self.staged.reserve(1)?;
        let from = self.bytes.len();
        shown.write(&mut self.bytes)?;
        let len = self.bytes.len() - from;
        self.staged.push_reserved(Staged::Reply { conn, from, len });
        Ok(())
    }

    fn share(&mut self, conn: ConnId, message: &Arc<Vec<u8>>) -> Result<(), Memory> {
        let message = Arc::try_clone(message)?;
        self.staged.push(Staged::Message { conn, message })?;
        Ok(())
    }
}
