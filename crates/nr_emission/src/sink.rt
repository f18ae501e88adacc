// Where a machine puts what it emits. It keeps no list: whoever hands it a sink decides what becomes of a reply.
ghost use Rattle.std.specs.Prelude.{◌≡◌, OnOk, OnErr};
ghost use Rattle.std.specs.Arc.{arc_value};
ghost use Rattle.nr_model.specs.Replies.{Reply, reply_text};
ghost use Rattle.nr_model.specs.Sequential.Events.{Emission};
ghost use Rattle.nr_resp.specs.Shown.{shown_reply};
ghost use Rattle.nr_entry.specs.Jobs.{connection_of};

use nr_blob::Memory;
use nr_entry::ConnId;
use nr_resp::Shown;
use std::sync::Arc;

/// Takes what a machine emits, in order, each for a connection.
pub trait Sink {
    /// What it comes to with one emission more.
    ghost after: { Self → Emission → Self };

    /// Takes a reply to a connection. Where memory runs out it is as it was.
    fn put(&mut self, conn: ConnId, shown: Shown<'_>) -> Result<(), Memory>
        ensures put { OnOk result (self.new ≡ after self.old (record { connection = connection_of conn; reply = shown_reply shown.entry })) }
        ensures unchanged { OnErr result (self.new ≡ self.old) };

    /// Takes a message to a connection, as the bytes of a reply: they were encoded once, and all receivers share them.
    /// Where memory runs out it is as it was.
    fn share(&mut self, conn: ConnId, message: &Arc<Vec<u8>>) -> Result<(), Memory>
        ensures shared { (reply : Reply) → reply_text reply ≡ (arc_value message.now).items →
            OnOk result (self.new ≡ after self.old (record { connection = connection_of conn; reply = reply })) }
        ensures unchanged { OnErr result (self.new ≡ self.old) };
}

/// Takes nothing: what is emitted is lost.
#[derive(Debug, Drop)]
pub struct Nowhere;

impl Sink for Nowhere {
    ghost after = { λ nowhere _. nowhere };

    fn put(&mut self, _: ConnId, _: Shown<'_>) -> Result<(), Memory> {
        Ok(())
    }

    fn share(&mut self, _: ConnId, _: &Arc<Vec<u8>>) -> Result<(), Memory> {
        Ok(())
    }
}
