// A connection's queue: replies and messages are written behind one another into one buffer, and handed out from its front.
ghost use Rattle.std.specs.Prelude.{◌≡◌, ◌<◌, ◌≤◌, ◌+◌, ℕ, true, false, not, [], map, take, drop, length, IfOk, OnErr, IfSome, IfNone, OnOk, Err, is_some, nat_le, ◌&&◌};
ghost use Rattle.std.specs.Bool.{OnTrue, OnFalse};
ghost use Rattle.std.specs.Arc.{arc_value};
ghost use Rattle.nr_model.specs.Connections.{is_some_bytes};
ghost use Rattle.nr_model.specs.Replies.{reply_text};
ghost use Rattle.nr_resp.specs.Shown.{shown_reply};
ghost use Rattle.nr_entry.specs.Jobs.{connection_of};
ghost use Rattle.nr_replica.specs.Backlogs.{IsBacklog, share_of};
ghost use Rattle.nr_replica.specs.declared.outbox.Put.TheVariants as outcomes;
ghost use Rattle.nr_model.specs.Queues.{Queue, put, takes, with_bytes, cut_off, handing, most_bytes};

use crate::cut::CutReason;
use crate::spares::{MOST_ROOM, Spares};
use nr_blob::{Memory, drop_front};
use nr_emission::Sink;
use nr_entry::ConnId;
use nr_resp::Shown;
use std::alloc::Global;
use std::collections::BTreeMap;
use std::marker::Model;
use std::sync::Arc;
use std::{cmp, mem};

/// What became of a reply or a message.
#[derive(Clone, Copy, Debug, PartialEq, Eq)]
pub enum Put {
    /// It waits behind the others.
    In,
    /// It would have passed the limit, or the queue was cut before. The queue is cut, and none of it waits.
    Full,
    /// Memory was refused. The queue is cut, and none of it waits.
    Memory(Memory),
}

/// Bytes for a connection, and how many were handed out to it before them.
#[derive(Debug, Drop)]
pub struct Piece {
    pub conn: ConnId,
    pub from: u64,
    pub bytes: Vec<u8>,
}

/// What waits for a connection. A queue that was cut takes nothing more, and what waits in it can still be handed out.
#[derive(Drop)]
pub struct Outbox {
    conn: ConnId,
    buffer: Vec<u8>,
    // Where the bytes that wait begin.
    start: usize,
    handed: u64,
    limit: usize,
    // Why it takes nothing more, where it doesn't.
    cut: Option<CutReason>,
}

impl Model for Outbox {
    ghost use Rattle.std.specs.Prelude.{◌≤◌, ◌+◌, drop, length, is_some};
    ghost use Rattle.nr_entry.specs.Jobs.{connection_of};
    ghost use Rattle.nr_replica.specs.declared.outbox.Put.TheVariants as outcomes;
    ghost use Rattle.nr_model.specs.Queues.{Queue, coded_queue, most_bytes};

    ghost Value = { Queue };

    ghost coded = { coded_queue };

    ghost view = { λ o. record { connection = connection_of o.conn; waiting = drop o.start o.buffer.items; handed = o.handed; limit = o.limit; cut = is_some o.cut } };

    // At most half of the buffer was handed out, so it is never more than twice what waits.
    ghost invariant = { λ o. (o.start + o.start ≤ length o.buffer.items) × (o.handed + (length (drop o.start o.buffer.items)) ≤ most_bytes) };
}

/// The most bytes that ever come to a queue, 2^63.
const MOST_BYTES: u64 = 9_223_372_036_854_775_808;

// At most this part of what may wait for a connection does before its node stops for it, and at most so many bytes.
const SHARE_PART: usize = 16;

const MOST_SHARE: usize = 1_048_576;

/// The most bytes that are copied out where all that waits is handed out: then the buffer stays for those that come next.
pub(crate) const MOST_COPIED: usize = 1024;

impl Outbox {
    /// Nothing waits. At most `limit` bytes ever wait. It takes no memory.
    pub fn new(alloc: Global, conn: ConnId, limit: usize) -> Outbox
        ensures { result ≡ record { connection = connection_of conn; waiting = []; handed = 0; limit = limit; cut = false } }
    {
        Outbox {
            conn,
            buffer: Vec::new(alloc),
            start: 0,
            handed: 0,
            limit,
            cut: None,
        }
    }

    /// The same over a spare buffer, where there is one.
    pub(crate) fn over_spare(
        alloc: Global,
        conn: ConnId,
        limit: usize,
        spares: &mut Spares,
    ) -> Outbox
        ensures { result ≡ record { connection = connection_of conn; waiting = []; handed = 0; limit = limit; cut = false } }
    {
        let mut outbox = Outbox::new(alloc, conn, limit);
        if let Some(buffer) = spares.take() {
            outbox.buffer = buffer;
        }
        outbox
    }

    /// Whose queue it is.
    pub(crate) fn conn(&self) -> ConnId
        ensures { connection_of result ≡ self.now.connection }
    {
        self.conn
    }

    /// Takes a reply, which is written once, behind what waits. Where memory is refused nothing changes.
    pub fn offer(&mut self, shown: &Shown<'_>) -> Result<(), Memory>
        ensures put { OnOk result (self.new ≡ put self.old (reply_text (shown_reply shown.now))) }
        ensures refused { OnErr result (self.old.cut ≡ false) }
        ensures unchanged { OnErr result (self.new ≡ self.old) }
    {
        if self.is_cut() {
            return Ok(());
        }
        let end = self.buffer.len();
        shown.write(&mut self.buffer)?;
        if !fits(self.buffer.len() - self.start, self.limit, self.handed) {
            self.buffer.truncate(end);
            self.end(CutReason::Full);
        }
        Ok(())
    }

    /// Takes a reply, which is written once, behind what waits.
    pub fn put(&mut self, shown: &Shown<'_>) -> Put
        ensures taken { result ≡ outcomes.In → (takes self.old (reply_text (shown_reply shown.now)) ≡ true) × (self.new ≡ with_bytes self.old (reply_text (shown_reply shown.now))) }
        ensures full { result ≡ outcomes.Full → (takes self.old (reply_text (shown_reply shown.now)) ≡ false) × (self.new ≡ cut_off self.old) }
        ensures memory { (memory : Memory) → result ≡ outcomes.Memory memory → (self.old.cut ≡ false) × (self.new ≡ cut_off self.old) }
    {
        let offered = self.offer(shown);
        self.outcome(offered)
    }

    /// Takes a message, the bytes of which all its receivers share: they are copied once, behind what waits.
    pub fn put_shared(&mut self, message: &Arc<Vec<u8>>) -> Put
        ensures taken { result ≡ outcomes.In → (takes self.old (arc_value message.now).items ≡ true) × (self.new ≡ with_bytes self.old (arc_value message.now).items) }
        ensures full { result ≡ outcomes.Full → (takes self.old (arc_value message.now).items ≡ false) × (self.new ≡ cut_off self.old) }
        ensures memory { (memory : Memory) → result ≡ outcomes.Memory memory → (takes self.old (arc_value message.now).items ≡ true) × (self.new ≡ cut_off self.old) }
    {
        self.put_bytes(message)
    }

    /// Takes the bytes of a reply or a message, which are copied once, behind what waits.
    pub fn put_bytes(&mut self, bytes: &[u8]) -> Put
        ensures taken { result ≡ outcomes.In → (takes self.old bytes.now ≡ true) × (self.new ≡ with_bytes self.old bytes.now) }
        ensures full { result ≡ outcomes.Full → (takes self.old bytes.now ≡ false) × (self.new ≡ cut_off self.old) }
        ensures memory { (memory : Memory) → result ≡ outcomes.Memory memory → (takes self.old bytes.now ≡ true) × (self.new ≡ cut_off self.old) }
    {
        let offered = self.offer_bytes(bytes);
        self.outcome(offered)
    }

    // What became of what was offered. Where memory was refused the queue is cut.
    fn outcome(&mut self, offered: Result<(), Memory>) -> Put
        ensures taken { result ≡ outcomes.In → (offered ≡ Ok tt) × (self.old.cut ≡ false) × (self.new ≡ self.old) }
        ensures full { result ≡ outcomes.Full → (offered ≡ Ok tt) × (self.old.cut ≡ true) × (self.new ≡ self.old) }
        ensures memory { (memory : Memory) → result ≡ outcomes.Memory memory → (offered ≡ Err memory) × (self.new ≡ cut_off self.old) }
    {
        match offered {
            Ok(()) if self.is_cut() => Put::Full,
            Ok(()) => Put::In,
            Err(memory) => {
                self.refuse(memory);
                Put::Memory(memory)
            }
        }
    }

    /// Takes the bytes of a reply or a message, which are copied once, behind what waits. Where memory is refused nothing changes.
    pub fn offer_bytes(&mut self, bytes: &[u8]) -> Result<(), Memory>
        ensures put { OnOk result (self.new ≡ put self.old bytes.now) }
        ensures refused { OnErr result (takes self.old bytes.now ≡ true) }
        ensures unchanged { OnErr result (self.new ≡ self.old) }
    {
        let waiting = self.buffer.len() - self.start;
        if self.is_cut() || !has_room(waiting, bytes.len(), self.limit, self.handed) {
            self.end(CutReason::Full);
            return Ok(());
        }
        self.buffer.extend_from_slice(bytes)?;
        Ok(())
    }

    /// Takes what waits in another queue of its connection behind what waits. Where nothing waits here its buffer is taken over, and this one's is spared; else the
    /// bytes are copied once. False, and nothing changes, where they don't fit or memory is refused.
    pub(crate) fn take_over(&mut self, other: Outbox, spares: &mut Spares) -> bool
        ensures taken { OnTrue result ((takes self.old other.waiting ≡ true) × (self.new ≡ with_bytes self.old other.waiting)) }
        ensures same { OnFalse result (self.new ≡ self.old) }
    {
        let before = self.buffer.len() - self.start;
        let Outbox { buffer, start, .. } = other;
        let more = buffer.len() - start;
        if self.is_cut() || !has_room(before, more, self.limit, self.handed) {
            return false;
        }
        if before == 0 {
            spares.keep(mem::replace(&mut self.buffer, buffer));
            self.start = start;
            return true;
        }
        if self.buffer.extend_from_slice(&buffer[start..]).is_err() {
            return false;
        }
        spares.keep(buffer);
        true
    }

    /// Memory was refused for what came: it takes no more from now on.
    pub fn refuse(&mut self, memory: Memory)
        ensures { self.new ≡ cut_off self.old }
    {
        self.end(CutReason::Refused(memory));
    }

    // Takes no more from now on, for this reason where there was none before.
    fn end(&mut self, why: CutReason)
        ensures { self.new ≡ cut_off self.old }
    {
        self.cut = Some(self.cut.unwrap_or(why));
    }

    /// Why it takes no more, where it doesn't.
    pub fn why_cut(&self) -> Option<CutReason>
        ensures { is_some result ≡ self.now.cut }
    {
        self.cut
    }

    /// Hands out at most so many of the first bytes that wait, and at least one, or `None` where nothing waits. Linear in them: they are
    /// copied, the few into a spare buffer, and the buffer keeps its room for those that come next. More than 1,024 bytes that are all
    /// that waits are moved out with the buffer, and not copied; a spare one takes its place, else room for as many is taken, up to 128 KiB.
    /// Where memory runs out nothing is changed.
    pub fn take_piece(
        &mut self,
        alloc: Global,
        most: usize,
        spares: &mut Spares,
    ) -> Result<Option<Piece>, Memory>
        requires { 0 < most }
        ensures piece { IfOk result (λ piece. IfSome piece (λ piece. (connection_of piece.conn ≡ self.old.connection) × (piece.from ≡ self.old.handed) × (piece.bytes.items ≡ take most self.old.waiting))) }
        ensures some { IfOk result (λ piece. IfSome piece (λ piece. 0 < length piece.bytes.items)) }
        ensures none { IfOk result (λ piece. IfNone piece (self.old.waiting ≡ [])) }
        ensures left { OnOk result (self.new ≡ handing most self.old) }
        ensures err { OnErr result (self.new ≡ self.old) }
    {
        let waiting = self.buffer.len() - self.start;
        if waiting == 0 {
            return Ok(None);
        }
        let from = self.handed;
        let bytes = if self.start == 0 && waiting <= most && waiting > MOST_COPIED {
            mem::replace(&mut self.buffer, with_room(alloc, waiting, spares))
        } else {
            let count = cmp::min(most, waiting);
            let bytes = &self.buffer[self.start..self.start + count];
            let copied = copied(alloc, bytes, spares)?;
            self.start = drop_front(&mut self.buffer, self.start + count);
            copied
        };
        self.handed += bytes.len() as u64;
        Ok(Some(Piece {
            conn: self.conn,
            from,
            bytes,
        }))
    }

    /// How many bytes wait.
    pub fn len(&self) -> usize
        ensures { result ≡ length self.now.waiting }
    {
        self.buffer.len() - self.start
    }

    /// Whether no bytes wait.
    pub fn is_empty(&self) -> bool
        ensures { result ≡ not (is_some_bytes self.now.waiting) }
    {
        self.len() == 0
    }

    /// Whether it takes no more.
    pub fn is_cut(&self) -> bool
        ensures { result ≡ self.now.cut }
    {
        self.cut.is_some()
    }

    /// Whether it isn't cut, and more waits than the share of its limit for which a node goes on, and so many more of these.
    pub(crate) fn is_above(&self, extra: usize) -> bool
        ensures { result ≡ true → IsBacklog self.now }
    {
        let share = share_of(self.limit);
        let allowed = share.saturating_mul(extra).saturating_add(share);
        !self.is_cut() && self.len() > allowed
    }
}

/// Cuts them all: their node had fallen, and comes back. What waits for them can still be handed out. Linear in them.
pub(crate) fn cut_all(outboxes: &mut BTreeMap<u64, Outbox>)
    ensures { outboxes.new.entries ≡ map (λ (entry : ℕ × Queue). (entry.0, cut_off entry.1)) outboxes.old.entries }
{
    outboxes.retain(|_, outbox| {
        outbox.end(CutReason::Fallen);
        true
    });
}

/// How many bytes of so many that may wait for a connection do so before its node stops for it: a sixteenth, or 1,048,576 where that is less. A socket takes as many at
/// once, so that what is handed out at once doesn't pile up behind it.
pub fn share_of(limit: usize) -> usize
    ensures { result ≡ share_of limit }
{
    (limit / SHARE_PART).min(MOST_SHARE)
}

// A copy of bytes, in a spare buffer where they are few.
fn copied(alloc: Global, bytes: &[u8], spares: &mut Spares) -> Result<Vec<u8>, Memory>
    ensures { IfOk result (λ copy. copy.items ≡ bytes.now) }
{
    if bytes.len() > MOST_COPIED {
        let copy = Vec::from_slice(alloc, bytes)?;
        return Ok(copy);
    }
    let mut copy = spares.take_short(alloc);
    copy.extend_from_slice(bytes)?;
    Ok(copy)
}

// No bytes, with room for those that come next: a spare buffer's, else for as many as came last. Without memory for it there is none.
fn with_room(alloc: Global, last: usize, spares: &mut Spares) -> Vec<u8>
    ensures { result.items ≡ [] }
{
    if let Some(spare) = spares.take() {
        return spare;
    }
    match Vec::with_capacity(alloc, cmp::min(last, MOST_ROOM)) {
        Ok(room) => room,
        Err(_) => Vec::new(alloc),
    }
}

// Whether so many more bytes may come behind those that wait.
fn has_room(waiting: usize, more: usize, limit: usize, handed: u64) -> bool
    requires { handed + waiting ≤ most_bytes }
    ensures { result ≡ (nat_le (waiting + more) limit && nat_le (handed + (waiting + more)) most_bytes) }
{
    waiting <= limit
        && more <= limit - waiting
        && more as u64 <= MOST_BYTES - handed - waiting as u64
}

// Whether so many bytes may wait.
fn fits(waiting: usize, limit: usize, handed: u64) -> bool
    requires { handed ≤ most_bytes }
    ensures { result ≡ (nat_le waiting limit && nat_le (handed + waiting) most_bytes) }
{
    waiting <= limit && waiting as u64 <= MOST_BYTES - handed
}

/// All that is emitted into it is for its own connection.
impl Sink for Outbox {
    ghost use Rattle.nr_model.specs.Replies.{reply_text};
    ghost use Rattle.nr_model.specs.Queues.{put};

    ghost after = { λ queue emission. put queue (reply_text emission.reply) };

    fn put(&mut self, _: ConnId, shown: Shown<'_>) -> Result<(), Memory> {
        self.offer(&shown)
    }

    fn share(&mut self, _: ConnId, message: &Arc<Vec<u8>>) -> Result<(), Memory> {
        self.offer_bytes(message)
    }
}
