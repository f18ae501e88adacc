// A connection's tap.
ghost use Rattle.std.specs.Prelude.{◌≡◌, ◌≤◌, ◌<◌, ◌+◌, ◌^◌, ◌⊎◌, ◌↔◌, [], ◌++◌, true, length, drop, None, Some, IfErr, IfSome, IfNone, IsOk, OnOk, OnErr, option_map};
ghost use Rattle.nr_blob.specs.declared.memory.Memory.{Memory};
ghost use Rattle.nr_model.specs.Bytes.{IsBeginningOf};
ghost use Rattle.nr_model.specs.Sequential.{emitted_for};
ghost use Rattle.nr_entry.specs.Jobs.{connection_of};
ghost use Rattle.nr_log_end.specs.Standings.{record_of};
ghost use Rattle.nr_node.specs.Sound.{IsSound};
ghost use Rattle.nr_taps.specs.Taps.{HaveMet, IsSamePiece, accepted, bytes_accepted, fresh_tap, refusal, standing_of, with_piece, with_written};

use crate::buffer::WriteBuffer;
use nr_blob::Memory;
use nr_entry::ConnId;
use nr_oplog::{LogName, Oplog, Token};
use nr_replica::Piece;
use std::alloc::Global;
use std::marker::Model;

/// Why a piece wasn't accepted.
#[derive(Clone, Copy, Debug, PartialEq, Eq)]
pub enum Refused {
    /// It is of another connection.
    OtherConnection,
    /// It doesn't begin behind the last byte that was accepted.
    Gap,
    /// Memory was refused, or 2^64 - 1 bytes and more would have been accepted.
    Memory(Memory),
}

/// What was handed out for a connection and isn't written yet, with a token of the moment at which its last bytes were handed out.
#[derive(Drop)]
pub struct Tap<B: LogName> {
    pub(crate) conn: ConnId,
    bytes: WriteBuffer,
    // How many bytes were written.
    written: u64,
    pub(crate) token: Option<Token<B>>,
}

impl<B: LogName> Model for Tap<B> {
    ghost use Rattle.nr_entry.specs.Jobs.{connection_of};
    ghost use Rattle.nr_taps.specs.Taps.{TapState, IsTapped, coded_tap, standing_of};

    ghost Value = { TapState };

    ghost coded = { coded_tap };

    ghost view = { λ t. record { connection = connection_of t.conn; pending = t.bytes; written = t.written; standing = standing_of t.token } };

    ghost invariant = { λ t. IsTapped (record { connection = connection_of t.conn; pending = t.bytes; written = t.written; standing = standing_of t.token }) };
}

impl<B: LogName> Tap<B> {
    /// A tap with nothing. It takes no memory.
    pub fn new(alloc: Global, conn: ConnId) -> Tap<B>
        ensures { result ≡ fresh_tap (connection_of conn) }
    {
        Tap {
            conn,
            bytes: WriteBuffer::new(alloc),
            written: 0,
            token: None,
        }
    }

    /// Its connection.
    pub fn conn(&self) -> ConnId
        ensures { connection_of result ≡ self.now.connection }
    {
        self.conn
    }

    /// The bytes that are to be written next.
    pub fn pending(&self) -> &[u8]
        ensures { result.now ≡ self.now.pending }
    {
        self.bytes.bytes()
    }

    /// Takes in a piece that a node handed out, with the token that came with it. Where nothing is pending its bytes are taken over, else they are copied. The
    /// token is compared with the last one by three loads; one that is older than that does no harm: the bytes that were accepted stay as they were. A piece
    /// that is refused comes back with its token, and nothing changes; the reasons are told in the order of [`Refused`]'s.
    pub fn accept(
        &mut self,
        log: &Oplog<B>,
        piece: Piece,
        token: Token<B>,
    ) -> Result<(), (Piece, Token<B>, Refused)>
        requires emitted { IsBeginningOf piece.bytes.items (drop piece.from (emitted_for (connection_of piece.conn) (record_of token.standing.history))) }
        requires some { 0 < length piece.bytes.items }
        requires sound { IsSound token.standing }
        requires node { (connection_of piece.conn).node ≡ token.standing.node }
        ensures accepted { OnOk result (self.new ≡ with_piece piece.bytes.items token.standing self.old) }
        ensures bytes { OnOk result (bytes_accepted self.new ≡ bytes_accepted self.old ++ piece.bytes.items) }
        ensures due { OnOk result (refusal self.old (connection_of piece.conn) piece.from ≡ None) }
        ensures met { OnOk result (HaveMet self.old.standing (Some token.standing)) }
        ensures refused { IfErr result (λ r. (refusal self.old (connection_of piece.conn) piece.from ≡ Some r.2) ⊎ ((refusal self.old (connection_of piece.conn) piece.from ≡ None) × ((memory : Memory) × (r.2 ≡ Refused.Memory memory)))) }
        ensures taken_over { self.old.pending ≡ [] → refusal self.old (connection_of piece.conn) piece.from ≡ None → piece.from + length piece.bytes.items + 1 < 2 ^ 64 → IsOk result }
        ensures back { IfErr result (λ r. IsSamePiece r.0 piece × (r.1.standing ≡ token.standing)) }
        ensures unchanged { OnErr result (self.new ≡ self.old) }
    {
        if let Some(why) = self.refuses(piece.conn, piece.from) {
            return Err((piece, token, why));
        }
        let Piece { conn, from, bytes } = piece;
        if let Some(memory) = last_count(from, bytes.len()) {
            let refused = Refused::Memory(memory);
            return Err((Piece { conn, from, bytes }, token, refused));
        }
        match self.bytes.put(bytes) {
            Ok(()) => {
                replace(log, &mut self.token, token);
                Ok(())
            }
            Err((bytes, memory)) => {
                let refused = Refused::Memory(memory);
                Err((Piece { conn, from, bytes }, token, refused))
            }
        }
    }

    /// Lets go of the first so many bytes, which were written.
    pub fn written(&mut self, count: usize)
        requires { count ≤ length self.old.pending }
        ensures { self.new ≡ with_written count self.old }
    {
        self.bytes.let_go(count);
        self.written += count as u64;
    }

    // A tap with nothing, to stand in its place.
    pub(crate) fn stand_in(&self) -> Tap<B>
        ensures { result ≡ fresh_tap self.now.connection }
    {
        Tap {
            conn: self.conn,
            bytes: self.bytes.fresh(),
            written: 0,
            token: None,
        }
    }

    // What a piece of a connection, behind so many bytes, is refused for.
    fn refuses(&self, conn: ConnId, from: u64) -> Option<Refused>
        ensures { result ≡ refusal self.now (connection_of conn) from }
    {
        if conn.node != self.conn.node || conn.serial != self.conn.serial {
            return Some(Refused::OtherConnection);
        }
        if from != self.written + self.bytes.len() as u64 {
            return Some(Refused::Gap);
        }
        None
    }
}

// Where so many more bytes reach the last count of a u64.
fn last_count(from: u64, more: usize) -> Option<Memory>
    ensures few { IfNone result (from + more + 1 < 2 ^ 64) }
    ensures many { IfSome result (λ _. 2 ^ 64 ≤ from + more + 1) }
{
    Memory::at_last(from.saturating_add(more as u64))
}

// Puts a token in the place of the last one, which it meets.
fn replace<B: LogName>(log: &Oplog<B>, held: &mut Option<Token<B>>, token: Token<B>)
    ensures standing { standing_of held.new ≡ Some token.standing }
    ensures met { HaveMet (standing_of held.old) (Some token.standing) }
{
    match held {
        Some(last) => {
            let mut token = token;
            last.order(log, &mut token);
            *held = Some(token);
        }
        None => *held = Some(token),
    }
}
