// What answers the connections of a service.
ghost use Rattle.std.specs.Prelude.{◌≡◌, ◌≤◌, length, IfOk, IfSome, IfNone, OnOk, OnErr};
ghost use Rattle.nr_entry.specs.Jobs.{connection_of};
ghost use Rattle.nr_service.specs.Stories.{Keeps, IsOpened, IsFed, HasWorked, IsWritten, IsClosed, IsLeftOf, kept_bytes};
ghost use Rattle.nr_service.specs.declared.backend.ConnectionState.TheVariants as standings;

use nr_blob::Memory;
use nr_entry::ConnId;

/// How a connection stands.
#[derive(Clone, Copy, Debug, PartialEq, Eq)]
pub enum ConnectionState {
    /// It takes bytes.
    Open,
    /// It takes no more: its bytes asked for its end, or more waited for it than its queue holds.
    Over,
    /// Its node is down.
    Down,
}

/// What answers connections: bytes are fed to it, it works, and then keeps the bytes that it handed out until they were written. Once memory
/// ran out it answers nothing any more.
pub trait Backend {
    ghost use Rattle.std.specs.Prelude.{ℕ, Bool, Option};
    ghost use Rattle.nr_model.specs.Bytes.{Bytes};
    ghost use Rattle.nr_model.specs.Items.{Connection};
    ghost use Rattle.nr_service.specs.Stories.{Story};
    ghost use Rattle.nr_service.specs.declared.backend.ConnectionState.{ConnectionState};

    // What may have led to it.
    ghost is_past: { Self → Story → Type 0 };

    // What may have led to it behind its work: where that is at its end, all that was asked for was executed, and what that emits handed out.
    ghost is_settled: { Self → Story → Type 0 };

    // What is left of it where memory ran out: what is still known of a story.
    ghost is_left: { Self → Story → Type 0 };

    // Whether work isn't at its end: bytes may be handed out yet for what was fed.
    ghost busy: { Self → Bool };

    // The bytes that it keeps for a connection that is open here.
    ghost kept: { Self → Connection → Option Bytes };

    // A connection stands so.
    ghost stands: { Self → Connection → ConnectionState → Type 0 };

    // Whether no connection can be answered any more.
    ghost falls: { Self → Bool → Type 0 };

    // There is no room for one more connection.
    ghost is_full: { Self → Type 0 };

    // A connection was opened at the place of the number as which it was accepted.
    ghost is_placed: { Self → Self → ℕ → Connection → Type 0 };

    // A connection takes no room: it was closed, or what answered it is down.
    ghost is_gone: { Self → Connection → Type 0 };

    // What it said as it was asked whether messages may come to a connection.
    ghost listens: { Self → Connection → Bool → Type 0 } = { λ _ _ _. Unit {0} };

    /// Opens the connection that was accepted as this number, from 0 on, or `None` where there was no room for it.
    fn open(&mut self, number: u64) -> Result<Option<ConnId>, Memory>
        ensures opened { IfOk result (λ opened. IfSome opened (λ conn. IsOpened (connection_of conn) (is_past self.old) (is_past self.new) (kept self.old)
            (kept self.new))) }
        ensures none { IfOk result (λ opened. IfNone opened (Keeps (is_past self.old) (is_past self.new) (kept self.old) (kept self.new))) }
        ensures full { IfOk result (λ opened. IfNone opened (is_full self.old)) }
        ensures placed { IfOk result (λ opened. IfSome opened (λ conn. is_placed self.old self.new number (connection_of conn))) }
        ensures left { OnErr result (IsLeftOf (is_past self.old) (is_left self.new)) };

    /// There is no memory for one more client: the connection that was accepted is turned away, and the room that was taken for it comes back. An error is
    /// that want of memory.
    fn turn_away(&mut self, memory: Memory) -> Result<(), Memory>
        ensures kept { OnOk result (Keeps (is_past self.old) (is_past self.new) (kept self.old) (kept self.new)) }
        ensures full { OnOk result (is_full self.old) }
        ensures left { OnErr result (IsLeftOf (is_past self.old) (is_left self.new)) };

    /// How a connection stands.
    fn standing(&self, conn: ConnId) -> ConnectionState
        ensures { stands self.now (connection_of conn) result };

    /// Whether no connection can be answered any more: every node is down.
    fn is_down(&self) -> bool
        ensures { falls self.now result };

    /// Feeds bytes to a connection, at a moment in milliseconds. Linear in the bytes.
    fn feed(&mut self, conn: ConnId, moment: u64, bytes: &[u8]) -> Result<(), Memory>
        requires { stands self.old (connection_of conn) standings.Open }
        ensures fed { OnOk result (IsFed (connection_of conn) moment bytes.now (is_past self.old) (is_past self.new) (kept self.old) (kept self.new)) }
        ensures left { OnErr result (IsLeftOf (is_past self.old) (is_left self.new)) };

    /// Does all work that is at hand, until nothing is left to be done or it waits for others, and keeps what it hands out.
    fn work(&mut self) -> Result<(), Memory>
        ensures worked { OnOk result (HasWorked (is_past self.old) (is_past self.new) (is_settled self.new) (kept self.old) (kept self.new)) }
        ensures left { OnErr result (IsLeftOf (is_past self.old) (is_left self.new)) };

    /// Whether work isn't at its end.
    fn is_busy(&self) -> bool
        ensures { result ≡ busy self.now };

    /// Whatever may have led to it is left of it.
    fn leaves(&self)
        ensures { IsLeftOf (is_past self.now) (is_left self.now) };

    /// Tells others what its last work put before them. Nobody has to be told: a hint.
    fn pass_on(&self);

    /// A connection that the last work changed, the first at place 0 and so on. A hint: one of which nothing is told is looked at later.
    fn told(&self, place: usize) -> Option<ConnId>;

    /// Whether messages may come to a connection by what it is subscribed to, so that its silence is none. A hint.
    fn is_listening(&self, conn: ConnId) -> bool
        ensures { listens self.now (connection_of conn) result };

    /// The bytes that it keeps for a connection.
    fn pending(&self, conn: ConnId) -> &[u8]
        ensures { result.now ≡ kept_bytes (kept self.now (connection_of conn)) };

    /// So many of the bytes that it keeps for a connection were written. It lets go of them.
    fn written(&mut self, conn: ConnId, count: usize)
        requires { count ≤ length (kept_bytes (kept self.old (connection_of conn))) }
        ensures { IsWritten (connection_of conn) count (is_past self.old) (is_past self.new) (is_settled self.old) (is_settled self.new) (kept self.old)
            (kept self.new) };

    /// Closes a connection, at a moment in milliseconds: its room comes back. What it keeps for it is lost. Nothing happens where it took no
    /// room before.
    fn close(&mut self, conn: ConnId, moment: u64) -> Result<(), Memory>
        ensures closed { OnOk result (IsClosed (connection_of conn) moment (is_gone self.old (connection_of conn)) (is_past self.old) (is_past self.new)
            (kept self.old) (kept self.new)) }
        ensures gone { OnOk result (is_gone self.new (connection_of conn)) }
        ensures left { OnErr result (IsLeftOf (is_past self.old) (is_left self.new)) };
}
