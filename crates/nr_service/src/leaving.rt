// Letting go of the clients that are over.
ghost use Rattle.std.specs.Prelude.{◌≡◌, ◌<◌, ◌↔◌, false, [], ◌∷◌, IsTrue, IsFalse, OnOk, OnErr, length};
ghost use Rattle.nr_service.specs.Leaving.{IsEnding, IsFlowing, IsSlow, IsStuck, LetsGo, LetsGoOne, Loses, parting};
ghost use Rattle.nr_service.specs.Pollers.{PartsWith};
ghost use Rattle.nr_service.specs.Silence.{IsSilent};
ghost use Rattle.nr_service.specs.Sweeps.{GoesOnAt, GoOn};

use crate::backend::{Backend, ConnectionState};
use crate::client::{Client, Ending};
use crate::poller::Poller;
use crate::reading::is_open;
use crate::stream::Stream;
use crate::turn_flags::TurnFlags;
use nr_blob::Memory;

/// After how many milliseconds without a byte a client is let go of where what answers it is down, and something waits for it.
const STUCK_FOR: u64 = 1_000;

/// After how many milliseconds one is let go of there that takes some of it now and then.
const SLOW_FOR: u64 = 10_000;

/// By what clients are judged: how many bytes may wait for one, and, in milliseconds, for how long one may be silent, where that is bounded at all,
/// and what the moment is.
#[derive(Clone, Copy)]
pub(crate) struct LeavingBounds {
    pub limit: usize,
    /// After so long one is silent for too long. 0: never.
    pub timeout: u64,
    pub now: u64,
}

// Whether a client is silent for too long. Where the clock went back behind the moment at which it was heard it isn't.
fn is_silent<S>(client: &Client<S>, bounds: LeavingBounds) -> bool
    ensures { IsTrue result ↔ IsSilent bounds client.now }
{
    bounds.timeout > 0 && bounds.timeout <= bounds.now.saturating_sub(client.heard)
}

// Whether a client was seen ten seconds ago to take less than was there for it, while what answers it was down.
fn is_slow<S>(client: &Client<S>, bounds: LeavingBounds) -> bool
    ensures { IsTrue result ↔ IsSlow client.now.fell bounds.now }
{
    match client.fell {
        Some(fell) => bounds.now.saturating_sub(fell) >= SLOW_FOR,
        None => false,
    }
}

// Whether what answers a client is down, and the client took no byte, and gave none, for a second, or is slow.
fn is_stuck<A: Backend, S>(answers: &A, client: &Client<S>, bounds: LeavingBounds) -> bool
    ensures stuck { IsTrue result → IsStuck (A.stands answers.now) bounds client.now }
    ensures flowing { IsFalse result → IsFlowing (A.stands answers.now) bounds client.now }
{
    if bounds.now.saturating_sub(client.heard) < STUCK_FOR && !is_slow(client, bounds) {
        return false;
    }
    answers.standing(client.conn) == ConnectionState::Down
}

// How a client ends that is over, `None` where it is served further.
fn ending_of<A: Backend, S>(
    answers: &A,
    client: &Client<S>,
    bounds: LeavingBounds,
) -> Option<Ending>
    ensures { IsEnding (A.kept answers.now) (A.stands answers.now) (A.busy answers.now) bounds client.now result }
{
    let waiting = answers.pending(client.conn).len();
    if client.is_broken || waiting > bounds.limit {
        return Some(Ending::Lost);
    }
    if waiting > 0 && is_stuck(answers, client, bounds) {
        return Some(Ending::Lost);
    }
    if waiting > 0 || answers.is_busy() {
        return None;
    }
    if client.is_ending || !is_open(answers, client.conn) {
        return Some(Ending::Finished);
    }
    if is_silent(client, bounds) {
        return Some(Ending::Silent);
    }
    None
}

/// Gives a stream back to its device.
pub(crate) fn part<S: Stream, D: Poller<S>>(device: &mut D, stream: S, ending: Ending)
    ensures { PartsWith (parting ending stream ∷ []) (D.parted device.old) (D.parted device.new) }
{
    match ending {
        Ending::Finished => device.finish(stream),
        Ending::Silent => device.finish(stream),
        Ending::Lost => device.abandon(stream),
    }
}

// Takes one from the list, closes it at a moment in milliseconds, and lets go of its stream.
fn let_go<A: Backend, S: Stream, D: Poller<S>>(
    answers: &mut A,
    device: &mut D,
    clients: &mut Vec<Client<S>>,
    index: usize,
    moment: u64,
    ending: Ending,
) -> Result<(), Memory>
    requires { index < length clients.old.items }
    ensures gone { OnOk result (LetsGoOne S.received S.sent S.course A.is_past A.kept A.is_gone D.parted ending moment index answers.old answers.new
        device.old device.new clients.old.items clients.new.items) }
    ensures left { OnErr result (Loses S.received S.sent S.course A.is_past A.is_left A.kept D.parted moment answers.old answers.new device.old device.new
        clients.old.items clients.new.items) }
{
    let Client { conn, stream, .. } = clients.swap_remove(index);
    part(device, stream, ending);
    answers.close(conn, moment)?;
    Ok(())
}

// Closes the client at this place, where there is one and it is over, and lets go of its stream. The last one stands there then. Where nothing was read
// in this turn nobody is silent: such a client is looked at in the next one.
fn let_go_at<A: Backend, S: Stream, D: Poller<S>>(
    answers: &mut A,
    device: &mut D,
    clients: &mut Vec<Client<S>>,
    place: usize,
    bounds: LeavingBounds,
    signs: &mut TurnFlags,
) -> Result<(), Memory>
    ensures gone { OnOk result (LetsGo S.received S.sent S.course A.is_past A.kept A.stands A.busy A.is_gone D.parted bounds answers.old answers.new
        device.old device.new clients.old.items clients.new.items) }
    ensures left { OnErr result (Loses S.received S.sent S.course A.is_past A.is_left A.kept D.parted bounds.now answers.old answers.new device.old device.new
        clients.old.items clients.new.items) }
    ensures all { signs.new.is_all ≡ signs.old.is_all }
    ensures calm { OnOk result (signs.new.is_busy ≡ false → signs.old.is_busy ≡ false) }
    ensures goes_on { OnOk result (signs.new.is_busy ≡ false → GoesOnAt A.kept A.stands A.busy bounds place answers.old answers.new clients.old.items
        clients.new.items) }
{
    if place >= clients.len() {
        return Ok(());
    }
    let Some(ending) = ending_of(answers, &clients[place], bounds) else {
        return Ok(());
    };
    if signs.puts_off(ending) {
        return Ok(());
    }
    signs.let_go(&clients[place]);
    let_go(answers, device, clients, place, bounds.now, ending)?;
    signs.visits.moved(clients, place);
    Ok(())
}

/// Closes each client that is looked at and is over, from the last on, and lets go of its stream. Logarithmic for each.
pub(crate) fn let_go_listed<A: Backend, S: Stream, D: Poller<S>>(
    answers: &mut A,
    device: &mut D,
    clients: &mut Vec<Client<S>>,
    bounds: LeavingBounds,
    signs: &mut TurnFlags,
) -> Result<(), Memory>
    ensures gone { OnOk result (LetsGo S.received S.sent S.course A.is_past A.kept A.stands A.busy A.is_gone D.parted bounds answers.old answers.new
        device.old device.new clients.old.items clients.new.items) }
    ensures left { OnErr result (Loses S.received S.sent S.course A.is_past A.is_left A.kept D.parted bounds.now answers.old answers.new device.old device.new
        clients.old.items clients.new.items) }
    ensures all { signs.new.is_all ≡ signs.old.is_all }
    ensures calm { OnOk result (signs.new.is_busy ≡ false → signs.old.is_busy ≡ false) }
    ensures go_on { OnOk result (signs.new.is_busy ≡ false → GoOn A.kept A.stands A.busy bounds signs.old.is_all answers.old answers.new clients.old.items
        clients.new.items) }
{
    let mut left = signs.count(clients.len());
    while left > 0 {
        left -= 1;
        let place = signs.place(left);
        let_go_at(answers, device, clients, place, bounds, signs)?;
    }
    Ok(())
}
