// Taking the connections that wait.
ghost use Rattle.std.specs.Prelude.{◌≡◌, ◌≤◌, ◌+◌, false, [], IfOk, IfSome, IfNone, OnOk, OnErr};
ghost use Rattle.std.specs.Vec.{vec_len, vec_capacity};
ghost use Rattle.nr_entry.specs.Jobs.{connection_of};
ghost use Rattle.nr_service.specs.Arriving.{ArrivesFew, ArrivesUntil};
ghost use Rattle.nr_service.specs.Pollers.{PartsWith, turned_away};
ghost use Rattle.nr_service.specs.Silence.{OpensAt};
ghost use Rattle.nr_service.specs.Stories.{IsLeftOf, IsOpened, Keeps};
ghost use Rattle.nr_service.specs.Streams.{fresh_course};
ghost use Rattle.nr_service.specs.Steps.{Accepts, IsTakenOn, next_number};
ghost use Rattle.nr_service.specs.Turns.{most_accepted};

use crate::backend::Backend;
use crate::client::{Client, Ending};
use crate::leaving::part;
use crate::poller::Poller;
use crate::stream::Stream;
use crate::turn_flags::TurnFlags;
use nr_blob::Memory;
use nr_entry::ConnId;

// How many connections are accepted at most in a turn.
const MOST_ACCEPTED: u32 = 64;

// Opens the connection that was accepted as this number, where there is memory for one more client; else it is turned away. `None` where there was no
// room for it.
fn open_one<A: Backend, S: Stream>(
    answers: &mut A,
    clients: &mut Vec<Client<S>>,
    number: u64,
) -> Result<Option<ConnId>, Memory>
    ensures opened { IfOk result (λ opened. IfSome opened (λ conn. IsOpened (connection_of conn) (A.is_past answers.old) (A.is_past answers.new)
        (A.kept answers.old) (A.kept answers.new))) }
    ensures none { IfOk result (λ opened. IfNone opened (Keeps (A.is_past answers.old) (A.is_past answers.new) (A.kept answers.old)
        (A.kept answers.new))) }
    ensures full { IfOk result (λ opened. IfNone opened (A.is_full answers.old)) }
    ensures placed { IfOk result (λ opened. IfSome opened (λ conn. A.is_placed answers.old answers.new number (connection_of conn))) }
    ensures left { OnErr result (IsLeftOf (A.is_past answers.old) (A.is_left answers.new)) }
    ensures items { clients.new.items ≡ clients.old.items }
    ensures room { IfOk result (λ opened. IfSome opened (λ conn. vec_len clients.new + 1 ≤ vec_capacity clients.new)) }
{
    if let Err(error) = clients.try_reserve(1) {
        answers.turn_away(error.into())?;
        return Ok(None);
    }
    let opened = answers.open(number)?;
    Ok(opened)
}

// Serves a stream from now on, on which nothing was received or sent, at a moment in milliseconds. False where there was no room for it, or no memory
// for one more client: then it is abandoned.
pub(crate) fn take_on<A: Backend, S: Stream + Drop, D: Poller<S>>(
    answers: &mut A,
    device: &mut D,
    clients: &mut Vec<Client<S>>,
    accepted: &mut u64,
    signs: &mut TurnFlags,
    moment: u64,
    stream: S,
) -> Result<bool, Memory>
    requires received { IfSome (S.received stream) (λ bytes. bytes ≡ []) }
    requires sent { IfSome (S.sent stream) (λ bytes. bytes ≡ []) }
    requires course { IfSome (S.course stream) (λ course. course ≡ fresh_course) }
    ensures ok { OnOk result (Accepts S.received S.sent S.course A.is_past A.kept answers.old answers.new clients.old.items clients.new.items) }
    ensures err { OnErr result (ArrivesUntil 1 S.received S.sent S.course A.is_past A.is_left A.kept A.is_full A.is_placed D.parted answers.old answers.new
        accepted.old device.old device.new clients.old.items clients.new.items) }
    ensures taken { IfOk result (λ is_taken. IsTakenOn (A.is_placed answers.old answers.new accepted.old) is_taken stream clients.old.items
        clients.new.items) }
    ensures device { IfOk result (λ is_taken. PartsWith (turned_away is_taken stream) (D.parted device.old) (D.parted device.new)) }
    ensures heard { OnOk result (OpensAt moment clients.old.items clients.new.items) }
    ensures counted { accepted.new ≡ next_number accepted.old }
    ensures full { IfOk result (λ is_taken. is_taken ≡ false → A.is_full answers.old) }
    ensures arrives { OnOk result (ArrivesFew 1 A.is_full A.is_placed D.parted answers.old answers.new accepted.old accepted.new device.old device.new
        clients.old.items clients.new.items) }
{
    let number = *accepted;
    *accepted = number.wrapping_add(1);
    let Some(conn) = open_one(answers, clients, number)? else {
        part(device, stream, Ending::Lost);
        return Ok(false);
    };
    signs.has_news = true;
    clients.push(Client::new(conn, stream, moment))?;
    Ok(true)
}

// Accepts one, where one waits, at a moment in milliseconds.
fn accept_one<A: Backend, S: Stream + Drop, D: Poller<S>>(
    answers: &mut A,
    device: &mut D,
    clients: &mut Vec<Client<S>>,
    accepted: &mut u64,
    signs: &mut TurnFlags,
    moment: u64,
) -> Result<bool, Memory>
    ensures ok { OnOk result (Accepts S.received S.sent S.course A.is_past A.kept answers.old answers.new clients.old.items clients.new.items) }
    ensures err { OnErr result (ArrivesUntil 1 S.received S.sent S.course A.is_past A.is_left A.kept A.is_full A.is_placed D.parted answers.old answers.new
        accepted.old device.old device.new clients.old.items clients.new.items) }
    ensures arrives { OnOk result (ArrivesFew 1 A.is_full A.is_placed D.parted answers.old answers.new accepted.old accepted.new device.old device.new
        clients.old.items clients.new.items) }
    ensures heard { OnOk result (OpensAt moment clients.old.items clients.new.items) }
{
    answers.leaves();
    let Some(stream) = device.accept()? else {
        return Ok(false);
    };
    take_on(answers, device, clients, accepted, signs, moment, stream)?;
    Ok(true)
}

/// Accepts what waits, at most 64 connections, at a moment in milliseconds.
pub(crate) fn accept_each<A: Backend, S: Stream + Drop, D: Poller<S>>(
    answers: &mut A,
    device: &mut D,
    clients: &mut Vec<Client<S>>,
    accepted: &mut u64,
    signs: &mut TurnFlags,
    moment: u64,
) -> Result<(), Memory>
    ensures ok { OnOk result (Accepts S.received S.sent S.course A.is_past A.kept answers.old answers.new clients.old.items clients.new.items) }
    ensures err { OnErr result (ArrivesUntil most_accepted S.received S.sent S.course A.is_past A.is_left A.kept A.is_full A.is_placed D.parted answers.old answers.new
        accepted.old device.old device.new clients.old.items clients.new.items) }
    ensures arrives { OnOk result (ArrivesFew most_accepted A.is_full A.is_placed D.parted answers.old answers.new accepted.old accepted.new device.old
        device.new clients.old.items clients.new.items) }
    ensures heard { OnOk result (OpensAt moment clients.old.items clients.new.items) }
{
    for _ in 0..MOST_ACCEPTED {
        let more = accept_one(answers, device, clients, accepted, signs, moment)?;
        if !more {
            return Ok(());
        }
    }
    Ok(())
}
