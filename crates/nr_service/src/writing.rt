// Writing what is kept for clients.
ghost use Rattle.std.specs.Prelude.{◌≡◌, ◌≤◌, ◌+◌, ◌⊎◌, [], true, false, length, map, All, Some, None, IfSome, IfNone};
ghost use Rattle.std.specs.List.{IsDistinct};
ghost use Rattle.nr_model.specs.Items.{same_connection};
ghost use Rattle.nr_service.specs.Leaving.{IsDownSince};
ghost use Rattle.nr_service.specs.Readings.{IsNeverFed};
ghost use Rattle.nr_service.specs.Serving.{connection};
ghost use Rattle.nr_service.specs.Silence.{AreHeard, IsHeard};
ghost use Rattle.nr_service.specs.Steps.{Serves, ServesOne, settled_past};
ghost use Rattle.nr_service.specs.Stories.{KeepsOthers, kept_bytes};
ghost use Rattle.nr_service.specs.Sweeps.{IsSentOrBroken, IsWrittenOn, WritesAt, most_written};

use crate::backend::{Backend, ConnectionState};
use crate::client::{Client, FIRST_ROOM, MOST_ROOM};
use crate::reading::HELD_PART;
use crate::stream::{Sent, Stream};
use crate::turn_flags::TurnFlags;

// At most this part of the limit is written for a client in a visit, and so many bytes where that is more: the others wait no longer than for these.
const WRITTEN_PART: usize = 8;

const LEAST_MOST: usize = 1_048_576;

fn most_written(limit: usize) -> usize
    ensures { result ≡ most_written limit }
{
    (limit / WRITTEN_PART).max(LEAST_MOST)
}

// How many bytes of a client are read at once from now on, of which so many were read at most, and for which so many wait behind the work: four
// times as many where a read filled them and no more than that wait, at most all for which there is room; and else as few as at first.
fn room_behind(room: usize, has_filled: bool, waiting: usize) -> usize {
    if has_filled && waiting <= room {
        return room.saturating_mul(4).min(MOST_ROOM);
    }
    FIRST_ROOM
}

// What a try to write for one did: so many bytes were kept for it, and so many of them were taken.
#[derive(Clone, Copy)]
struct Tried {
    kept: usize,
    taken: usize,
}

// Tries once to write what is kept for one, at most so many bytes, where anything is kept and its stream hasn't failed. What isn't taken stays.
fn write_some<A: Backend, S: Stream>(
    answers: &mut A,
    client: &mut Client<S>,
    moment: u64,
    most: usize,
) -> Tried
    ensures served { ServesOne S.received S.sent S.course (settled_past A.is_past A.is_settled) A.kept IsNeverFed answers.old answers.new
        client.old client.new }
    ensures conn { client.new.conn ≡ client.old.conn }
    ensures fell { client.new.fell ≡ client.old.fell }
    ensures heard { IsHeard moment client.old.heard client.new.heard (S.sent client.old.stream) (S.sent client.new.stream) }
    ensures others { KeepsOthers (connection client.old) (A.kept answers.old) (A.kept answers.new) }
    ensures kept { result.kept ≡ length (kept_bytes (A.kept answers.old (connection client.old))) }
    ensures left { length (kept_bytes (A.kept answers.new (connection client.old))) + result.taken ≡ result.kept }
    ensures most { result.taken ≤ most }
    ensures stops { result.taken ≡ 0 → IsSentOrBroken (A.kept answers.new) client.new }
{
    let pending = answers.pending(client.conn);
    let kept = pending.len();
    if kept == 0 || client.is_broken {
        return Tried { kept, taken: 0 };
    }
    match client.stream.send(&pending[..kept.min(most)]) {
        Sent::Bytes(taken) => {
            answers.written(client.conn, taken);
            client.is_full = false;
            client.heard = moment;
            Tried { kept, taken }
        }
        Sent::Nothing => {
            client.is_full = true;
            Tried { kept, taken: 0 }
        }
        Sent::Failed => {
            client.is_broken = true;
            Tried { kept, taken: 0 }
        }
    }
}

// Writes on what is kept for one behind a first try, which took so many of the most bytes that may be taken: until all is written, its stream takes
// nothing or fails, or the most were taken. How many bytes are left.
fn write_on<A: Backend, S: Stream>(
    answers: &mut A,
    client: &mut Client<S>,
    first: Tried,
    moment: u64,
    most: usize,
) -> usize
    requires kept { length (kept_bytes (A.kept answers.old (connection client.old))) + first.taken ≡ first.kept }
    requires most { first.taken ≤ most }
    requires stops { first.taken ≡ 0 → IsSentOrBroken (A.kept answers.old) client.old }
    ensures served { ServesOne S.received S.sent S.course (settled_past A.is_past A.is_settled) A.kept IsNeverFed answers.old answers.new
        client.old client.new }
    ensures conn { client.new.conn ≡ client.old.conn }
    ensures fell { client.new.fell ≡ client.old.fell }
    ensures heard { IsHeard moment client.old.heard client.new.heard (S.sent client.old.stream) (S.sent client.new.stream) }
    ensures others { KeepsOthers (connection client.old) (A.kept answers.old) (A.kept answers.new) }
    ensures left { result ≡ length (kept_bytes (A.kept answers.new (connection client.old))) }
    ensures on { IsWrittenOn most first.kept result (IsSentOrBroken (A.kept answers.new) client.new) }
{
    let mut left = first.kept - first.taken;
    let mut most = most - first.taken;
    if first.taken == 0 {
        return left;
    }
    while left > 0 && most > 0 {
        let next = write_some(answers, client, moment, most);
        if next.taken == 0 {
            return left;
        }
        left -= next.taken;
        most -= next.taken;
    }
    left
}

// Since which moment what answers a client is down while its stream takes less than is there for it, as it is seen at this moment. `None` where that isn't so.
fn fell_at<A: Backend, S>(answers: &A, client: &Client<S>, moment: u64) -> Option<u64>
    ensures { IsDownSince (A.stands answers.now) moment client.now result }
{
    if client.fell.is_some() || !client.is_full {
        return client.fell;
    }
    if answers.standing(client.conn) == ConnectionState::Down {
        Some(moment)
    } else {
        None
    }
}

// Writes what is kept for one, until all is written, its stream takes nothing or fails, or as much was taken as may be in a visit. What isn't taken
// stays.
fn write_one<A: Backend, S: Stream>(
    answers: &mut A,
    client: &mut Client<S>,
    moment: u64,
    limit: usize,
    signs: &mut TurnFlags,
)
    ensures served { ServesOne S.received S.sent S.course (settled_past A.is_past A.is_settled) A.kept IsNeverFed answers.old answers.new
        client.old client.new }
    ensures conn { client.new.conn ≡ client.old.conn }
    ensures fell { IsDownSince (A.stands answers.old) moment client.old client.new.fell }
    ensures heard { IsHeard moment client.old.heard client.new.heard (S.sent client.old.stream) (S.sent client.new.stream) }
    ensures all { signs.new.is_all ≡ signs.old.is_all }
    ensures calm { signs.new.is_busy ≡ false → signs.old.is_busy ≡ false }
    ensures sent { signs.new.is_busy ≡ false → IsSentOrBroken (A.kept answers.new) client.new }
    ensures others { KeepsOthers (connection client.old) (A.kept answers.old) (A.kept answers.new) }
    ensures on { IsWrittenOn (most_written limit) (length (kept_bytes (A.kept answers.old (connection client.old))))
        (length (kept_bytes (A.kept answers.new (connection client.old)))) (IsSentOrBroken (A.kept answers.new) client.new) }
{
    client.fell = fell_at(answers, client, moment);
    let most = most_written(limit);
    let first = write_some(answers, client, moment, most);
    client.room = room_behind(client.room, client.has_filled, first.kept);
    client.has_filled = false;
    let left = write_on(answers, client, first, moment, most);
    let goes_on = left > 0 && !client.is_full && !client.is_broken;
    let is_free = client.is_held && left <= limit / HELD_PART;
    signs.note_rest(client.conn, goes_on | is_free);
}

// Writes for the client at this place, where there is one.
fn write_at<A: Backend, S: Stream>(
    answers: &mut A,
    clients: &mut [Client<S>],
    place: usize,
    moment: u64,
    limit: usize,
    signs: &mut TurnFlags,
)
    ensures served { Serves S.received S.sent S.course (settled_past A.is_past A.is_settled) A.kept IsNeverFed [] answers.old answers.new
        clients.old clients.new }
    ensures same { map connection clients.new ≡ map connection clients.old }
    ensures heard { AreHeard moment clients.old clients.new }
    ensures all { signs.new.is_all ≡ signs.old.is_all }
    ensures sent { WritesAt A.kept place signs.old.is_busy signs.new.is_busy answers.old answers.new clients.old clients.new }
{
    if place >= clients.len() {
        return;
    }
    write_one(answers, &mut clients[place], moment, limit, signs);
}

/// Writes for each client that is looked at and for which bytes are kept, at a moment in milliseconds. Linear in their number and the bytes.
pub(crate) fn write_listed<A: Backend, S: Stream>(
    answers: &mut A,
    clients: &mut [Client<S>],
    moment: u64,
    limit: usize,
    signs: &mut TurnFlags,
)
    ensures served { Serves S.received S.sent S.course (settled_past A.is_past A.is_settled) A.kept IsNeverFed [] answers.old answers.new
        clients.old clients.new }
    ensures same { map connection clients.new ≡ map connection clients.old }
    ensures heard { AreHeard moment clients.old clients.new }
    ensures all { signs.new.is_all ≡ signs.old.is_all }
    ensures sent { signs.old.is_all ≡ true → signs.new.is_busy ≡ false → IsDistinct same_connection (map connection clients.new)
        → All (IsSentOrBroken (A.kept answers.new)) clients.new }
{
    for visit in 0..signs.count(clients.len()) {
        let place = signs.place(visit);
        write_at(answers, clients, place, moment, limit, signs);
    }
}
