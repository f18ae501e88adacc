// Reading what is there, and feeding it.
ghost use Rattle.std.specs.Prelude.{◌≡◌, false, [], OnOk, OnErr, map};
ghost use Rattle.std.specs.Bool.{OnTrue, OnFalse};
ghost use Rattle.nr_entry.specs.Jobs.{connection_of};
ghost use Rattle.nr_service.specs.Leaving.{TakesNone};
ghost use Rattle.nr_service.specs.Readings.{IsFedAmong, IsFedAtRest, IsFedTo, IsNeverFed};
ghost use Rattle.nr_service.specs.Serving.{connection};
ghost use Rattle.nr_service.specs.Silence.{AreHeard, IsHeard, IsHeardBefore, IsHeardBehind};
ghost use Rattle.nr_service.specs.Steps.{Leaves, LeavesOne, Serves, ServesOne};
ghost use Rattle.nr_service.specs.declared.backend.ConnectionState.TheVariants as standings;

use crate::backend::{Backend, ConnectionState};
use crate::client::Client;
use crate::stream::{Received, Stream};
use crate::turn_flags::TurnFlags;
use nr_blob::Memory;
use nr_entry::ConnId;

// A client isn't read while more than this part of the limit waits for it.
pub(crate) const HELD_PART: usize = 16;

/// Whether a connection takes bytes.
pub(crate) fn is_open<A: Backend>(answers: &A, conn: ConnId) -> bool
    ensures open { OnTrue result (A.stands answers.now (connection_of conn) standings.Open) }
    ensures closed { OnFalse result (TakesNone (A.stands answers.now) (connection_of conn)) }
{
    match answers.standing(conn) {
        ConnectionState::Open => true,
        _ => false,
    }
}

// Reads once, and feeds what came. Its input hasn't ended yet.
fn take_in<A: Backend, S: Stream>(
    answers: &mut A,
    client: &mut Client<S>,
    moment: u64,
    buffer: &mut [u8],
    signs: &mut TurnFlags,
) -> Result<(), Memory>
    requires standing { A.stands answers.old (connection_of client.old.conn) standings.Open }
    requires going { client.old.is_ending ≡ false }
    ensures ok { OnOk result (ServesOne S.received S.sent S.course A.is_past A.kept (IsFedTo moment
        (connection client.old)) answers.old answers.new client.old client.new) }
    ensures err { OnErr result (LeavesOne S.received S.sent S.course A.is_past A.is_left A.kept IsNeverFed answers.old answers.new client.old client.new) }
    ensures conn { client.new.conn ≡ client.old.conn }
    ensures heard { IsHeard moment client.old.heard client.new.heard (S.received client.old.stream) (S.received client.new.stream) }
    ensures all { signs.new.is_all ≡ signs.old.is_all }
{
    match client.stream.receive(buffer) {
        Received::Bytes(count) => {
            client.heard = moment;
            answers.feed(client.conn, moment, &buffer[..count])?;
            client.has_filled = count == buffer.len();
            signs.note_rest(client.conn, client.has_filled);
        }
        Received::Nothing => {}
        Received::End => client.is_ending = true,
        Received::Failed => client.is_broken = true,
    }
    Ok(())
}

// When a client that is looked at counts as heard last, before it is read: at this moment, where it wasn't looked at before, or messages may come to it.
fn heard_by<A: Backend, S>(answers: &A, client: &Client<S>, moment: u64) -> u64
    ensures { IsHeardBefore (A.listens answers.now (connection client.now)) moment client.now.is_new client.now.heard result }
{
    if client.is_new || answers.is_listening(client.conn) {
        return moment;
    }
    client.heard
}

// Reads one that takes bytes, unless it is held back, as much as its room takes.
fn read_one<A: Backend, S: Stream>(
    answers: &mut A,
    client: &mut Client<S>,
    moment: u64,
    limit: usize,
    buffer: &mut [u8],
    signs: &mut TurnFlags,
) -> Result<(), Memory>
    ensures ok { OnOk result (ServesOne S.received S.sent S.course A.is_past A.kept (IsFedTo moment
        (connection client.old)) answers.old answers.new client.old client.new) }
    ensures err { OnErr result (LeavesOne S.received S.sent S.course A.is_past A.is_left A.kept IsNeverFed answers.old answers.new client.old client.new) }
    ensures conn { client.new.conn ≡ client.old.conn }
    ensures heard { IsHeardBehind (A.listens answers.old (connection client.old)) moment client.old.is_new client.old.heard client.new.heard
        (S.received client.old.stream) (S.received client.new.stream) }
    ensures all { signs.new.is_all ≡ signs.old.is_all }
{
    client.heard = heard_by(answers, client, moment);
    client.is_new = false;
    client.is_held = false;
    client.has_filled = false;
    if client.is_ending || client.is_broken {
        return Ok(());
    }
    if !is_open(answers, client.conn) {
        return Ok(());
    }
    if answers.pending(client.conn).len() > limit / HELD_PART {
        client.is_held = true;
        return Ok(());
    }
    let room = client.room.min(buffer.len());
    take_in(answers, client, moment, &mut buffer[..room], signs)?;
    Ok(())
}

// Reads the client at this place, where there is one.
fn read_at<A: Backend, S: Stream>(
    answers: &mut A,
    clients: &mut [Client<S>],
    place: usize,
    moment: u64,
    limit: usize,
    buffer: &mut [u8],
    signs: &mut TurnFlags,
) -> Result<(), Memory>
    ensures ok { OnOk result (Serves S.received S.sent S.course A.is_past A.kept (IsFedAmong moment
        (map connection clients.old)) [] answers.old answers.new clients.old clients.new) }
    ensures err { OnErr result (Leaves S.received S.sent S.course A.is_past A.is_left A.kept IsNeverFed answers.old answers.new clients.old
        clients.new) }
    ensures same { map connection clients.new ≡ map connection clients.old }
    ensures heard { AreHeard moment clients.old clients.new }
    ensures all { signs.new.is_all ≡ signs.old.is_all }
{
    if place >= clients.len() {
        return Ok(());
    }
    read_one(answers, &mut clients[place], moment, limit, buffer, signs)?;
    Ok(())
}

// Whether bytes may be fed: not while what answers is busy.
fn may_read<A: Backend>(answers: &A) -> bool
    ensures { OnTrue result (A.busy answers.now ≡ false) }
{
    !answers.is_busy()
}

/// Reads each client that is looked at once, where it takes bytes and isn't held back, and feeds what came at this moment. Linear in their number
/// and the bytes. While what answers is busy nothing is read.
pub(crate) fn read_listed<A: Backend, S: Stream>(
    answers: &mut A,
    clients: &mut [Client<S>],
    moment: u64,
    limit: usize,
    buffer: &mut [u8],
    signs: &mut TurnFlags,
) -> Result<(), Memory>
    ensures ok { OnOk result (Serves S.received S.sent S.course A.is_past A.kept (IsFedAtRest (A.busy answers.old) moment
        (map connection clients.old)) [] answers.old answers.new clients.old clients.new) }
    ensures err { OnErr result (Leaves S.received S.sent S.course A.is_past A.is_left A.kept (IsFedAmong moment
        (map connection clients.old)) answers.old answers.new clients.old clients.new) }
    ensures same { map connection clients.new ≡ map connection clients.old }
    ensures heard { AreHeard moment clients.old clients.new }
    ensures all { signs.new.is_all ≡ signs.old.is_all }
{
    if !may_read(answers) {
        signs.put_off(clients);
        return Ok(());
    }
    for visit in 0..signs.count(clients.len()) {
        let place = signs.place(visit);
        read_at(answers, clients, place, moment, limit, buffer, signs)?;
    }
    Ok(())
}
