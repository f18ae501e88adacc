// What a connection's bytes and its close come to, and the jobs that wait at its worker for that.
ghost use Rattle.std.specs.Prelude.{◌≡◌, ◌≤◌, ◌++◌, [], not, true, false, OnOk, filter, option_to_list};
ghost use Rattle.std.specs.Option.{option_map};
ghost use Rattle.nr_model.specs.Items.{Item, same_connection};
ghost use Rattle.nr_model.specs.Keyspace.{moment, last_moment};
ghost use Rattle.nr_model.specs.Modes.{plain};
ghost use Rattle.nr_model.specs.Asked.{jobs_from, own_jobs};
ghost use Rattle.nr_model.specs.Nodes.Steps.{fed_client, asked_next, close_job};
ghost use Rattle.nr_entry.specs.Jobs.{connection_of, item_of, items_of};
ghost use Rattle.nr_replica.specs.Members.{Member};
ghost use Rattle.nr_world.specs.Dropped.{end_of};
ghost use Rattle.nr_world.specs.Served.{client_seen};

use crate::dropped_jobs::drop_own;
use nr_blob::Memory;
use nr_entry::{ConnId, Job, capped};
use nr_session::{Session, SessionError};

/// Feeds bytes to a session: the jobs that they ask for wait behind the others. Memory runs out where so many bytes can't be counted.
pub(crate) fn feed_session(
    session: &mut Session,
    milliseconds: u64,
    bytes: &[u8],
    pending: &mut Vec<Job>,
) -> Result<(), Memory>
    requires going { session.old.ended ≡ false }
    ensures client { (member : Member) → OnOk result (client_seen session.new member ≡ fed_client (client_seen session.old member) bytes.now) }
    ensures jobs { (member : Member) → OnOk result (items_of pending.new.items ≡ items_of pending.old.items
        ++ jobs_from session.old.connection session.old.next (moment milliseconds) (asked_next (client_seen session.old member) bytes.now).deeds) }
    ensures connection { session.new.connection ≡ session.old.connection }
    ensures ended { OnOk result (session.new.ended ≡ session.new.gave_end) }
{
    if let Some(memory) = session.last_count(bytes.len()) {
        return Err(memory);
    }
    match session.feed(bytes, capped(milliseconds), pending) {
        Ok(()) => Ok(()),
        Err(SessionError::Memory(memory)) => Err(memory),
        // It takes bytes.
        Err(SessionError::Ended) => unreachable!(),
    }
}

/// Closes a session: the jobs of its connection that wait are dropped, and that of its end, if it needs one, waits behind the others.
/// Linear in the jobs that wait.
pub(crate) fn close_session(
    session: &mut Session,
    conn: ConnId,
    milliseconds: u64,
    pending: &mut Vec<Job>,
) -> Result<(), Memory>
    requires { session.old.connection ≡ connection_of conn }
    ensures ended { session.new ≡ record session.old { rest = []; mode = plain; ended = true } }
    ensures jobs { (member : Member) → OnOk result (items_of pending.new.items
        ≡ filter (λ (job : Item). not (same_connection job.connection (connection_of conn))) (items_of pending.old.items)
        ++ option_to_list (close_job (client_seen session.old member) (connection_of conn) milliseconds (own_jobs (connection_of conn) (items_of pending.old.items)))) }
{
    let dropped = drop_own(conn, pending);
    let first = dropped.or(session.lost());
    let end = end_session(session, milliseconds, first);
    push_end(end, pending)?;
    Ok(())
}

// The job of a session's end, if it needs one.
fn end_session(session: &mut Session, milliseconds: u64, dropped: Option<u64>) -> Option<Job>
    ensures job { option_map item_of result ≡ end_of dropped (moment milliseconds) session.old }
    ensures ended { session.new ≡ record session.old { rest = []; mode = plain; ended = true } }
{
    session.close(capped(milliseconds), dropped)
}

// The job of an end waits behind the others.
fn push_end(end: Option<Job>, waiting: &mut Vec<Job>) -> Result<(), Memory>
    ensures { OnOk result (items_of waiting.new.items ≡ items_of waiting.old.items ++ option_to_list (option_map item_of end)) }
{
    if let Some(job) = end {
        waiting.push(job)?;
    }
    Ok(())
}
