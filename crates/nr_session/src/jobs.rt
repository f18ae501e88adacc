// The jobs of requests, numbered on without gap, also where memory runs out on the way.
ghost use Rattle.std.specs.Prelude.{◌≡◌, ◌≤◌, ◌<◌, ◌+◌, ◌^◌, ◌++◌, [], ◌∷◌, false, OnOk, OnErr, IfOk, length};
ghost use Rattle.nr_model.specs.Commands.{served};
ghost use Rattle.nr_model.specs.Items.{is_end};
ghost use Rattle.nr_model.specs.Keyspace.{last_moment};
ghost use Rattle.nr_model.specs.Modes.{answer};
ghost use Rattle.nr_model.specs.Asked.{jobs_from};
ghost use Rattle.nr_resp.specs.Frames.{frames_seen};
ghost use Rattle.nr_entry.specs.Kinds.{update_deed};
ghost use Rattle.nr_entry.specs.Jobs.{connection_of, items_of};
ghost use Rattle.nr_session.specs.SessionState.{requested, request_jobs, AddsFront, ends};

use crate::mode::Mode;
use nr_blob::Memory;
use nr_entry::{ConnId, Job, JobKind, Update};
use nr_resp::{Frame, Reply};

/// Adds the job of each request, numbered on, up to one that ends the connection, and says whether there was such a request. Out
/// of memory, those of the requests before are there, and the next number stands behind them.
pub(crate) fn push_jobs(
    conn: ConnId,
    mode: &mut Mode,
    next: &mut u64,
    moment: u64,
    frames: &mut Vec<Frame>,
    jobs: &mut Vec<Job>,
) -> Result<bool, Memory>
    requires fits { next.old + length frames.old.items < 2 ^ 64 }
    requires in_time { moment ≤ last_moment }
    ensures jobs { OnOk result (items_of jobs.new.items ≡ items_of jobs.old.items
        ++ request_jobs (connection_of conn) next.old moment mode.old (frames_seen frames.old.items)) }
    ensures next { OnOk result (next.new ≡ next.old + length (requested mode.old (frames_seen frames.old.items)).deeds) }
    ensures mode { OnOk result (mode.new ≡ (requested mode.old (frames_seen frames.old.items)).mode) }
    ensures ended { IfOk result (λ ended. ended ≡ (requested mode.old (frames_seen frames.old.items)).ended) }
    ensures few { next.new ≤ next.old + length frames.old.items }
    ensures goes_on { IfOk result (λ ended. ended ≡ false → ends (items_of jobs.new.items) ≡ ends (items_of jobs.old.items)) }
    ensures no_end { OnErr result (ends (items_of jobs.new.items) ≡ ends (items_of jobs.old.items)) }
    ensures err { OnErr result (AddsFront (items_of jobs.old.items) (items_of jobs.new.items) next.old next.new
        (request_jobs (connection_of conn) next.old moment mode.old (frames_seen frames.old.items))) }
{
    frames.reverse();
    while let Some(frame) = frames.pop() {
        if push_job(conn, mode, next, moment, frame, jobs)? {
            return Ok(true);
        }
    }
    Ok(false)
}

// Adds the job of one request, and says whether it ends the connection.
fn push_job(
    conn: ConnId,
    mode: &mut Mode,
    next: &mut u64,
    moment: u64,
    frame: Frame,
    jobs: &mut Vec<Job>,
) -> Result<bool, Memory>
    requires fits { next.old + 1 < 2 ^ 64 }
    requires in_time { moment ≤ last_moment }
    ensures jobs { OnOk result (items_of jobs.new.items ≡ items_of jobs.old.items
        ++ jobs_from (connection_of conn) next.old moment ((answer served mode.old frame.words.items).deed ∷ [])) }
    ensures mode { OnOk result (mode.new ≡ (answer served mode.old frame.words.items).mode) }
    ensures next { OnOk result (next.new ≡ next.old + 1) }
    ensures ended { IfOk result (λ ended. ended ≡ is_end (answer served mode.old frame.words.items).deed) }
    ensures goes_on { IfOk result (λ ended. ended ≡ false → ends (items_of jobs.new.items) ≡ ends (items_of jobs.old.items)) }
    ensures err { OnErr result (jobs.new.items ≡ jobs.old.items) }
    ensures numbered { OnErr result (next.new ≡ next.old) }
{
    let kind = mode.answer(frame)?;
    let ended = kind.is_end();
    jobs.push(Job {
        conn,
        number: *next,
        moment,
        kind,
    })?;
    *next += 1;
    Ok(ended)
}

/// Adds the job that ends a connection.
pub(crate) fn push_close(
    conn: ConnId,
    number: u64,
    moment: u64,
    reply: Option<Reply>,
    jobs: &mut Vec<Job>,
) -> Result<(), Memory>
    requires in_time { moment ≤ last_moment }
    ensures ok { OnOk result (items_of jobs.new.items ≡ items_of jobs.old.items
        ++ jobs_from (connection_of conn) number moment (update_deed (Update.Close reply) ∷ [])) }
    ensures err { OnErr result (jobs.new.items ≡ jobs.old.items) }
{
    jobs.push(Job {
        conn,
        number,
        moment,
        kind: JobKind::Update(Update::Close(reply)),
    })?;
    Ok(())
}
