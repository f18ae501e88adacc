// One connection from its first byte to its end, by the service over a server of one node. It touches the stream and the clock that it is handed, and
// its own server.
ghost use Rattle.std.specs.Prelude.{◌≡◌, IfOk, IfSome};
ghost use Rattle.nr_model.specs.Connections.{Setup as SetupSeen};
ghost use Rattle.nr_service.specs.Readings.{AreFedByClock};
ghost use Rattle.nr_service.specs.Stories.{Story};
ghost use Rattle.nr_server.specs.Runs.{alone as one_connection, IsFresh, IsServed};
ghost use Rattle.nr_server.specs.Going.{IsDone, Ends};

use crate::fault::Fault;
use nr_entry::Setup;
use nr_service::{Backend, Client, ConnectionState, Moments, NoArrivals, Service, Stream};
use nr_world_service::WorldBackend;
use std::alloc::Global;
use std::hash::RandomState;

// How many bytes may wait for the connection.
const LIMIT: usize = 67_108_864;

/// How the service of a connection ended.
#[derive(Clone, Copy, Debug, PartialEq, Eq)]
pub enum Done {
    /// Its input has ended, or it takes no more bytes, and all was sent that waited for it.
    Whole,
    /// Its stream failed.
    Broken,
    /// Memory ran out, or its node fell by that.
    Memory,
}

/// A stream whose connection was served, and how that ended.
#[derive(Drop)]
pub struct ServedConnection<S> {
    pub stream: S,
    pub done: Done,
}

// One node, one worker and one connection.
fn alone() -> Setup
    ensures { result ≡ one_connection }
{
    Setup::new(1, 1_024, 1, 1, LIMIT).unwrap()
}

// How the first of these clients has ended, `None` where it is served further.
fn done_of<A: Backend, S: Stream>(answers: &A, clients: &[Client<S>]) -> Option<Done>
    ensures { IfSome result (λ done. IsDone A.kept A.stands answers.now clients.now done) }
{
    let Some(client) = clients.first() else {
        return Some(Done::Memory);
    };
    if client.is_broken {
        return Some(Done::Broken);
    }
    if !answers.pending(client.conn).is_empty() {
        return None;
    }
    match answers.standing(client.conn) {
        ConnectionState::Down => Some(Done::Memory),
        ConnectionState::Over => Some(Done::Whole),
        ConnectionState::Open => {
            if client.is_ending {
                Some(Done::Whole)
            } else {
                None
            }
        }
    }
}

// Exchanges until the first client has ended.
fn exchange_all<A: Backend + Drop, S: Stream + Drop, M: Moments + Drop>(
    service: &mut Service<A, S, NoArrivals, M>,
) -> Done
    ensures { (first : M) (story : Story) → Ends S.received S.sent S.course A.is_past A.is_left A.is_settled A.kept A.stands
        (AreFedByClock M.gives first service.old.clock service.old.moment) (AreFedByClock M.gives first service.new.clock service.new.moment) story
        service.old.answers service.old.clients.items service.new.answers service.new.clients.items result }
{
    for _ in 0..u64::MAX {
        let Ok(()) = service.exchange() else {
            return Done::Memory;
        };
        service.answers.leaves();
        if let Some(done) = done_of(&service.answers, &service.clients) {
            return done;
        }
    }
    service.answers.leaves();
    Done::Memory
}

/// Serves one connection on a stream on which nothing was received or sent yet: it reads what comes, at most 65,536 bytes at a time, feeds it at the
/// clock's moment, has all work done that it asks for, and sends what is handed out, until the input has ended or the connection takes no more: its
/// bytes ended it, or more waited for it than its queue holds. The clock is asked once before each read. The stream comes back.
///
/// # Errors
///
/// `Memory` where there is no memory for the server.
pub fn serve_stream<S: Stream + Drop, M: Moments + Drop>(
    alloc: Global,
    keys: RandomState,
    stream: S,
    clock: M,
) -> Result<ServedConnection<S>, Fault>
    requires { IsFresh S.received S.sent S.course stream }
    ensures { IfOk result (IsServed S.received S.sent S.course M.gives clock) }
{
    let answering = WorldBackend::new(alloc, keys, alone())?;
    let mut service = Service::new(alloc, 0, 0, answering, NoArrivals, clock, LIMIT, 0)?;
    if !service.admit(stream)? {
        return Err(Fault::Memory);
    }
    let done = exchange_all(&mut service);
    if service.clients.is_empty() {
        return Err(Fault::Memory);
    }
    let Client { stream, .. } = service.clients.swap_remove(0);
    Ok(ServedConnection { stream, done })
}
