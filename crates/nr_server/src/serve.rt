// Serving by TCP: each worker of each node on a thread of its own.
ghost use Rattle.std.specs.IoError.{error_kind, raw_os_error};
ghost use Rattle.std.specs.Prelude.{◌≡◌, ◌⊎◌, ◌<◌, ◌+◌, ◌*◌, List, length, map, IfOk, IfErr};
ghost use Rattle.std.specs.Vec.{vec_len};
ghost use Rattle.nr_model.specs.Bytes.{IsBeginningOf};
ghost use Rattle.nr_crew.specs.Dealing.{HasDealt};
ghost use Rattle.nr_crew.specs.Ended.{HasEnded};
ghost use Rattle.nr_crew.specs.Left.{AreServedWithin};
ghost use Rattle.nr_crew.specs.Places.{places_from, places_left};
ghost use Rattle.nr_crew.specs.Together.{AreServedTogether};
ghost use Rattle.nr_replica.specs.Replicas.{ReplicaState};
ghost use Rattle.nr_server.specs.ByTcp.{HasNotBegun, HasServedByTcp, IsBefore};
ghost use Rattle.nr_server.specs.Listening.{IsRefused, IsRefusedAt, IsUnheardOf, IsUnopened, TellsOf};
ghost use Rattle.nr_server.specs.Serving.{ended_by, input_of, told_of};
ghost use Rattle.nr_sockets.specs.Addresses.{AreSaid};
ghost use Rattle.nr_sockets.specs.Unheard.{IsUnheardAt};

use crate::fault::Fault;
use crate::parting::part_from_all;
use crate::reception::{Begins, Reception};
use crate::refusal::SystemRefusal;
use nr_blob::Memory;
use nr_config::{Lasts, Settings};
use nr_crew::{ServeError, Served, StartError, WorkerEnd, WorkerPorts, serve_nodes};
use nr_entry::Setup;
use nr_service::{Accepts, Gate, MachineClock, Moments, Poller, Rings, Stream};
use nr_sockets::{
    Inboxes, ListenError, Listener, Listening, PollHandle, Socket, SocketPoller, SocketPollerError,
    Terms, Unheard, most_descriptors, open_lanes,
};
use std::alloc::Global;
use std::fs::Files;
use std::hash::RandomState;
use std::io::{Error, Write};
use std::net::Net;
use std::os::fd::RawFd;
use std::rt::Clock;
use std::sync::Wait;
use std::thread::{self, Threads};

/// The descriptor of standard input.
const STANDARD_INPUT: RawFd = 0;

// What is told of an address at which nobody can listen, by what the system says of that.
fn refused(alloc: Global, address: &str, error: &Error) -> Result<Fault, Memory>
    ensures { IfOk result (IsRefused address.now (error_kind error.now) (raw_os_error error.now)) }
{
    if Memory::of(error).is_some() {
        return Ok(Fault::Memory);
    }
    let address = String::from_str(alloc, address)?;
    Ok(Fault::CannotListen(address, SystemRefusal::of(error)))
}

// The same of the one that stands at this place.
fn refused_at(
    alloc: Global,
    addresses: &[String],
    place: usize,
    error: &Error,
) -> Result<Fault, Memory>
    requires { place < length addresses.now }
    ensures { IfOk result (IsRefusedAt addresses.now place (error_kind error.now) (raw_os_error error.now)) }
{
    let fault = refused(alloc, addresses[place].as_str(), error)?;
    Ok(fault)
}

// Why there is nothing by which the system tells of connections: memory was refused, or it has no descriptors for that.
fn unopened(error: &Error) -> Fault
    ensures { IsUnopened (error_kind error.now) result }
{
    if Memory::of(error).is_some() {
        Fault::Memory
    } else {
        Fault::Listener
    }
}

// What is told where nobody listens at these addresses.
fn unheard(alloc: Global, addresses: &[String], error: &ListenError) -> Result<Fault, Memory>
    requires { IsUnheardAt addresses.now error.now }
    ensures { IfOk result (TellsOf addresses.now error.now) }
{
    match error {
        ListenError::Poll(error) => Ok(unopened(error)),
        ListenError::Address(Unheard { place, error }) => {
            let fault = refused_at(alloc, addresses, *place, error)?;
            Ok(fault)
        }
    }
}

/// Listens where the settings say.
///
/// # Errors
///
/// `CannotListen` with the first address that the system refuses, and what it says; `Listener` where it has no descriptor for what tells of connections;
/// `Memory` where memory runs out.
pub fn listen_on<R: Files + Net>(
    alloc: Global,
    rt: &R,
    settings: &Settings,
) -> Result<Listening, Fault>
    ensures named { IfOk result (λ listening. AreSaid settings.now.listen.items listening.named.items) }
    ensures refused { IfErr result (IsUnheardOf settings.now.listen.items) }
{
    match Listening::listen(alloc, rt, &settings.listen) {
        Ok(listening) => Ok(listening),
        Err(error) => Err(unheard(alloc, &settings.listen, &error)?),
    }
}

// How large the server is.
fn setup_of(settings: &Settings) -> Setup
    ensures nodes { result.nodes ≡ settings.now.nodes }
    ensures places { result.places ≡ settings.now.places }
    ensures workers { result.workers ≡ settings.now.workers }
    ensures connections { result.connections ≡ settings.now.connections }
    ensures limit { result.queue_limit ≡ settings.now.queue_limit }
{
    Setup::new(
        settings.nodes,
        settings.places,
        settings.workers,
        settings.connections,
        settings.queue_limit,
    )
    .unwrap()
}

/// What the workers of a server left, and why they ended.
#[derive(Drop)]
pub struct Remains<S, D, M> {
    pub lefts: Vec<WorkerEnd<S, D, M>>,
    pub ended: Result<(), ServeError>,
}

/// Serves by a new server of this size, a client for `timeout` milliseconds without a byte, 0 for ever, each worker of each node on a thread of its own, with the place of its
/// number: worker w of node n is number n * workers + w. The connections that come from `main` are dealt out to them in turn. It ends once the gate stops all workers, none is left
/// that serves, or no connection can come any more; what the workers left is handed back with `main`, and the replicas of the nodes are let go of. Strangers choose the keys, so the
/// hashers take a seed of their own.
///
/// # Errors
///
/// [`StartError`]'s, before any worker starts.
pub fn serve_on<R, S, D, M, K, G, L>(
    rt: &R,
    alloc: Global,
    keys: RandomState,
    setup: Setup,
    timeout: u64,
    places: Vec<WorkerPorts<D, M>>,
    bells: K,
    main: L,
    gate: &G,
) -> Result<(Remains<S, D, M>, L), StartError>
where
    R: Threads + Wait + Sync,
    S: Stream + Drop + Send,
    D: Poller<S> + Drop + Send,
    M: Moments + Drop + Send,
    K: Rings + Drop + Sync,
    G: Gate + Sync,
    L: Accepts + Drop,
    ensures together { IfOk result (λ remains. (replicas : List ReplicaState) × AreServedTogether S.received S.sent M.gives D.parted remains.0.lefts.items replicas) }
    ensures dealt { IfOk result (λ remains. HasDealt setup.nodes setup.workers (L.dealt main) (L.dealt remains.1)) }
    ensures ended { IfOk result (λ remains. HasEnded (setup.nodes * setup.workers) remains.0.ended remains.0.lefts.items) }
    ensures within { IfOk result (λ remains. AreServedWithin (record { limit = setup.queue_limit; timeout = timeout }) remains.0.lefts.items) }
    ensures in_place { IfOk result (λ remains. IsBeginningOf (places_left remains.0.lefts.items) (places_from 0 setup.nodes setup.workers)) }
{
    let served = serve_nodes(rt, alloc, keys, setup, timeout, places, bells, main, gate)?;
    let (served, main) = served;
    let remains = remains_of(served);
    Ok((remains, main))
}

// The same without the replicas of its nodes, which are let go of.
fn remains_of<S, D, M>(served: Served<S, D, M>) -> Remains<S, D, M>
    ensures { (result.lefts ≡ served.lefts) × (result.ended ≡ served.ended) }
{
    Remains {
        lefts: served.lefts,
        ended: served.ended,
    }
}

// What is told of how the workers ended.
fn told_of(ended: Result<(), ServeError>) -> Result<(), Fault>
    ensures { result ≡ told_of ended }
{
    match ended {
        Ok(()) => Ok(()),
        Err(ServeError::Down | ServeError::Memory(_)) => Err(Fault::Memory),
        Err(ServeError::Device) => Err(Fault::Listener),
        Err(ServeError::NoThread) => Err(Fault::NoThread),
    }
}

// The bells of inboxes that others share too.
#[derive(Drop)]
struct Bells<'a> {
    entrance: &'a Inboxes,
}

impl Rings for Bells<'_> {
    fn ring(&self, lane: usize) {
        self.entrance.ring(lane);
    }

    fn take_lost(&self, lane: usize) -> u64 {
        self.entrance.take_lost(lane)
    }
}

// What is told where a lane has no poller.
fn undoored(why: SocketPollerError) -> Fault
    ensures { IsBefore result }
{
    match why {
        SocketPollerError::NoLane => Fault::Listener,
        SocketPollerError::Memory(_) => Fault::Memory,
    }
}

// The places of the workers, each with the poller of its lane.
fn places_of<'a, R>(
    alloc: Global,
    rt: &'a R,
    entrance: &'a Inboxes,
    lookouts: Vec<PollHandle>,
) -> Result<Vec<WorkerPorts<SocketPoller<'a, R>, MachineClock<'a, R>>>, Fault>
    ensures lanes { IfOk result (λ places. map (λ place. place.device.lane.now.number) places.items ≡ map (λ lookout. lookout.lane) lookouts.items) }
    ensures before { IfErr result IsBefore }
{
    let mut places = Vec::with_capacity(alloc, lookouts.len())?;
    for lookout in lookouts {
        let device = match SocketPoller::new(alloc, rt, entrance, lookout) {
            Ok(door) => door,
            Err(why) => return Err(undoored(why)),
        };
        let clock = MachineClock { runtime: rt };
        let Ok(()) = places.push(WorkerPorts { device, clock }) else {
            return Err(Fault::Memory);
        };
    }
    Ok(places)
}

/// How many descriptors a server of this size takes where each node has all its connections: one each, two for each worker, and 16 for all else.
fn descriptors_of(settings: &Settings) -> u64
    ensures { result ≡ settings.now.nodes * settings.now.connections + 2 * (settings.now.nodes * settings.now.workers) + 16 }
{
    let connections = settings.nodes * settings.connections;
    let lanes = settings.nodes * settings.workers;
    (connections + 2 * lanes + 16) as u64
}

// What is told as it begins.
fn begins_of<R: Threads>(rt: &R, settings: &Settings) -> Begins {
    Begins {
        threads: settings.nodes * settings.workers,
        processors: thread::available_parallelism(rt)
            .ok()
            .map(|count| count.get()),
        descriptors: most_descriptors(),
        wanted: descriptors_of(settings),
    }
}

// On which terms connections are taken.
fn terms_of(settings: &Settings, lasts: Lasts) -> Terms
    ensures keepalive { result.tcp_keepalive ≡ settings.now.tcp_keepalive }
    ensures input { result.input ≡ input_of lasts }
    ensures shutdown { result.shutdown_seconds ≡ settings.now.shutdown_seconds }
{
    Terms {
        tcp_keepalive: settings.tcp_keepalive as u32,
        input: match lasts {
            Lasts::UntilInputEnds => Some(STANDARD_INPUT),
            Lasts::UntilKilled => None,
        },
        shutdown_seconds: settings.shutdown_seconds as u32,
    }
}

// What is told of how the server ended, which may have had nobody to hear where it listens.
fn ended_by(ended: Result<(), ServeError>, is_mute: bool) -> Result<(), Fault>
    ensures { result ≡ ended_by ended is_mute }
{
    if is_mute {
        return Err(Fault::Write);
    }
    told_of(ended)
}

/// Serves the connections that come where this listens, by the settings, until the gate stops all workers, or, where it lasts until its input ends, that has ended:
/// then nothing more is taken or read, and it ends once all that was read is executed and all that was answered is written, or `shutdown_seconds` are over. Clients that are left then are let go of as ones that have
/// finished, and for a second what they still send is read and dropped, so that nothing that was written is taken back. On `out`
/// stands where it listens, a line for each address, once all workers serve; on `errors` by how many threads, and then a line for each node that falls or comes back,
/// for connections that are turned away or find no descriptor, and nodes that find no memory to come back, at most one a minute each, and for the end of the input,
/// unless it fails.
///
/// # Errors
///
/// `Memory` where memory runs out, also where every node is down by that; `Listener` where no connection can come any more, or the system has no descriptors for the
/// workers; `NoThread` where it has no thread for one of them; `Write` where `out` takes nothing.
pub fn serve_by_tcp<R, G, O, E>(
    rt: &R,
    alloc: Global,
    keys: RandomState,
    settings: &Settings,
    listening: Listening,
    lasts: Lasts,
    out: O,
    errors: E,
    gate: &G,
) -> Result<(), Fault>
where
    R: Clock + Files + Net + Threads + Wait + Sync,
    G: Gate + Sync,
    O: Write + Drop,
    E: Write + Drop,
    ensures served { HasServedByTcp (⟦<Socket as Stream>⟧.received) (⟦<Socket as Stream>⟧.sent) (⟦<MachineClock<'static, R> as Moments>⟧.gives)
        (⟦<SocketPoller<'static, R> as Poller<Socket>>⟧.parted) settings.now.nodes settings.now.workers
        (record { limit = settings.now.queue_limit; timeout = settings.now.timeout * 1000 }) result ⊎ HasNotBegun result }
{
    let lanes = settings.nodes * settings.workers;
    let (entrance, lookouts) = match open_lanes(alloc, rt, lanes) {
        Ok(opened) => opened,
        Err(error) => return Err(unopened(&error)),
    };
    let places = places_of(alloc, rt, &entrance, lookouts)?;
    let bells = Bells {
        entrance: &entrance,
    };
    let terms = terms_of(settings, lasts);
    let listener = Listener::new(alloc, listening, rt, &entrance, terms);
    let clock = MachineClock { runtime: rt };
    let begins = begins_of(rt, settings);
    let reception = Reception::new(listener, clock, out, errors, begins, settings.revive);
    let (mut served, mut reception) = serve_on::<
        R,
        Socket,
        SocketPoller<'_, R>,
        MachineClock<'_, R>,
        Bells<'_>,
        G,
        Reception<Listener<'_, R>, MachineClock<'_, R>, O, E>,
    >(
        rt,
        alloc,
        keys,
        setup_of(settings),
        settings.timeout as u64 * 1_000,
        places,
        bells,
        reception,
        gate,
    )?;
    reception.listener.listening.leave(rt);
    if reception.has_ended_in_order() {
        part_from_all(alloc, &mut served.lefts, &mut MachineClock { runtime: rt });
    }
    let ended = ended_by(served.ended, reception.is_mute);
    reception.tell_end(&ended);
    ended
}
