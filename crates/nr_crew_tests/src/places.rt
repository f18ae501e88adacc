// Workers over connections in memory: these come, are dealt into inboxes, one a lane, and are kept once they went.
use crate::falling::Falls;
use crate::line::{Given, Line};
use crate::watch::{Held, Watch};
use nr_blob::Memory;
use nr_crew::{ServeError, Served, StartError, WorkerPorts, serve_nodes};
use nr_entry::Setup;
use nr_service::{Accepts, Ends, Moments, Poller, Revival, Silent};
use std::alloc::Global;
use std::collections::VecDeque;
use std::hash::RandomState;
use std::process::Abort;
use std::random::RandomSource;
use std::rt::Clock;
use std::sync::atomic::{AtomicUsize, Ordering};
use std::sync::{Arc, Mutex, Wait};
use std::thread;
use std::thread::Threads;

// Connections on their way to a lane.
type Letters = Mutex<VecDeque<Line>>;

/// A clock that stands still.
#[derive(Clone, Copy, Debug, Drop)]
pub(crate) struct Still;

impl Moments for Still {
    fn now(&mut self) -> Option<u64> {
        Some(1_000_000_000_000)
    }
}

/// How a door breaks, once it has given a connection.
#[derive(Clone, Copy, Debug, PartialEq, Eq)]
pub(crate) enum Breaks {
    Never,
    /// It has no memory for the next one.
    Memory,
    /// It can't wait any more.
    Wait,
}

/// Asks for a block that no system has, so that memory is refused.
pub(crate) fn refuse_memory(alloc: Global) -> Result<(), Memory> {
    let _block: Vec<u8> = Vec::with_capacity(alloc, 1 << 62)?;
    Ok(())
}

// Where the connections of a lane come from, and go.
#[derive(Drop)]
struct Door<'a, R> {
    rt: &'a R,
    alloc: Global,
    watch: &'a Watch<'a, R>,
    letters: &'a Letters,
    lane: usize,
    breaks: Breaks,
    has_given: bool,
    gone: Vec<Line>,
    // How many of these it told of.
    told: usize,
}

impl<R: Abort + Clock> Door<'_, R> {
    fn keep(&mut self, line: Line) {
        if line.is_answered() {
            self.watch.answers(self.lane);
        }
        self.gone.push(line).expect(self.rt, "memory");
    }
}

impl<R: Wait + Abort + Clock> Poller<Line> for Door<'_, R> {
    fn accept(&mut self) -> Result<Option<Line>, Memory> {
        if self.has_given && self.breaks == Breaks::Memory {
            refuse_memory(self.alloc)?;
        }
        let line = self.letters.lock(self.rt).pop_front();
        self.has_given |= line.is_some();
        Ok(line)
    }

    // A connection is gone once the turn is over in which it went: its room came back by then.
    fn wait(&mut self, is_busy: bool) -> bool {
        for _ in self.told..self.gone.len() {
            self.watch.goes();
        }
        self.told = self.gone.len();
        if !is_busy {
            thread::yield_now();
        }
        !(self.has_given && self.breaks == Breaks::Wait)
    }

    fn finish(&mut self, mut line: Line) {
        line.is_finished = true;
        self.keep(line);
    }

    fn abandon(&mut self, line: Line) {
        self.keep(line);
    }
}

// The connections to come, the last one first, and where each that came was dealt to.
#[derive(Drop)]
struct Arrivals<'a, R> {
    rt: &'a R,
    watch: &'a Watch<'a, R>,
    letters: &'a [Letters],
    to_come: Vec<Line>,
    held: Option<Line>,
    dealt: Vec<Option<usize>>,
    // How many waits it takes.
    waits: u64,
    // All are to end in order once so many lines have given all that they send, which are counted here.
    ends: Option<(usize, Given)>,
    falls: &'a Falls,
    // The first node falls again each time it came back, or comes back once one was turned away, who comes again then; and whether its fall was told.
    falls_again: bool,
    comes_back: bool,
    has_fallen: bool,
}

impl<R> Arrivals<'_, R> {
    // Whether those behind the first wait until the first node has fallen.
    fn waits_for_fall(&self) -> bool {
        self.falls_again && !self.has_fallen && !self.dealt.is_empty()
    }
}

impl<R: Wait + Abort + Clock> Accepts for Arrivals<'_, R> {
    fn accept(&mut self) -> bool {
        let gone = self.watch.gone();
        if self.waits_for_fall() {
            return false;
        }
        if self.to_come.last().is_some_and(|line| line.from <= gone) {
            self.held = self.to_come.pop();
        }
        self.held.is_some()
    }

    fn deal(&mut self, lane: usize) {
        self.dealt.push(Some(lane)).expect(self.rt, "memory");
        if let (Some(line), Some(letters)) = (self.held.take(), self.letters.get(lane)) {
            let put = letters.lock(self.rt).push_back(line);
            put.ok().expect(self.rt, "memory");
        }
    }

    fn turn_away(&mut self) {
        self.dealt.push(None).expect(self.rt, "memory");
        match self.held.take() {
            Some(line) if self.comes_back => {
                self.to_come.push(line).ok().expect(self.rt, "memory");
            }
            _ => self.watch.goes(),
        }
    }

    fn wait(&mut self) -> bool {
        thread::yield_now();
        self.waits = self.waits.saturating_sub(1);
        self.waits > 0
    }

    fn ending(&mut self) -> Ends {
        match &self.ends {
            Some((count, given)) if given.load(Ordering::SeqCst) >= *count => Ends::InOrder,
            _ => Ends::Not,
        }
    }

    fn hear_of_fall(&mut self, _: usize, _: usize) {
        self.has_fallen = true;
    }

    fn is_time_to_revive(&mut self, _: usize) -> bool {
        let is_wanted = self.comes_back && self.dealt.contains(&None);
        is_wanted || (self.falls_again && self.to_come.is_empty())
    }

    fn hear_of_revival(&mut self, _: usize, revival: Revival) {
        if let Revival::Back(_) = revival
            && self.falls_again
        {
            self.falls.add(1);
        }
    }

    fn refuses(&mut self, node: usize) -> bool {
        self.falls.take(node)
    }
}

/// A server of so many nodes, with so many workers each.
#[derive(Clone, Copy)]
pub(crate) struct Trial {
    pub nodes: usize,
    pub workers: usize,
    pub places: usize,
    pub connections: usize,
    /// How many bytes wait for a connection at most.
    pub limit: usize,
    /// How many of the connections stay to the end.
    pub stay: usize,
    pub held: Held,
    /// How a worker's door breaks, and at which lane.
    pub breaks: Breaks,
    pub breaks_at: usize,
    /// The node that falls over the first entry; and whether the first one comes back once all have come, and falls again, time and again.
    pub falls: Option<usize>,
    pub falls_again: bool,
    /// It comes back once one was turned away, who comes again.
    pub comes_back: bool,
    /// After how many waits no connection can come any more.
    pub waits: u64,
    /// All end in order once all clients have given all that they send.
    pub ends: bool,
}

/// What came of connections: those that went, those that were left, the lanes to which all were dealt, how many workers ended, and why; and whether it was waited for too long.
#[derive(Drop)]
pub(crate) struct Came {
    pub gone: Vec<Line>,
    pub left: Vec<Line>,
    pub dealt: Vec<Option<usize>>,
    pub workers: usize,
    pub ended: Result<(), ServeError>,
    pub gave_up: bool,
}

// The size of its server, where a server may have that.
fn size_of<R: Abort>(rt: &R, trial: Trial) -> Setup {
    Setup::new(
        trial.nodes,
        trial.places,
        trial.workers,
        trial.connections,
        trial.limit,
    )
    .expect(rt, "a server may have that size")
}

// The doors of so many lanes, each with the clock of its worker.
fn places_of<'a, R: Abort + Clock>(
    rt: &'a R,
    alloc: Global,
    watch: &'a Watch<'a, R>,
    letters: &'a [Letters],
    (breaks, breaks_at): (Breaks, usize),
) -> Vec<WorkerPorts<Door<'a, R>, Still>> {
    let mut places = Vec::new(alloc);
    for (lane, letters) in letters.iter().enumerate() {
        let device = Door {
            rt,
            alloc,
            watch,
            letters,
            lane,
            breaks: if lane == breaks_at {
                breaks
            } else {
                Breaks::Never
            },
            has_given: false,
            gone: Vec::new(alloc),
            told: 0,
        };
        let put = places.push(WorkerPorts {
            device,
            clock: Still,
        });
        put.ok().expect(rt, "memory");
    }
    places
}

// Serves by a new server.
fn serve_by<'a, R>(
    rt: &'a R,
    alloc: Global,
    keys: RandomState,
    trial: Trial,
    places: Vec<WorkerPorts<Door<'a, R>, Still>>,
    arrivals: Arrivals<'a, R>,
    watch: &Watch<'a, R>,
) -> Result<(Served<Line, Door<'a, R>, Still>, Arrivals<'a, R>), StartError>
where
    R: Threads + Wait + Abort + Clock + Sync,
{
    let setup = size_of(rt, trial);
    serve_nodes::<R, Line, Door<'_, R>, Still, Silent, Watch<'_, R>, Arrivals<'_, R>>(
        rt, alloc, keys, setup, 0, places, Silent, arrivals, watch,
    )
}

// Where all are to end in order: how many lines there are, and what counts those that gave all that they send.
fn ends_of<R: Abort>(
    rt: &R,
    alloc: Global,
    trial: Trial,
    lines: &mut [Line],
) -> Option<(usize, Given)> {
    if !trial.ends {
        return None;
    }
    let count = lines.len();
    let given = Arc::new(alloc, AtomicUsize::new(0))
        .ok()
        .expect(rt, "memory");
    for line in lines {
        line.all_given = Some(Arc::try_clone(&given).ok().expect(rt, "memory"));
    }
    Some((count, given))
}

// Whether these are the replicas of so many nodes, in order, with a connection at least for each client that is left.
fn have_come_back<S, D, M>(served: &Served<S, D, M>, nodes: usize) -> bool {
    let mut connections = 0usize;
    for replica in &served.replicas {
        connections = connections.saturating_add(replica.connections());
    }
    let mut clients = 0usize;
    for left in &served.lefts {
        clients = clients.saturating_add(left.clients.len());
    }
    let mut replicas = served.replicas.iter().enumerate();
    served.replicas.len() == nodes
        && clients <= connections
        && replicas.all(|(node, replica)| replica.node() == node)
}

/// Serves these connections by a new server, each worker on a thread of its own, until all went that don't stay, or none can come any more.
pub(crate) fn serve<R>(rt: &R, alloc: Global, trial: Trial, mut lines: Vec<Line>) -> Came
where
    R: RandomSource + Threads + Wait + Abort + Clock + Sync,
{
    let wanted = lines.len().saturating_sub(trial.stay);
    let watch = Watch::new(rt, wanted, trial.held);
    let mut letters = Vec::new(alloc);
    for _ in 0..trial.nodes.saturating_mul(trial.workers) {
        let empty = Mutex::new(VecDeque::new(alloc));
        letters.push(empty).ok().expect(rt, "memory");
    }
    let ends = ends_of(rt, alloc, trial, &mut lines);
    let falls = Falls::of(trial.falls);
    lines.reverse();
    let arrivals = Arrivals {
        rt,
        watch: &watch,
        letters: &letters,
        to_come: lines,
        held: None,
        dealt: Vec::new(alloc),
        waits: trial.waits,
        ends,
        falls: &falls,
        falls_again: trial.falls_again,
        comes_back: trial.comes_back,
        has_fallen: false,
    };
    let places = places_of(rt, alloc, &watch, &letters, (trial.breaks, trial.breaks_at));
    let keys = RandomState::new(rt).ok().expect(rt, "random bytes");
    let served = serve_by(rt, alloc, keys, trial, places, arrivals, &watch);
    let (served, arrivals) = served.ok().expect(rt, "memory");
    if !trial.falls_again && !have_come_back(&served, trial.nodes) {
        panic!(rt;
            "the replica of each node comes back from behind its lock, with its connections"
        );
    }
    let workers = served.lefts.len();
    let mut gone = Vec::new(alloc);
    let mut stayed = Vec::new(alloc);
    for mut left in served.lefts {
        gone.append(&mut left.device.gone).expect(rt, "memory");
        for client in left.clients {
            stayed.push(client.stream).ok().expect(rt, "memory");
        }
    }
    Came {
        gone,
        left: stayed,
        dealt: arrivals.dealt,
        workers,
        ended: served.ended,
        gave_up: watch.gave_up(),
    }
}
