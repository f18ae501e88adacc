// One thread that serves connections, turn by turn.
ghost use Rattle.std.specs.Prelude.{ℕ, ◌≡◌, ◌≤◌, ◌+◌, ◌⊎◌, true, false, [], All, OnOk, OnErr, IfOk, IfErr, IfSome, map};
ghost use Rattle.std.specs.List.{IsDistinct};
ghost use Rattle.nr_model.specs.Items.{same_connection};
ghost use Rattle.nr_model.specs.Connections.{Setup};
ghost use Rattle.nr_service.specs.Arriving.{ArrivesUntil};
ghost use Rattle.nr_service.specs.Pollers.{PartsWith, turned_away};
ghost use Rattle.nr_service.specs.Endings.{BreaksOff, ByCause, ByEnding, GoesOn, IsDone, IsGoing, RanOut, TakesTurns, most_turns_down};
ghost use Rattle.nr_service.specs.Readings.{IsFedAmong, IsNeverFed, ReadsClock};
ghost use Rattle.nr_service.specs.Serving.{connection, IsServing};
ghost use Rattle.nr_service.specs.Silence.{AreHeard, OpensAt};
ghost use Rattle.nr_service.specs.Streams.{fresh_course};
ghost use Rattle.nr_service.specs.Steps.{Accepts, Exchanges, IsTakenOn, Leaves, Serves, next_number};
ghost use Rattle.nr_service.specs.Sweeps.{IsSentOrBroken, LooksSoon};
ghost use Rattle.nr_service.specs.Turns.{Turns};
ghost use Rattle.nr_service.specs.Stories.{HasWorked, IsLeftOf, beginning};

use crate::accepting::{accept_each, take_on};
use crate::backend::Backend;
use crate::client::{Client, MOST_ROOM};
use crate::ended::Ended;
use crate::gate::{Gate, Go};
use crate::leaving::{LeavingBounds, let_go_listed};
use crate::moments::Moments;
use crate::poller::Poller;
use crate::reading::read_listed;
use crate::stream::Stream;
use crate::turn_flags::TurnFlags;
use crate::writing::write_listed;
use nr_blob::Memory;
use std::alloc::Global;
use std::thread;

// How many turns more are taken at most once every node is down.
const LAST_TURNS: u32 = 1_000;

/// One thread that serves connections, as a worker of a node.
#[derive(Drop)]
pub struct Service<A, S, D, M> {
    pub answers: A,
    pub device: D,
    pub clock: M,
    pub clients: Vec<Client<S>>,
    /// Which worker of which node it is, each from 0 on: by these it asks the gate.
    pub node: usize,
    pub worker: usize,
    /// How many bytes may wait for a client. It isn't read while more than a sixteenth of them do.
    pub limit: usize,
    /// After how many milliseconds without a byte a client is closed that is subscribed to nothing. 0: never.
    pub timeout: u64,
    /// The moment at which bytes are fed, in milliseconds: the last that the clock gave, at first 0.
    pub moment: u64,
    /// How many connections were accepted, also those for which there was no room.
    pub accepted: u64,
    /// In how many turns at most all clients are looked at in one: 0 where it is the next, and 1,023 behind it.
    pub until: u32,
    buffer: Vec<u8>,
    signs: TurnFlags,
}

// The moment that the clock gives, or this one where it fails.
fn moment_now<M: Moments>(clock: &mut M, moment: u64) -> u64
    ensures { ReadsClock M.gives clock.old clock.new moment result }
{
    clock.now().unwrap_or(moment)
}

/// Room for the bytes that a service reads at once, 65,536.
///
/// # Errors
///
/// `Memory` where there is none.
pub fn read_buffer(alloc: Global) -> Result<Vec<u8>, Memory> {
    let buffer = vec![in alloc; 0; MOST_ROOM]?;
    Ok(buffer)
}

// Has all work done.
fn work<A: Backend>(answers: &mut A, signs: &mut TurnFlags) -> Result<(), Memory>
    ensures all { signs.new.is_all ≡ signs.old.is_all }
    ensures worked { OnOk result (HasWorked (A.is_past answers.old) (A.is_past answers.new) (A.is_settled answers.new) (A.kept answers.old)
        (A.kept answers.new)) }
    ensures left { OnErr result (IsLeftOf (A.is_past answers.old) (A.is_left answers.new)) }
{
    answers.work()?;
    signs.has_news = false;
    signs.visits.hear(answers);
    Ok(())
}

// Has the work done that is left, where there is any.
fn work_left<A: Backend, S: Stream>(
    answers: &mut A,
    clients: &[Client<S>],
    signs: &mut TurnFlags,
) -> Result<(), Memory>
    ensures all { signs.new.is_all ≡ signs.old.is_all }
    ensures serves { OnOk result (Serves S.received S.sent S.course A.is_past A.kept IsNeverFed [] answers.old answers.new clients.now clients.now) }
    ensures left { OnErr result (IsLeftOf (A.is_past answers.old) (A.is_left answers.new)) }
{
    if signs.has_news {
        work(answers, signs)?;
    }
    Ok(())
}

// Has the work done that the last turn left, as that of a close, which comes before all that is read now. Then it reads for each client, has
// all work done, and writes for each.
fn exchange_each<A: Backend, S: Stream>(
    answers: &mut A,
    clients: &mut [Client<S>],
    moment: u64,
    limit: usize,
    buffer: &mut [u8],
    signs: &mut TurnFlags,
) -> Result<(), Memory>
    ensures ok { OnOk result (Exchanges S.received S.sent S.course A.is_past A.is_settled A.kept A.busy moment answers.old answers.new clients.old clients.new) }
    ensures err { OnErr result (Leaves S.received S.sent S.course A.is_past A.is_left A.kept (IsFedAmong moment (map connection clients.old)) answers.old
        answers.new clients.old clients.new) }
    ensures same { map connection clients.new ≡ map connection clients.old }
    ensures heard { AreHeard moment clients.old clients.new }
    ensures all { signs.new.is_all ≡ signs.old.is_all }
    ensures sent { OnOk result (signs.old.is_all ≡ true → signs.new.is_busy ≡ false → IsDistinct same_connection (map connection clients.new)
        → All (IsSentOrBroken (A.kept answers.new)) clients.new) }
{
    work_left(answers, clients, signs)?;
    read_listed(answers, clients, moment, limit, buffer, signs)?;
    work(answers, signs)?;
    write_listed(answers, clients, moment, limit, signs);
    Ok(())
}

impl<A, S, D, M> Service<A, S, D, M>
where
    A: Backend + Drop,
    S: Stream + Drop,
    D: Poller<S> + Drop,
    M: Moments + Drop,
{
    /// A service without a client, of what answers and was fed nothing yet. It takes room for 65,536 bytes.
    ///
    /// # Errors
    ///
    /// `Memory` where there is no room.
    pub fn new(
        alloc: Global,
        node: usize,
        worker: usize,
        answers: A,
        device: D,
        clock: M,
        limit: usize,
        timeout: u64,
    ) -> Result<Self, Memory>
        ensures node { IfOk result (λ service. service.node ≡ node) }
        ensures worker { IfOk result (λ service. service.worker ≡ worker) }
        ensures answers { IfOk result (λ service. service.answers ≡ answers) }
        ensures serving { (setup : Setup) → A.is_past answers (beginning setup)
            → IfOk result (IsServing S.received S.sent S.course M.gives A.is_past A.kept D.parted clock setup) }
        ensures none { IfOk result (λ service. service.clients.items ≡ []) }
        ensures device { IfOk result (λ service. service.device ≡ device) }
        ensures clock { IfOk result (λ service. service.clock ≡ clock) }
        ensures moment { IfOk result (λ service. service.moment ≡ 0) }
        ensures limit { IfOk result (λ service. service.limit ≡ limit) }
        ensures timeout { IfOk result (λ service. service.timeout ≡ timeout) }
        ensures accepted { IfOk result (λ service. service.accepted ≡ 0) }
        ensures until { IfOk result (λ service. service.until ≡ 0) }
    {
        let buffer = read_buffer(alloc)?;
        Ok(Self::over(
            alloc, buffer, node, worker, answers, device, clock, limit, timeout,
        ))
    }

    /// A service without a client, of what answers and was fed nothing yet, with room that was taken before. It takes no memory.
    pub fn over(
        alloc: Global,
        buffer: Vec<u8>,
        node: usize,
        worker: usize,
        answers: A,
        device: D,
        clock: M,
        limit: usize,
        timeout: u64,
    ) -> Self
        ensures node { result.node ≡ node }
        ensures worker { result.worker ≡ worker }
        ensures answers { result.answers ≡ answers }
        ensures serving { (setup : Setup) → A.is_past answers (beginning setup)
            → IsServing S.received S.sent S.course M.gives A.is_past A.kept D.parted clock setup result }
        ensures none { result.clients.items ≡ [] }
        ensures device { result.device ≡ device }
        ensures clock { result.clock ≡ clock }
        ensures moment { result.moment ≡ 0 }
        ensures limit { result.limit ≡ limit }
        ensures timeout { result.timeout ≡ timeout }
        ensures accepted { result.accepted ≡ 0 }
        ensures until { result.until ≡ 0 }
    {
        Service {
            answers,
            device,
            clock,
            clients: Vec::new(alloc),
            node,
            worker,
            limit,
            timeout,
            moment: 0,
            accepted: 0,
            until: 0,
            buffer,
            signs: TurnFlags::new(alloc),
        }
    }

    /// Serves a stream from now on, on which nothing was received or sent yet. False where there was no room for it: then it is abandoned.
    ///
    /// # Errors
    ///
    /// `Memory` where memory runs out: nothing is answered any more then.
    pub fn admit(&mut self, stream: S) -> Result<bool, Memory>
        requires received { IfSome (S.received stream) (λ bytes. bytes ≡ []) }
        requires sent { IfSome (S.sent stream) (λ bytes. bytes ≡ []) }
        requires course { IfSome (S.course stream) (λ course. course ≡ fresh_course) }
        ensures ok { OnOk result (Accepts S.received S.sent S.course A.is_past A.kept self.old.answers self.new.answers self.old.clients.items
            self.new.clients.items) }
        ensures err { OnErr result (ArrivesUntil 1 S.received S.sent S.course A.is_past A.is_left A.kept A.is_full A.is_placed D.parted self.old.answers
            self.new.answers self.old.accepted self.old.device self.new.device self.old.clients.items self.new.clients.items) }
        ensures taken { IfOk result (λ is_taken. IsTakenOn (A.is_placed self.old.answers self.new.answers self.old.accepted) is_taken stream
            self.old.clients.items self.new.clients.items) }
        ensures device { IfOk result (λ is_taken. PartsWith (turned_away is_taken stream) (D.parted self.old.device) (D.parted self.new.device)) }
        ensures counted { self.new.accepted ≡ next_number self.old.accepted }
        ensures full { IfOk result (λ is_taken. is_taken ≡ false → A.is_full self.old.answers) }
        ensures heard { OnOk result (OpensAt self.old.moment self.old.clients.items self.new.clients.items) }
        ensures clock { self.new.clock ≡ self.old.clock }
        ensures moment { self.new.moment ≡ self.old.moment }
        ensures limit { self.new.limit ≡ self.old.limit }
        ensures timeout { self.new.timeout ≡ self.old.timeout }
        ensures node { self.new.node ≡ self.old.node }
        ensures worker { self.new.worker ≡ self.old.worker }
        ensures until { self.new.until ≡ self.old.until }
    {
        take_on(
            &mut self.answers,
            &mut self.device,
            &mut self.clients,
            &mut self.accepted,
            &mut self.signs,
            self.moment,
            stream,
        )
    }

    // Exchanges bytes with those that are looked at.
    fn exchange_listed(&mut self) -> Result<(), Memory>
        ensures ok { OnOk result (Exchanges S.received S.sent S.course A.is_past A.is_settled A.kept A.busy self.new.moment self.old.answers self.new.answers
            self.old.clients.items self.new.clients.items) }
        ensures err { OnErr result (Leaves S.received S.sent S.course A.is_past A.is_left A.kept (IsFedAmong self.new.moment (map connection
            self.old.clients.items)) self.old.answers self.new.answers self.old.clients.items self.new.clients.items) }
        ensures same { map connection self.new.clients.items ≡ map connection self.old.clients.items }
        ensures heard { AreHeard self.new.moment self.old.clients.items self.new.clients.items }
        ensures reads { ReadsClock M.gives self.old.clock self.new.clock self.old.moment self.new.moment }
        ensures device { self.new.device ≡ self.old.device }
        ensures accepted { self.new.accepted ≡ self.old.accepted }
        ensures limit { self.new.limit ≡ self.old.limit }
        ensures timeout { self.new.timeout ≡ self.old.timeout }
        ensures node { self.new.node ≡ self.old.node }
        ensures worker { self.new.worker ≡ self.old.worker }
        ensures looks { LooksSoon self.old.until self.new.until (self.new.signs.is_all ≡ true) }
        ensures sent { OnOk result (self.new.signs.is_all ≡ true → self.new.signs.is_busy ≡ false
            → IsDistinct same_connection (map connection self.new.clients.items) → All (IsSentOrBroken (A.kept self.new.answers)) self.new.clients.items) }
    {
        self.moment = moment_now(&mut self.clock, self.moment);
        self.until = self.signs.begin(&self.device, &self.clients, self.until);
        exchange_each(
            &mut self.answers,
            &mut self.clients,
            self.moment,
            self.limit,
            &mut self.buffer,
            &mut self.signs,
        )?;
        Ok(())
    }

    /// Exchanges bytes with each client that is looked at, at the moment that the clock gives, which is asked once: reads once for each and feeds
    /// what came, has all work done, and writes for each what is kept for it, until all is written, its stream takes nothing or fails, or as much
    /// was taken as may be in a visit: an eighth of `limit`, and 1,048,576 bytes where that is more. Looked at are those that are new, those of
    /// which the device tells that they are ready, and what answers that its work changed them, and those that weren't read or written to the end;
    /// and all of them in the first exchange, in one of 1,024, and behind 16 waits that nothing ended. Beside the work it takes a few steps, at most
    /// one read, and as many writes as the stream takes for each that is looked at, each linear in its bytes, of which at most 65,536 are read; the
    /// others cost nothing but the depth of a map.
    ///
    /// # Errors
    ///
    /// `Memory` where memory runs out: nothing is answered any more then.
    pub fn exchange(&mut self) -> Result<(), Memory>
        ensures ok { OnOk result (Exchanges S.received S.sent S.course A.is_past A.is_settled A.kept A.busy self.new.moment self.old.answers self.new.answers
            self.old.clients.items self.new.clients.items) }
        ensures err { OnErr result (Leaves S.received S.sent S.course A.is_past A.is_left A.kept (IsFedAmong self.new.moment (map connection
            self.old.clients.items)) self.old.answers self.new.answers self.old.clients.items self.new.clients.items) }
        ensures same { map connection self.new.clients.items ≡ map connection self.old.clients.items }
        ensures heard { AreHeard self.new.moment self.old.clients.items self.new.clients.items }
        ensures reads { ReadsClock M.gives self.old.clock self.new.clock self.old.moment self.new.moment }
        ensures device { self.new.device ≡ self.old.device }
        ensures accepted { self.new.accepted ≡ self.old.accepted }
        ensures limit { self.new.limit ≡ self.old.limit }
        ensures timeout { self.new.timeout ≡ self.old.timeout }
        ensures node { self.new.node ≡ self.old.node }
        ensures worker { self.new.worker ≡ self.old.worker }
        ensures until { LooksSoon self.old.until self.new.until (Unit {0}) }
    {
        self.exchange_listed()?;
        Ok(())
    }

    /// Takes a turn: accepts at most 64 of the connections that wait, exchanges bytes with the clients that are looked at, closes those of them that
    /// are over, and waits where nothing more can be done at once. A client is over where its stream failed or more than `limit` bytes wait for
    /// it, and, once all was written, where its input has ended, or it takes no more bytes, or, unless `timeout` is 0, it has been silent for so many
    /// milliseconds up to the moment of this turn: no byte of it came or was taken by its stream, and no messages may come to it. In a turn in which
    /// nothing is read, since what answers is busy, a silent one stays. Beside the exchange a turn takes a few steps for each client that is looked at.
    ///
    /// # Errors
    ///
    /// `Memory` where memory runs out: nothing is answered any more then. `Device` where the device can't wait any more: what was done stands.
    pub fn turn(&mut self) -> Result<(), Ended>
        ensures ok { (first : M) (setup : Setup) → IsServing S.received S.sent S.course M.gives A.is_past A.kept D.parted first setup self.old
            → OnOk result (IsServing S.received S.sent S.course M.gives A.is_past A.kept D.parted first setup self.new) }
        ensures err { (first : M) (setup : Setup) → IsServing S.received S.sent S.course M.gives A.is_past A.kept D.parted first setup self.old
            → IfErr result (λ ended. ByEnding ended (IsServing S.received S.sent S.course M.gives A.is_past A.kept D.parted first setup self.new)
            (RanOut S.received S.sent M.gives A.is_left D.parted first setup self.new)) }
        ensures limit { self.new.limit ≡ self.old.limit }
        ensures timeout { self.new.timeout ≡ self.old.timeout }
        ensures node { self.new.node ≡ self.old.node }
        ensures worker { self.new.worker ≡ self.old.worker }
        ensures turned { OnOk result (Turns S.received S.sent S.course A.is_past A.is_settled A.kept A.stands A.busy A.is_full A.is_placed A.is_gone D.parted D.waits M.gives true
            self.old self.new) }
        ensures ended { IfErr result (λ ended. ByCause ended ⊥ (BreaksOff S.received S.sent S.course A.is_past A.is_left A.is_settled A.kept A.busy A.is_full A.is_placed D.parted M.gives self.old self.new)
            (Turns S.received S.sent S.course A.is_past A.is_settled A.kept A.stands A.busy A.is_full A.is_placed A.is_gone D.parted D.waits M.gives false self.old self.new)) }
    {
        self.signs.is_busy = false;
        accept_each(
            &mut self.answers,
            &mut self.device,
            &mut self.clients,
            &mut self.accepted,
            &mut self.signs,
            self.moment,
        )?;
        self.exchange_listed()?;
        let_go_listed(
            &mut self.answers,
            &mut self.device,
            &mut self.clients,
            LeavingBounds {
                limit: self.limit,
                timeout: self.timeout,
                now: self.moment,
            },
            &mut self.signs,
        )?;
        self.answers.pass_on();
        let is_busy = self.signs.is_busy | self.answers.is_busy();
        if !self.device.wait(is_busy) {
            return Err(Ended::Device);
        }
        self.signs.visits.waited(&self.device, is_busy);
        Ok(())
    }

    /// What answers, the device, the clock, and the clients that are left.
    pub fn into_parts(self) -> (A, D, M, Vec<Client<S>>)
        ensures { result ≡ (self.answers, self.device, self.clock, self.clients) }
    {
        let Service {
            answers,
            device,
            clock,
            clients,
            ..
        } = self;
        (answers, device, clock, clients)
    }

    // Takes a turn, and ends once every node is down and no client is left, or as many turns were taken since as may be.
    fn go_on(&mut self, left: &mut u32) -> Result<(), Ended>
        ensures ok { (first : M) (setup : Setup) → IsServing S.received S.sent S.course M.gives A.is_past A.kept D.parted first setup self.old
            → OnOk result (IsServing S.received S.sent S.course M.gives A.is_past A.kept D.parted first setup self.new) }
        ensures err { (first : M) (setup : Setup) → IsServing S.received S.sent S.course M.gives A.is_past A.kept D.parted first setup self.old
            → IfErr result (λ ended. ByEnding ended (IsServing S.received S.sent S.course M.gives A.is_past A.kept D.parted first setup self.new)
            (RanOut S.received S.sent M.gives A.is_left D.parted first setup self.new)) }
        ensures turned { OnOk result (Turns S.received S.sent S.course A.is_past A.is_settled A.kept A.stands A.busy A.is_full A.is_placed A.is_gone D.parted D.waits M.gives true
            self.old self.new) }
        ensures goes_on { OnOk result (GoesOn A.falls left.old left.new self.new) }
        ensures ended { (count : ℕ) → most_turns_down ≤ count + left.old → IfErr result (λ ended. ByCause ended ⊥
            (BreaksOff S.received S.sent S.course A.is_past A.is_left A.is_settled A.kept A.busy A.is_full A.is_placed D.parted M.gives self.old self.new
            ⊎ (Turns S.received S.sent S.course A.is_past A.is_settled A.kept A.stands A.busy A.is_full A.is_placed A.is_gone D.parted D.waits M.gives true self.old self.new
            × IsDone A.falls count self.new))
            (Turns S.received S.sent S.course A.is_past A.is_settled A.kept A.stands A.busy A.is_full A.is_placed A.is_gone D.parted D.waits M.gives false self.old self.new)) }
    {
        self.turn()?;
        self.answers.leaves();
        if !self.answers.is_down() {
            return Ok(());
        }
        if self.clients.is_empty() || *left == 0 {
            return Err(Ended::Down);
        }
        *left -= 1;
        Ok(())
    }

    /// Takes turns until the gate, which is asked before each, stops it, memory runs out, or the device can't wait any more. Once every node is
    /// down it goes on until no client is left, at most for 1,000 turns, and ends as where memory runs out.
    pub fn serve<G: Gate>(&mut self, gate: &G) -> Ended
        ensures turns { TakesTurns (G.says gate.now self.old.node self.old.worker) (IsGoing A.falls)
            (Turns S.received S.sent S.course A.is_past A.is_settled A.kept A.stands A.busy A.is_full A.is_placed A.is_gone D.parted D.waits M.gives)
            (BreaksOff S.received S.sent S.course A.is_past A.is_left A.is_settled A.kept A.busy A.is_full A.is_placed D.parted M.gives) (IsDone A.falls) result self.old self.new }
        ensures serving { (first : M) (setup : Setup) → IsServing S.received S.sent S.course M.gives A.is_past A.kept D.parted first setup self.old
            → ByEnding result (IsServing S.received S.sent S.course M.gives A.is_past A.kept D.parted first setup self.new)
            (RanOut S.received S.sent M.gives A.is_left D.parted first setup self.new) }
    {
        let node = self.node;
        let worker = self.worker;
        let mut turn = 0;
        let mut left = LAST_TURNS;
        for asked in 0..u64::MAX {
            match gate.turn(node, worker, turn) {
                Go::Stop => return Ended::Stopped,
                Go::Hold => {
                    thread::yield_now();
                    continue;
                }
                Go::On => {}
            }
            if let Err(ended) = self.go_on(&mut left) {
                return ended;
            }
            turn += 1;
        }
        Ended::Stopped
    }
}
