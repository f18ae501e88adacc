// A script that is played: each line is taken by a server of several nodes, and what comes of it is printed.
ghost use Rattle.std.specs.Prelude.{◌≡◌, ◌↔◌, ◌++◌, [], length, map, IfOk, OnOk, Err, None};
ghost use Rattle.nr_world.specs.Seen.{handed_seen};
ghost use Rattle.nr_script.specs.declared.player.PlayError.TheVariants as errors;
ghost use Rattle.nr_script.specs.Receivers.{emptied, received_line, received_lines, handed_lines};
ghost use Rattle.nr_script.specs.Acts.{Setup as AsksSetup, asked_by, collected_line, outcome_line, opened_by, HasCollected, HasSettled, IsDone};
ghost use Rattle.nr_script.specs.Playing.{IsSetUp, SaysNone, StandsAs, IsPlayed, IsBad, IsOutOfPlace, begun};

use crate::line::{Line, LineError, read_line};
use crate::opened::Opened;
use crate::written::{write_done, write_handed, write_idle, write_ok, write_opened, write_settled};
use nr_blob::Memory;
use nr_entry::Setup;
use nr_model::reason::Reason;
use nr_world::{HandedBytes, StepOutcome, World};
use std::alloc::Global;
use std::hash::RandomState;
use std::marker::Model;

/// How many connections of a node are open at most.
const CONNECTIONS: usize = 256;

/// Why a line of a script was not taken.
#[derive(Clone, Copy, Debug, PartialEq, Eq)]
pub enum PlayError {
    /// It says no step, or none that can be taken there: the first step sets the server up, and no other does.
    BadStep,
    /// There was no memory left.
    Memory,
}

impl From<Memory> for PlayError {
    ghost use Rattle.std.specs.Prelude.{◌≡◌};
    ghost use Rattle.nr_script.specs.declared.player.PlayError.TheVariants as errors;

    ghost from_gives = { λ _ error. error ≡ errors.Memory };

    fn from(_: Memory) -> PlayError {
        PlayError::Memory
    }
}

impl From<LineError> for PlayError {
    ghost use Rattle.std.specs.Prelude.{◌≡◌};
    ghost use Rattle.nr_script.specs.Endings.{ended_by};

    ghost from_gives = { λ line error. error ≡ ended_by line };

    fn from(error: LineError) -> PlayError {
        match error {
            LineError::BadStep => PlayError::BadStep,
            LineError::Memory => PlayError::Memory,
        }
    }
}

/// A script that is played, line by line.
#[derive(Drop)]
pub struct Player {
    alloc: Global,
    keys: RandomState,
    world: Option<World>,
    opened: Opened,
}

impl Model for Player {
    ghost use Rattle.nr_script.specs.Playing.{Played, coded_played};

    ghost Value = { Played };

    ghost coded = { coded_played };

    ghost view = { λ p. record { world = p.world; opened = p.opened } };
}

impl Player {
    /// A script that begins. Strangers choose the keys of the servers, so their hashers take a seed of their own.
    pub fn new(alloc: Global, keys: RandomState) -> Player
        ensures { result ≡ begun }
    {
        Player {
            alloc,
            keys,
            world: None,
            opened: Opened::new(alloc),
        }
    }

    /// Takes a line, which is given without its LF, and appends what comes of it.
    ///
    /// # Errors
    ///
    /// `BadStep` where it says no step, or none that can be taken there.
    #[tactic(auto, using(crate::proofs::Played::says_nothing, crate::proofs::Played::says_step))]
    pub fn play(&mut self, line: &[u8], out: &mut Vec<u8>) -> Result<(), PlayError>
        ensures played { OnOk result (IsPlayed line.now self.old self.new out.old.items out.new.items) }
        ensures bad { result ≡ Err errors.BadStep → IsBad line.now self.old }
    {
        match read_line(self.alloc, line)? {
            None => Ok(()),
            Some(step) => self.take(&step, out),
        }
    }

    fn take(&mut self, step: &Line, out: &mut Vec<u8>) -> Result<(), PlayError>
        ensures stands { OnOk result (StandsAs step.now self.old.world self.old.opened self.new out.old.items out.new.items) }
        ensures bad { result ≡ Err errors.BadStep → IsOutOfPlace step.now self.old.world self.old.opened }
    {
        match &mut self.world {
            None => {
                self.world = Some(set_up(self.alloc, self.keys, step)?);
                write_ok(out)?;
                Ok(())
            }
            Some(world) => act(self.alloc, world, &mut self.opened, step, out),
        }
    }
}

// The server that the first step sets up.
fn set_up(alloc: Global, keys: RandomState, step: &Line) -> Result<World, PlayError>
    ensures ok { IfOk result (IsSetUp step.now) }
    ensures bad { (result ≡ Err errors.BadStep) ↔ SaysNone step.now }
{
    let Line::Setup {
        nodes,
        places,
        workers,
        queue,
    } = step
    else {
        return Err(PlayError::BadStep);
    };
    let setup = Setup::new(
        *nodes as usize,
        *places as usize,
        *workers as usize,
        CONNECTIONS,
        *queue as usize,
    );
    match setup {
        None => Err(PlayError::BadStep),
        Some(setup) => Ok(World::new(alloc, keys, setup)?),
    }
}

// A step of a server that stands.
fn act(
    alloc: Global,
    world: &mut World,
    opened: &mut Opened,
    step: &Line,
    out: &mut Vec<u8>,
) -> Result<(), PlayError>
    ensures acted { OnOk result (IsDone (asked_by opened.old step.now) world.old world.new opened.old opened.new out.old.items out.new.items) }
    ensures bad { result ≡ Err errors.BadStep → asked_by opened.old step.now ≡ AsksSetup }
    ensures setup { world.new.setup ≡ world.old.setup }
{
    match step {
        Line::Setup { .. } => Err(PlayError::BadStep),
        Line::Settle => {
            settle(world, opened, out)?;
            Ok(())
        }
        Line::Collect { node, worker } => {
            collect(world, opened, *node as usize, *worker as usize, out)?;
            Ok(())
        }
        Line::Open { node, worker } => {
            let outcome = world.open(*node as usize, *worker as usize)?;
            show(alloc, opened, outcome, out)?;
            Ok(())
        }
        Line::Feed {
            connection,
            moment,
            bytes,
        } => {
            let Some(conn) = opened.conn_of(*connection) else {
                show(alloc, opened, StepOutcome::Idle(Reason::NoSuch), out)?;
                return Ok(());
            };
            let outcome = world.feed(conn, *moment, bytes.bytes())?;
            show(alloc, opened, outcome, out)?;
            Ok(())
        }
        Line::Close { connection, moment } => {
            let Some(conn) = opened.conn_of(*connection) else {
                show(alloc, opened, StepOutcome::Idle(Reason::NoSuch), out)?;
                return Ok(());
            };
            let outcome = world.close(conn, *moment)?;
            show(alloc, opened, outcome, out)?;
            Ok(())
        }
        Line::Fill { node, to } => {
            let outcome = world.fill(*node as usize, *to as usize)?;
            show(alloc, opened, outcome, out)?;
            Ok(())
        }
        Line::Revive { node, donor } => {
            let outcome = world.revive(*node as usize, *donor as usize)?;
            show(alloc, opened, outcome, out)?;
            Ok(())
        }
        Line::Post { node, worker } => {
            let outcome = world.post(*node as usize, *worker as usize)?;
            show(alloc, opened, outcome, out)?;
            Ok(())
        }
        Line::Lift { node, worker } => {
            let outcome = world.lift(*node as usize, *worker as usize)?;
            show(alloc, opened, outcome, out)?;
            Ok(())
        }
        Line::Answer { node, worker } => {
            let outcome = world.answer(*node as usize, *worker as usize)?;
            show(alloc, opened, outcome, out)?;
            Ok(())
        }
        Line::Reserve { node } => {
            let outcome = world.reserve(*node as usize)?;
            show(alloc, opened, outcome, out)?;
            Ok(())
        }
        Line::Fetch { node } => {
            let outcome = world.fetch(*node as usize)?;
            show(alloc, opened, outcome, out)?;
            Ok(())
        }
        Line::Apply { node } => {
            let outcome = world.apply(*node as usize)?;
            show(alloc, opened, outcome, out)?;
            Ok(())
        }
        Line::Look { node } => {
            let outcome = world.look(*node as usize)?;
            show(alloc, opened, outcome, out)?;
            Ok(())
        }
        Line::Refuse { node } => {
            let outcome = world.refuse(*node as usize)?;
            show(alloc, opened, outcome, out)?;
            Ok(())
        }
    }
}

// Prints an outcome. A connection that was opened gets the next number.
fn show(
    alloc: Global,
    opened: &mut Opened,
    outcome: StepOutcome,
    out: &mut Vec<u8>,
) -> Result<(), Memory>
    ensures opened { OnOk result (opened.new ≡ opened_by outcome opened.old) }
    ensures out { OnOk result (out.new.items ≡ out.old.items ++ outcome_line (length opened.old) outcome) }
{
    match outcome {
        StepOutcome::Opened(conn) => {
            let number = opened.add(alloc, conn)?;
            write_opened(number, out)?;
        }
        StepOutcome::Done => write_done(out)?,
        StepOutcome::Idle(reason) => write_idle(reason, out)?,
    }
    Ok(())
}

// A worker of a node collects, and what it is handed is printed.
fn collect(
    world: &mut World,
    opened: &mut Opened,
    node: usize,
    worker: usize,
    out: &mut Vec<u8>,
) -> Result<(), Memory>
    ensures collected { OnOk result (HasCollected node worker world.old world.new opened.old opened.new out.old.items out.new.items) }
    ensures setup { world.new.setup ≡ world.old.setup }
{
    let happened = world.collect(node, worker)?;
    write_collected(happened.outcome, out)?;
    show_handed(opened, &happened.handed, out)?;
    Ok(())
}

fn write_collected(outcome: StepOutcome, out: &mut Vec<u8>) -> Result<(), Memory>
    ensures { OnOk result (out.new.items ≡ out.old.items ++ collected_line outcome) }
{
    match outcome {
        StepOutcome::Idle(reason) => write_idle(reason, out)?,
        StepOutcome::Done | StepOutcome::Opened(_) => write_done(out)?,
    }
    Ok(())
}

// All nodes come to rest, and what was handed out by that is printed.
fn settle(world: &mut World, opened: &mut Opened, out: &mut Vec<u8>) -> Result<(), Memory>
    ensures settled { OnOk result (HasSettled world.old world.new opened.old opened.new out.old.items out.new.items) }
    ensures setup { world.new.setup ≡ world.old.setup }
{
    let handed = world.settle()?;
    write_settled(out)?;
    show_handed(opened, &handed, out)?;
    Ok(())
}

// Prints what was handed out: a line for each connection that was handed bytes, with all of them.
fn show_handed(opened: &mut Opened, handed: &[HandedBytes], out: &mut Vec<u8>) -> Result<(), Memory>
    ensures taken { OnOk result (opened.new ≡ map emptied opened.old) }
    ensures printed { OnOk result (out.new.items ≡ out.old.items ++ handed_lines (map handed_seen handed.now) opened.old) }
{
    opened.receive(handed)?;
    show_received(opened, out)?;
    Ok(())
}

// A line for each connection that was handed bytes, with all of them.
fn show_received(opened: &mut Opened, out: &mut Vec<u8>) -> Result<(), Memory>
    ensures taken { OnOk result (opened.new ≡ map emptied opened.old) }
    ensures printed { OnOk result (out.new.items ≡ out.old.items ++ received_lines 0 opened.old) }
{
    for number in 0..opened.count() {
        let received = opened.take_received(number);
        write_received(number as u64, &received, out)?;
    }
    Ok(())
}

fn write_received(number: u64, bytes: &[u8], out: &mut Vec<u8>) -> Result<(), Memory>
    ensures { OnOk result (out.new.items ≡ out.old.items ++ received_line number bytes.now) }
{
    if bytes.is_empty() {
        return Ok(());
    }
    write_handed(number, bytes, out)?;
    Ok(())
}
