// Connections that come and go at a node behind its lock, and what they leave.
ghost use Rattle.std.specs.Prelude.{◌≡◌, length};
ghost use Rattle.nr_oplog.specs.Opening.{name_of, nodes_of, places_of};
ghost use Rattle.nr_combiner.specs.Opened.{AreNamed, AreOfWorkers};

use crate::nodes::serve_batch;
use crate::{as_io, no_memory};
use nr_combiner::{Lifts, OpenedSlots, ServerName, open_slots};
use nr_entry::Setup;
use nr_oplog::OpenedLog;
use nr_test_parts::{HeldError, Station, stations};
use std::alloc::Global;
use std::hash::RandomState;
use std::io;
use std::marker::Brand;
use std::rt::Runtime;
use std::sync::Wait;

/// How many places the log has.
const PLACES: usize = 64;

/// How many bytes wait for a connection at most.
const LIMIT: usize = 1 << 20;

// A connection comes, asks once, says that it ends, and goes. How many bytes it got.
fn come_and_go<B: ServerName, R: Wait>(
    rt: &R,
    station: &mut Station<B>,
) -> Result<usize, HeldError> {
    let mut client = station.open(rt)?;
    let got = serve_batch(rt, station, Lifts::All, &mut client, b"PING\r\nQUIT\r\n")?;
    station.close(rt, client.conn());
    Ok(got)
}

// So many, one after the other.
fn come_and_go_all<B: ServerName, R: Wait>(
    rt: &R,
    station: &mut Station<B>,
    count: u32,
) -> Result<usize, HeldError> {
    let mut got = 0usize;
    for _ in 0..count {
        got = got.saturating_add(come_and_go(rt, station)?);
    }
    Ok(got)
}

// The same at the worker of a new node, which then waits for a line.
fn hold_named<B: ServerName, R: Runtime + Wait>(
    host: &HostRuntime,
    rt: &R,
    keys: RandomState,
    opened: OpenedLog,
    slots: Vec<OpenedSlots>,
    setup: Setup,
    count: u32,
) -> io::Result<()>
    requires name { name_of opened ≡ B.log }
    requires shape { (nodes_of opened ≡ B.nodes) × (places_of opened ≡ B.places) × (setup.nodes ≡ B.nodes) }
    requires slots { (length slots.items ≡ B.nodes) × AreNamed B.slots slots.items }
    requires workers { AreOfWorkers setup.workers slots.items }
{
    let alloc = host.alloc();
    let mut all = stations::<B>(alloc, keys, opened, slots, setup).map_err(no_memory)?;
    let Some(station) = all.get_mut(0) else {
        return Err(as_io(HeldError::Invalid));
    };
    let got = come_and_go_all(rt, station, count).map_err(as_io)?;
    println!(rt; "connections: {count}, bytes of replies: {got}")?;
    let mut line = String::new(alloc);
    host.stdin().read_line(&mut line)?;
    Ok(())
}

/// So many connections come and go at a node, one after the other, and then it waits for a line, so that what they left can be read.
pub(crate) fn hold<R: Runtime + Wait>(
    host: &HostRuntime,
    rt: &R,
    keys: RandomState,
    count: u32,
) -> io::Result<()> {
    let alloc = host.alloc();
    let Some(setup) = Setup::new(1, PLACES, 1, 1, LIMIT) else {
        return Err(as_io(HeldError::Invalid));
    };
    let opened = OpenedLog::open(alloc, setup.nodes(), setup.places()).map_err(|error| as_io(
        error.into(),
    ))?;
    let slots = open_slots(alloc, setup.nodes(), setup.workers()).map_err(|error| as_io(
        error.into(),
    ))?;
    hold_named::<Brand, R>(host, rt, keys, opened, slots, setup, count)
}
