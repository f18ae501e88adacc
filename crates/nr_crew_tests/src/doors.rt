// Connections on their way from the socket that listens to the pollers of their lanes, and the bells that end waits there.
use crate::asserted::holds;
use nr_service::{Accepts, Poller, Received, Rings, Stream};
use nr_sockets::{Inboxes, Listener, Listening, Socket, SocketPoller, Terms, open_lanes};
use std::io::{Read, Write};
use std::net::TcpStream;
use std::process::Abort;
use std::rt::Clock;
use std::sync::Wait;
use std::sync::atomic::{AtomicBool, Ordering};
use std::test::Fail;
use std::thread::Threads;
use std::time::{Duration, Instant};
use std::{io, thread};

// Takes the next connection. Whether one came.
fn takes<R: Clock + Wait>(listener: &mut Listener<'_, R>) -> bool {
    for _ in 0..1_000 {
        if listener.accept() {
            return true;
        }
        if !listener.wait() {
            return false;
        }
    }
    false
}

// The first byte of a connection.
fn first_byte<R: Clock + Wait>(door: &mut SocketPoller<'_, R>, socket: &mut Socket) -> Option<u8> {
    for _ in 0..1_000 {
        let mut buffer = [0u8];
        match socket.receive(&mut buffer) {
            Received::Bytes(_) => return buffer.first().copied(),
            Received::Nothing => {
                let _waited = door.wait(false);
            }
            Received::End | Received::Failed => return None,
        }
    }
    None
}

// Each fourth connection came to this lane, in order, ten in all.
fn come_in_order<R: Clock + Wait + Abort>(rt: &R, door: &mut SocketPoller<'_, R>, lane: usize) {
    for number in 0..10usize {
        let came = door.accept().ok().expect(rt, "memory");
        let mut socket = came.expect(rt, "a connection");
        let byte = first_byte(door, &mut socket).expect(rt, "a byte");
        let wanted = number.saturating_mul(4).saturating_add(lane);
        holds(rt, "they come in order", usize::from(byte) == wanted);
        door.abandon(socket);
    }
    holds(rt, "no more come", matches!(door.accept(), Ok(None)));
}

// Rings the bell of a lane each two milliseconds, until it is done.
fn rings(clock: &impl Clock, entrance: &Inboxes, lane: usize, is_done: &AtomicBool) {
    for _ in 0..10_000 {
        if is_done.load(Ordering::SeqCst) {
            return;
        }
        entrance.ring(lane);
        thread::sleep(clock, Duration::from_millis(2));
    }
}

// How many of at most 400 waits are short, counted to ten.
fn short_waits<R: Clock + Wait>(rt: &R, door: &mut SocketPoller<'_, R>) -> io::Result<u32> {
    let mut count = 0u32;
    for _ in 0..400 {
        let since = Instant::now(rt)?;
        let has_waited = door.wait(false);
        let is_short = Instant::now(rt)?.duration_since(since).as_millis() < 6;
        count = count.saturating_add(u32::from(has_waited & is_short));
        if count == 10 {
            break;
        }
    }
    Ok(count)
}

// Who waits at a poller while its bell is rung on another thread waits a short time.
fn ends_waits<R: Clock + Threads + Wait + Sync>(
    rt: &R,
    entrance: &Inboxes,
    door: &mut SocketPoller<'_, R>,
    lane: usize,
) -> bool {
    let is_done = AtomicBool::new(false);
    let (count, ()) = thread::join(
        rt,
        || {
            let count = short_waits(rt, door).ok();
            is_done.store(true, Ordering::SeqCst);
            count
        },
        || rings(rt, entrance, lane, &is_done),
    );
    count == Some(10)
}

/// What one gets that is turned away, and then its end.
const TURNED_AWAY: &[u8] = b"-ERR max number of clients reached\r\n";

// Of 40 connections each fourth is turned away, though it has sent something, and hears why. The others come to their lanes, each once, in the order in which they were dealt.
#[test]
fn doors(rt: HostRuntime) -> Result<(), Fail> {
    let free = String::from_str(rt.alloc(), "127.0.0.1:0")?;
    let listening = Listening::listen(rt.alloc(), &rt, &[free])
        .ok()
        .expect(&rt, "it listens");
    let named = listening.named.first().expect(&rt, "an address");
    let named = String::from_str(rt.alloc(), named.as_str())?;
    let (entrance, lookouts) = open_lanes(rt.alloc(), &rt, 3)?;
    let terms = Terms {
        tcp_keepalive: 300,
        input: None,
        shutdown_seconds: 0,
    };
    let mut listener = Listener::new(rt.alloc(), listening, &rt, &entrance, terms);
    let mut clients = Vec::new(rt.alloc());
    for number in 0..40u8 {
        let mut client = TcpStream::connect(&rt, named.as_str())?;
        client.write_all(&[number])?;
        holds(&rt, "one comes", takes(&mut listener));
        if number % 4 == 3 {
            listener.turn_away();
            let mut heard = Vec::new(rt.alloc());
            client.read_to_end(&mut heard)?;
            holds(&rt, "it hears why", heard.as_slice() == TURNED_AWAY);
        } else {
            listener.deal(usize::from(number % 4));
        }
        clients.push(client).ok().expect(&rt, "memory");
    }
    for lookout in lookouts {
        let lane = lookout.lane;
        let mut door = SocketPoller::new(rt.alloc(), &rt, &entrance, lookout)
            .ok()
            .expect(&rt, "the lane is there");
        come_in_order(&rt, &mut door, lane);
        holds(
            &rt,
            "a bell ends a wait",
            ends_waits(&rt, &entrance, &mut door, lane),
        );
    }
    Ok(())
}
