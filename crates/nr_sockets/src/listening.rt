// The sockets that listen, and what tells of the connections that come there.
ghost use Rattle.std.specs.Prelude.{◌≡◌, ◌<◌, ◌+◌, length, IfOk, IfErr, OnOk, OnErr, if◌then◌else◌, nat_lt};
ghost use Rattle.nr_sockets.specs.Addresses.{AreSaid, IsNamed};
ghost use Rattle.nr_sockets.specs.Unheard.{IsUnheardAt};

use crate::ear::Ear;
use crate::peer::Peer;
use crate::waiting::longest_wait;
use mio::{Events, Poll, Registry, Token};
use std::alloc::Global;
use std::fs::Files;
use std::io;
use std::net::Net;
use std::time::Duration;

/// The token of an input whose end ends the server. Those of sockets that listen are their places.
pub(crate) const INPUT: Token = Token(usize::MAX);

/// Of how many changes the system tells at once.
const MOST_EVENTS: usize = 64;

/// An address at which nobody can listen.
#[derive(Debug, Drop)]
pub struct Unheard {
    /// Its place among the addresses, from 0 on: at so many, those before it, it was listened already.
    pub place: usize,
    /// What the system says of it.
    pub error: io::Error,
}

/// Why nobody listens.
#[derive(Debug, Drop)]
pub enum ListenError {
    /// The system has nothing by which it tells of connections: what it says of that.
    Poll(io::Error),
    /// It can't be listened at one of the addresses.
    Address(Unheard),
}

/// Sockets that listen.
#[derive(Drop)]
pub struct Listening {
    /// Where they listen, in the order of the addresses: each as it was spelled, but with the port that the system gave where it ends in `:0`.
    pub named: Vec<String>,
    poll: Poll,
    events: Events<Global>,
    ears: Vec<Ear>,
    // Which of them is asked next for a connection.
    turn: usize,
}

// What came of a wait: whether a connection can still come, and whether the system told of the input.
#[derive(Drop)]
pub(crate) struct Waited {
    pub(crate) may_come: bool,
    pub(crate) is_told: bool,
}

fn open_poll<N: Net>(alloc: Global, net: &N) -> io::Result<(Poll, Events<Global>)> {
    let poll = Poll::new(net)?;
    let events = Events::with_capacity(alloc, MOST_EVENTS)?;
    Ok((poll, events))
}

// Whose turn it is behind this one, of so many.
fn following(turn: usize, count: usize) -> usize
    ensures { result ≡ (if nat_lt (turn + 1) count then turn + 1 else 0) }
{
    match turn.checked_add(1) {
        Some(next) if next < count => next,
        _ => 0,
    }
}

// Listens at each of the addresses, and says where that is. Where it can't be listened at one, those before it listen.
fn open_each<R: Files + Net>(
    alloc: Global,
    rt: &R,
    registry: &Registry,
    addresses: &[String],
    ears: &mut Vec<Ear>,
) -> Result<Vec<String>, Unheard>
    ensures named { IfOk result (λ named. AreSaid addresses.now named.items) }
    ensures opened { IfOk result (λ _. length ears.new.items ≡ length ears.old.items + length addresses.now) }
    ensures place { IfErr result (λ unheard. unheard.place < length addresses.now) }
    ensures before { IfErr result (λ unheard. length ears.new.items ≡ length ears.old.items + unheard.place) }
{
    let mut named = Vec::new(alloc);
    for (place, address) in addresses.iter().enumerate() {
        let token = Token(place);
        match open_one(
            alloc,
            rt,
            registry,
            token,
            address.as_str(),
            ears,
            &mut named,
        ) {
            Ok(()) => {}
            Err(error) => return Err(Unheard { place, error }),
        }
    }
    Ok(named)
}

// Listens at one more address, and says where that is.
fn open_one<R: Files + Net>(
    alloc: Global,
    rt: &R,
    registry: &Registry,
    token: Token,
    address: &str,
    ears: &mut Vec<Ear>,
    named: &mut Vec<String>,
) -> io::Result<()>
    ensures ok { OnOk result (IsNamed address.now named.old.items named.new.items) }
    ensures opened { OnOk result (length ears.new.items ≡ length ears.old.items + 1) }
    ensures err { OnErr result (ears.new.items ≡ ears.old.items) }
{
    let (ear, text) = Ear::open(alloc, rt, registry, token, address)?;
    named.push(text)?;
    ears.push(ear)?;
    Ok(())
}

// Removes the files of those that are Unix sockets.
fn leave_each<F: Files>(files: &F, ears: &[Ear]) {
    for ear in ears {
        ear.leave(files);
    }
}

// Takes a connection that waits, from one of these after the other, from the one on whose turn it is.
fn take_in_turn(ears: &mut [Ear], turn: &mut usize, short: &mut u64) -> Option<Peer> {
    let count = ears.len();
    for _ in 0..count {
        let place = *turn;
        *turn = following(place, count);
        let ear = ears.get_mut(place)?;
        let taken = ear.next(short);
        if taken.is_some() {
            return taken;
        }
    }
    None
}

// Notes what the system told of. Whether it told of the input.
fn note(events: &Events<Global>, ears: &mut [Ear]) -> bool {
    let mut is_told = false;
    for event in events {
        let Token(place) = event.token();
        is_told |= event.token() == INPUT;
        if let Some(ear) = ears.get_mut(place) {
            ear.hears();
        }
    }
    is_told
}

// Whether a connection can still come to one of them.
fn can_hear(ears: &[Ear]) -> bool {
    ears.iter().any(|ear| ear.can_hear())
}

impl Listening {
    /// Listens at each of these addresses: `unix:PATH` for a Unix socket, and else an address and a port, as `127.0.0.1:6379`. A Unix socket at which
    /// nobody listens any more is removed, and listened at.
    ///
    /// # Errors
    ///
    /// `Address` with the first at which it can't be listened, as with `AddrInUse` where somebody does, or where the path is that of a file that is no
    /// socket; `Poll` where the system has no descriptor for what tells of connections. With `OutOfMemory` each where memory is refused. None is
    /// listened at then.
    pub fn listen<R: Files + Net>(
        alloc: Global,
        rt: &R,
        addresses: &[String],
    ) -> Result<Listening, ListenError>
        ensures named { IfOk result (λ listening. AreSaid addresses.now listening.named.items) }
        ensures unheard { IfErr result (IsUnheardAt addresses.now) }
    {
        let (poll, events) = match open_poll(alloc, rt) {
            Ok(opened) => opened,
            Err(error) => return Err(ListenError::Poll(error)),
        };
        let mut ears = Vec::new(alloc);
        match open_each(alloc, rt, poll.registry(), addresses, &mut ears) {
            Ok(named) => Ok(Listening {
                named,
                poll,
                events,
                ears,
                turn: 0,
            }),
            Err(unheard) => {
                leave_each(rt, &ears);
                Err(ListenError::Address(unheard))
            }
        }
    }

    pub(crate) fn registry(&self) -> &Registry {
        self.poll.registry()
    }

    /// Takes the next connection that waits, from each that listens in turn. How many times the system was short of descriptors or of memory for one
    /// is counted.
    pub(crate) fn next(&mut self, short: &mut u64) -> Option<Peer> {
        take_in_turn(&mut self.ears, &mut self.turn, short)
    }

    /// Waits until a connection may wait to be taken, or an input to be read, and not at all where one may wait already.
    pub(crate) fn wait(&mut self, may_follow: bool) -> Waited {
        let longest = Duration::from_millis(longest_wait(may_follow));
        let waited = self.poll.poll(&mut self.events, Some(longest));
        let is_told = note(&self.events, &mut self.ears);
        Waited {
            may_come: waited.is_ok() && can_hear(&self.ears),
            is_told,
        }
    }

    /// Removes the files of the Unix sockets, as whoever ends in order does.
    pub fn leave<F: Files>(&self, files: &F) {
        leave_each(files, &self.ears);
    }
}
