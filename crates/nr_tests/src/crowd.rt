// The service over many streams in memory, of which its device tells it in one way or another: no clause says how soon anybody is served.
use nr_blob::Memory;
use nr_entry::Setup;
use nr_service::{Ended, MachineClock, Open, Poller, Ready, Received, Sent, Service, Stream};
use nr_world_service::WorldBackend;
use std::alloc::{AllocError, Global};
use std::cell::Cell;
use std::hash::RandomState;
use std::rc::Rc;
use std::test::Fail;

// Whether a stream can be read or written again since its device asked last.
type News = Rc<Cell<bool>>;

// Gives its input so many bytes a call, and takes its output so after a while. There is news of it where more comes behind a read that took all that was
// there, and where it can take more behind a call that took nothing.
#[derive(Drop)]
struct Talk {
    input: Vec<u8>,
    wanted: Vec<u8>,
    given: usize,
    piece: usize,
    // How many calls take nothing yet, and how much was given before one took anything.
    stalls: usize,
    given_before: usize,
    // How many bytes it takes up to a call that takes nothing, and how many of them are left.
    window: usize,
    takes: usize,
    is_silent: bool,
    // It ends only once it got all that it wants.
    waits: bool,
    output: Vec<u8>,
    // How many bytes a read took at most, of all and the last.
    most_read: usize,
    last_read: usize,
    // Once it came: where it stands in its device's list, and in which turn it came.
    place: usize,
    came_in: usize,
    news: Option<News>,
}

impl Talk {
    // It can be read or written again, where that is so.
    fn tell(&self, is_so: bool) {
        if is_so && let Some(news) = &self.news {
            news.set(true);
        }
    }

    fn is_answered(&self) -> bool {
        self.output.as_slice() == self.wanted.as_slice()
    }

    // Whether it gives something more, be it its end.
    fn goes_on(&self) -> bool {
        self.given < self.input.len() || !self.waits || self.is_answered()
    }
}

impl Stream for Talk {
    ghost use Rattle.std.specs.Prelude.{None};

    ghost received = { λ _. None };

    ghost sent = { λ _. None };

    fn place(&self) -> usize {
        self.place
    }

    fn receive(&mut self, buffer: &mut [u8]) -> Received {
        self.most_read = self.most_read.max(buffer.len());
        self.last_read = buffer.len();
        if self.is_silent {
            return Received::Nothing;
        }
        let ends = self.goes_on();
        let left = self.input.get(self.given..).unwrap_or(b"");
        let count = left.len().min(buffer.len()).min(self.piece);
        if left.is_empty() && ends {
            return Received::End;
        }
        if count == 0 {
            return Received::Nothing;
        }
        let is_all = count < buffer.len();
        buffer[..count].copy_from_slice(&left[..count]);
        self.given = self.given.saturating_add(count);
        self.tell(is_all & self.goes_on());
        Received::Bytes(count)
    }

    fn send(&mut self, bytes: &[u8]) -> Sent {
        if self.stalls > 0 {
            self.stalls -= 1;
            self.given_before = self.given;
            self.tell(true);
            return Sent::Nothing;
        }
        if self.takes == 0 {
            self.takes = self.window;
            self.tell(true);
            return Sent::Nothing;
        }
        let count = bytes.len().min(self.piece).min(self.takes);
        match self.output.extend_from_slice(&bytes[..count]) {
            Ok(()) if count > 0 => {
                self.takes = self.takes.saturating_sub(count);
                self.tell(self.waits & self.is_answered());
                Sent::Bytes(count)
            }
            _ => Sent::Nothing,
        }
    }
}

// So many that say the same, and what each of them is to be answered.
#[derive(Drop)]
struct Asked {
    count: usize,
    input: Vec<u8>,
    output: Vec<u8>,
    piece: usize,
    // The pieces of one may be longer than those of another, by fewer bytes than this.
    spread: usize,
    stalls: usize,
    window: usize,
    is_silent: bool,
    waits: bool,
}

// Adds the streams of these.
fn add_talks(alloc: Global, asked: &Asked, talks: &mut Vec<Talk>) -> Result<(), Memory> {
    for number in 0..asked.count {
        let input = asked.input.clone()?;
        let wanted = asked.output.clone()?;
        let talk = Talk {
            input,
            wanted,
            given: 0,
            piece: asked.piece.saturating_add(number % asked.spread.max(1)),
            stalls: asked.stalls,
            given_before: 0,
            window: asked.window,
            takes: asked.window,
            is_silent: asked.is_silent,
            waits: asked.waits,
            output: Vec::new(alloc),
            most_read: 0,
            last_read: 0,
            place: 0,
            came_in: 0,
            news: None,
        };
        talks.push(talk)?;
    }
    Ok(())
}

// How a device tells which streams may be ready.
#[derive(Clone, Copy, Debug, PartialEq, Eq)]
enum Tells {
    // Every one may be.
    Every,
    // Nothing of any.
    Nothing,
    // Of each of which there is news, once.
    News,
}

// Each goes once it was answered, and makes room for the next to come; those that are silent stay. It can't wait any more once all others went, or after
// so many turns.
#[derive(Drop)]
struct Crowd {
    tells: Tells,
    // The last one first.
    to_come: Vec<Talk>,
    // The places that nobody has, and of each whether there is news.
    free: Vec<usize>,
    news: Vec<News>,
    // Of which there was news at the end of the last turn.
    told: Vec<usize>,
    most_told: usize,
    turn: usize,
    came: usize,
    gone: usize,
    // How many are there that aren't silent.
    talking: usize,
    // How many were answered right, and for how many turns one was there at most.
    answered: usize,
    longest: usize,
    given_before: usize,
    most_read: usize,
    last_read: usize,
}

const MOST_TURNS: usize = 10_000;

// Lists those of which there is news, and forgets it.
fn hear(news: &[News], told: &mut Vec<usize>) -> Result<(), AllocError> {
    told.clear();
    for (place, news) in news.iter().enumerate() {
        if news.replace(false) {
            told.push(place)?;
        }
    }
    Ok(())
}

impl Crowd {
    // One with so many places, at which these come, in order.
    fn new(alloc: Global, tells: Tells, places: usize, parts: Vec<Asked>) -> Result<Crowd, Memory> {
        let mut to_come = Vec::new(alloc);
        for asked in &parts {
            add_talks(alloc, asked, &mut to_come)?;
        }
        to_come.reverse();
        let mut free = Vec::new(alloc);
        let mut news = Vec::new(alloc);
        for place in 0..places {
            let none = Rc::new(alloc, Cell::new(false))?;
            news.push(none)?;
            free.push(place)?;
        }
        Ok(Crowd {
            tells,
            to_come,
            free,
            news,
            told: Vec::new(alloc),
            most_told: 0,
            turn: 0,
            came: 0,
            gone: 0,
            talking: 0,
            answered: 0,
            longest: 0,
            given_before: 0,
            most_read: 0,
            last_read: 0,
        })
    }

    // One that came goes.
    fn part(&mut self, talk: &Talk) {
        self.gone = self.gone.saturating_add(1);
        if !talk.is_silent {
            self.talking = self.talking.saturating_sub(1);
        }
        let turns = self.turn.saturating_sub(talk.came_in);
        self.longest = self.longest.max(turns);
        let _ = self.free.push(talk.place);
    }
}

impl Poller<Talk> for Crowd {
    fn accept(&mut self) -> Result<Option<Talk>, Memory> {
        if self.free.is_empty() {
            return Ok(None);
        }
        let Some(mut talk) = self.to_come.pop() else {
            return Ok(None);
        };
        talk.place = self.free.pop().unwrap_or(usize::MAX);
        talk.came_in = self.turn;
        if let Some(news) = self.news.get(talk.place) {
            news.set(false);
            talk.news = Some(news.clone()?);
        }
        self.came = self.came.saturating_add(1);
        if !talk.is_silent {
            self.talking = self.talking.saturating_add(1);
        }
        Ok(Some(talk))
    }

    fn wait(&mut self, _: bool) -> bool {
        self.turn = self.turn.saturating_add(1);
        let heard = hear(&self.news, &mut self.told);
        self.most_told = self.most_told.max(self.told.len());
        heard.is_ok() && self.turn < MOST_TURNS && (self.talking > 0 || !self.to_come.is_empty())
    }

    fn ready(&self, place: usize) -> Ready {
        match self.tells {
            Tells::Every => Ready::Every,
            Tells::Nothing => Ready::NoMore,
            Tells::News => match self.told.get(place) {
                Some(place) => Ready::One(*place),
                None => Ready::NoMore,
            },
        }
    }

    fn finish(&mut self, talk: Talk) {
        self.part(&talk);
        self.given_before = talk.given_before;
        self.most_read = talk.most_read;
        self.last_read = talk.last_read;
        if talk.is_answered() {
            self.answered = self.answered.saturating_add(1);
        }
    }

    fn abandon(&mut self, talk: Talk) {
        self.part(&talk);
    }
}

// One of which a word was missed is looked at behind so many waits that nothing ended, or in one of 1,024 turns.
const TURNS_OF_A_MISS: usize = 16;

// What came of a crowd: how many were answered right, how many were neither given back nor are there, for how many turns one was there at most, and of how
// many there was news at once; and of the last of them how much it had given before it took anything, and how many bytes its reads took at most, all and
// the last.
#[derive(Clone, Copy, Drop)]
struct Came {
    answered: usize,
    lost: usize,
    longest: usize,
    most_told: usize,
    given_before: usize,
    most_read: usize,
    last_read: usize,
}

impl Came {
    // Whether so many were answered right and none was lost.
    fn is_whole(self, count: usize) -> bool {
        self.answered == count && self.lost == 0
    }

    // Whether besides each was there for fewer turns than it takes to find one of which a word was missed.
    fn is_prompt(self, count: usize) -> bool {
        self.is_whole(count) && self.longest < TURNS_OF_A_MISS
    }
}

// How a crowd is served: how many of it are at each of three nodes at most, how many bytes may wait for one, and how its device tells of them.
#[derive(Clone, Copy, Drop)]
struct Trial {
    seats: usize,
    limit: usize,
    tells: Tells,
}

// What came of these at three nodes of five workers each.
fn came_of(
    alloc: Global,
    keys: RandomState,
    rt: &HostRuntime,
    trial: Trial,
    parts: Vec<Asked>,
) -> Result<Option<Came>, Fail> {
    let Some(setup) = Setup::new(3, 64, 5, trial.seats, 1_048_576) else {
        return Ok(None);
    };
    let answering = WorldBackend::new(alloc, keys, setup)?;
    let crowd = Crowd::new(alloc, trial.tells, trial.seats.saturating_mul(3), parts)?;
    let clock = MachineClock { runtime: rt };
    let mut service = Service::new(alloc, 0, 0, answering, crowd, clock, trial.limit, 0)?;
    if service.serve(&Open) != Ended::Device {
        return Ok(None);
    }
    let found = service.device.gone.saturating_add(service.clients.len());
    Ok(Some(Came {
        answered: service.device.answered,
        lost: service.device.came.saturating_sub(found),
        longest: service.device.longest,
        most_told: service.device.most_told,
        given_before: service.device.given_before,
        most_read: service.device.most_read,
        last_read: service.device.last_read,
    }))
}

// What came of these where 21 are there at once at most.
fn came_of_few(
    alloc: Global,
    keys: RandomState,
    rt: &HostRuntime,
    tells: Tells,
    asked: Asked,
) -> Result<Option<Came>, Fail> {
    let trial = Trial {
        seats: 7,
        limit: 1_048_576,
        tells,
    };
    came_of(alloc, keys, rt, trial, vec![in alloc; asked]?)
}

// So many that ask and want these.
fn asking(count: usize, input: Vec<u8>, output: Vec<u8>, piece: usize) -> Asked {
    Asked {
        count,
        input,
        output,
        piece,
        spread: 1,
        stalls: 0,
        window: usize::MAX,
        is_silent: false,
        waits: false,
    }
}

// So many with so often a request, and its reply.
fn repeated(
    alloc: Global,
    count: usize,
    request: &[u8],
    reply: &[u8],
    times: usize,
    piece: usize,
) -> Result<Asked, Fail> {
    let input = request.repeat(alloc, times)?;
    let output = reply.repeat(alloc, times)?;
    Ok(asking(count, input, output, piece))
}

// 600 come, ask and go, where each stream may be ready at any time, and where nothing is told of any.
#[test]
fn serves_a_crowd(rt: HostRuntime) -> Result<(), Fail> {
    let keys = RandomState::new(&rt)?;
    for tells in [Tells::Every, Tells::Nothing] {
        let asked = repeated(rt.alloc(), 600, b"PING 1\r\n", b"$1\r\n1\r\n", 3, 5)?;
        let came = came_of_few(rt.alloc(), keys, &rt, tells, asked)?;
        assert!(&rt; came.is_some_and(|came| came.is_whole(600)));
    }
    Ok(())
}

// The same of some behind 100 that say nothing and stay.
#[test]
fn serves_some_behind_silent_ones(rt: HostRuntime) -> Result<(), Fail> {
    let keys = RandomState::new(&rt)?;
    let mut silent = repeated(rt.alloc(), 100, b"", b"", 0, 5)?;
    silent.is_silent = true;
    let asked = repeated(rt.alloc(), 30, b"PING 1\r\n", b"$1\r\n1\r\n", 3, 5)?;
    let trial = Trial {
        seats: 41,
        limit: 1_048_576,
        tells: Tells::Every,
    };
    let parts = vec![in rt.alloc(); silent, asked]?;
    let came = came_of(rt.alloc(), keys, &rt, trial, parts)?;
    assert!(&rt; came.is_some_and(|came| came.is_whole(30)));
    Ok(())
}

// So many with so often a request of 1,024 bytes, and its reply of 1,010.
fn large(alloc: Global, count: usize, times: usize, piece: usize) -> Result<Asked, Fail> {
    let mut reply = b"$1001\r\n".to_vec(alloc)?;
    reply.extend_from_slice(&b"x".repeat(alloc, 1_001)?)?;
    reply.extend_from_slice(b"\r\n")?;
    let mut request = b"*2\r\n$4\r\nPING\r\n".to_vec(alloc)?;
    request.extend_from_slice(&reply)?;
    repeated(alloc, count, &request, &reply, times, piece)
}

// A device that tells once of each stream that it can be read or written again, and then no more. Of 900 some 300 are there at once: so more than 64 wait to
// be taken, there is news of more than 128 in one turn, and each that goes lets another move to its place. 64 send more at once than a read takes. 64 take
// less at once than waits for them, so that they aren't read for a while.
#[test]
fn hears_of_each_of_many(rt: HostRuntime) -> Result<(), Fail> {
    let keys = RandomState::new(&rt)?;
    let rows = [
        (900, 2, 256, 256, usize::MAX, 129),
        (64, 12, usize::MAX, 1, usize::MAX, 1),
        (64, 40, usize::MAX, 1, 10_240, 1),
    ];
    for (count, times, piece, spread, window, at_once) in rows {
        let mut asked = large(rt.alloc(), count, times, piece)?;
        asked.spread = spread;
        asked.window = window;
        let trial = Trial {
            seats: 100,
            limit: 65_536,
            tells: Tells::News,
        };
        let parts = vec![in rt.alloc(); asked]?;
        let came = came_of(rt.alloc(), keys, &rt, trial, parts)?;
        let came = came.expect(&rt, "turns");
        assert!(&rt; came.is_prompt(count));
        assert!(&rt; came.most_told >= at_once);
    }
    Ok(())
}

// 20 subscribers, of which the device has nothing to tell once they subscribed: each gets each message soon, since what answers tells of it.
#[test]
fn tells_subscribers_at_once(rt: HostRuntime) -> Result<(), Fail> {
    let keys = RandomState::new(&rt)?;
    let alloc = rt.alloc();
    let mut wanted = b"*3\r\n$9\r\nsubscribe\r\n$1\r\nc\r\n:1\r\n".to_vec(alloc)?;
    let message = b"*3\r\n$7\r\nmessage\r\n$1\r\nc\r\n$2\r\nhi\r\n";
    wanted.extend_from_slice(&message.repeat(alloc, 3)?)?;
    let mut listening = asking(20, b"SUBSCRIBE c\r\n".to_vec(alloc)?, wanted, usize::MAX);
    listening.waits = true;
    // A piece, and so a turn, for the first request, and two or three for each of the others.
    let input = b"PING\r\nPUBLISH c hi\r\nPUBLISH c hi\r\nPUBLISH c hi\r\n".to_vec(alloc)?;
    let output = b"+PONG\r\n:20\r\n:20\r\n:20\r\n".to_vec(alloc)?;
    let publishing = asking(1, input, output, 6);
    let trial = Trial {
        seats: 7,
        limit: 1_048_576,
        tells: Tells::News,
    };
    let parts = vec![in alloc; listening, publishing]?;
    let came = came_of(alloc, keys, &rt, trial, parts)?;
    assert!(&rt; came.is_some_and(|came| came.is_prompt(21)));
    Ok(())
}

// Clients that go without a QUIT are closed at the moment of their turn: a key that one of them leaves with a deadline lives on for the others. Only the
// first 21, who may ask before anybody has set it, can miss it.
#[test]
fn closes_in_time(rt: HostRuntime) -> Result<(), Fail> {
    let keys = RandomState::new(&rt)?;
    let request = b"EXISTS k\r\nSET k v PX 100000000\r\n";
    let asked = repeated(rt.alloc(), 200, request, b":1\r\n+OK\r\n", 1, 64)?;
    let came = came_of_few(rt.alloc(), keys, &rt, Tells::Every, asked)?;
    assert!(&rt; came.is_some_and(|came| came.answered >= 179));
    Ok(())
}

// Pieces of exactly as many bytes as a read takes, at first and where it grew, and one byte more.
#[test]
fn serves_whole_reads(rt: HostRuntime) -> Result<(), Fail> {
    let keys = RandomState::new(&rt)?;
    for piece in [4_096, 4_097, 65_536, usize::MAX] {
        for tells in [Tells::Every, Tells::Nothing] {
            let asked = repeated(rt.alloc(), 2, b"PING 1\r\n", b"$1\r\n1\r\n", 16_384, piece)?;
            let came = came_of_few(rt.alloc(), keys, &rt, tells, asked)?;
            assert!(&rt; came.is_some_and(|came| came.answered == 2));
        }
    }
    Ok(())
}

// More is read at once of one that fills what is read and is answered with no more than that, and little again behind a read that it didn't fill, or where it
// is answered with more.
#[test]
fn reads_more_of_one_that_goes_on(rt: HostRuntime) -> Result<(), Fail> {
    let keys = RandomState::new(&rt)?;
    let rows: [(&[u8], &[u8], usize, usize, usize); 4] = [
        (b"PING 1\r\n", b"$1\r\n1\r\n", 511, 4_096, 4_096),
        (b"PING 1\r\n", b"$1\r\n1\r\n", 2_560, 65_536, 65_536),
        (b"PING 1\r\n", b"$1\r\n1\r\n", 3_000, 65_536, 4_096),
        (b"PING\r\n", b"+PONG\r\n", 10_000, 4_096, 4_096),
    ];
    for (request, reply, times, most, last) in rows {
        let asked = repeated(rt.alloc(), 1, request, reply, times, usize::MAX)?;
        let came = came_of_few(rt.alloc(), keys, &rt, Tells::Every, asked)?;
        assert!(&rt;
            came.is_some_and(|came| came.answered == 1
                && came.most_read == most
                && came.last_read == last)
        );
    }
    Ok(())
}

// A request of a mebibyte, in pieces.
#[test]
fn serves_a_large_request(rt: HostRuntime) -> Result<(), Fail> {
    let keys = RandomState::new(&rt)?;
    let alloc = rt.alloc();
    let mut input = b"*2\r\n$6\r\nSTRLEN\r\n$1048576\r\n".repeat(alloc, 1)?;
    input.extend_from_slice(&b"x".repeat(alloc, 1_048_576)?)?;
    input.extend_from_slice(b"\r\n")?;
    let asked = asking(1, input, b":0\r\n".repeat(alloc, 1)?, 10_000);
    let came = came_of_few(alloc, keys, &rt, Tells::Every, asked)?;
    assert!(&rt; came.is_some_and(|came| came.answered == 1));
    Ok(())
}

// One that takes nothing for 1,000 calls isn't read any more while more than a sixteenth of its limit waits for it: so it loses nothing of twice its
// limit.
#[test]
fn holds_one_that_takes_nothing(rt: HostRuntime) -> Result<(), Fail> {
    let keys = RandomState::new(&rt)?;
    let mut asked = repeated(
        rt.alloc(),
        1,
        b"PING 1\r\n",
        b"$1\r\n1\r\n",
        299_593,
        65_536,
    )?;
    asked.stalls = 1_000;
    let came = came_of_few(rt.alloc(), keys, &rt, Tells::Every, asked)?;
    assert!(&rt; came.is_some_and(|came| came.answered == 1 && came.given_before < 262_144));
    Ok(())
}
