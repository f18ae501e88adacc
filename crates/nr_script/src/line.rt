// Lines of a script: the step that each says.
ghost use Rattle.std.specs.Prelude.{◌≡◌, IfOk, bytes_eq};
ghost use Rattle.std.specs.List.{list_all};
ghost use Rattle.nr_script.specs.declared.line.LineError.TheVariants as errors;
ghost use Rattle.nr_script.specs.Lines.{is_space, begins_comment, is_skipped, setup_of, feed_of, of_two, of_one, numbered, plain_step, bare_step, named_step, step_of, line_of};

use crate::numbers::{number, number_then, two_numbers};
use crate::parts::parted;
use crate::text::read_text;
use nr_blob::{Blob, Memory};
use std::alloc::{AllocFailed, Global};

/// What a line of a script says. Nodes and workers count from 0, a connection is the number of those that were opened before it, and a
/// moment is in milliseconds.
#[derive(Debug, PartialEq, Eq, Drop)]
pub enum Line {
    /// The first step of a script: how many nodes, places of the log and workers a node, and the most bytes that wait for a connection.
    Setup {
        nodes: u64,
        places: u64,
        workers: u64,
        queue: u64,
    },
    /// A connection is opened at a node and one of its workers.
    Open {
        node: u64,
        worker: u64,
    },
    /// Bytes come to a connection.
    Feed {
        connection: u64,
        moment: u64,
        bytes: Blob,
    },
    /// A connection is closed.
    Close {
        connection: u64,
        moment: u64,
    },
    Fill {
        node: u64,
        to: u64,
    },
    /// A node that is down comes back with a copy of another node's server.
    Revive {
        node: u64,
        donor: u64,
    },
    Post {
        node: u64,
        worker: u64,
    },
    Lift {
        node: u64,
        worker: u64,
    },
    Answer {
        node: u64,
        worker: u64,
    },
    Collect {
        node: u64,
        worker: u64,
    },
    Reserve {
        node: u64,
    },
    Fetch {
        node: u64,
    },
    Apply {
        node: u64,
    },
    Look {
        node: u64,
    },
    Refuse {
        node: u64,
    },
    /// All nodes go on until they come to rest.
    Settle,
}

/// Why a line was not read.
#[derive(Clone, Copy, Debug, PartialEq, Eq)]
pub enum LineError {
    /// It is no line of a script.
    BadStep,
    /// There was no memory for its bytes.
    Memory,
}

impl From<Memory> for LineError {
    ghost use Rattle.std.specs.Prelude.{◌≡◌};
    ghost use Rattle.nr_script.specs.declared.line.LineError.TheVariants as errors;

    ghost from_gives = { λ _ error. error ≡ errors.Memory };

    fn from(_: Memory) -> LineError {
        LineError::Memory
    }
}

impl<T: Drop> From<AllocFailed<T>> for LineError {
    ghost use Rattle.std.specs.Prelude.{◌≡◌};
    ghost use Rattle.nr_script.specs.declared.line.LineError.TheVariants as errors;

    ghost from_gives = { λ _ error. error ≡ errors.Memory };

    fn from(_: AllocFailed<T>) -> LineError {
        LineError::Memory
    }
}

/// What a line says, which is given without its LF: `None` where it is blank, of spaces, tabs and CRs, or begins with `#`. The words of
/// other lines are parted by exactly one space, and the bytes of a `feed` stand behind one space more. Linear.
///
/// # Errors
///
/// `BadStep` where it says none of the steps.
pub fn read_line(alloc: Global, line: &[u8]) -> Result<Option<Line>, LineError>
    ensures ok { IfOk result (λ read. line_of line.now ≡ Some read) }
    ensures bad { result ≡ Err errors.BadStep → line_of line.now ≡ None }
{
    if is_skipped(line) {
        return Ok(None);
    }
    let step = read_step(alloc, line)?;
    Ok(Some(step))
}

fn is_skipped(line: &[u8]) -> bool
    ensures { result ≡ is_skipped line.now }
{
    begins_comment(line) || is_blank(line)
}

fn begins_comment(line: &[u8]) -> bool
    ensures { result ≡ begins_comment line.now }
{
    match line {
        [] => false,
        [first, ..] => *first == b'#',
    }
}

fn is_blank(line: &[u8]) -> bool
    ensures { result ≡ list_all is_space line.now }
{
    line.iter()
        .all(|byte| *byte == b' ' || *byte == b'\t' || *byte == b'\r')
}

fn read_step(alloc: Global, line: &[u8]) -> Result<Line, LineError>
    ensures ok { IfOk result (λ step. step_of line.now ≡ Some step) }
    ensures bad { result ≡ Err errors.BadStep → step_of line.now ≡ None }
{
    match parted(b' ', line) {
        Some((name, rest)) => read_named(alloc, name, rest),
        None => or_bad(bare_step(line)),
    }
}

fn read_named(alloc: Global, name: &[u8], rest: &[u8]) -> Result<Line, LineError>
    ensures ok { IfOk result (λ step. named_step name.now rest.now ≡ Some step) }
    ensures bad { result ≡ Err errors.BadStep → named_step name.now rest.now ≡ None }
{
    if equals(name, b"feed") {
        read_feed(alloc, rest)
    } else {
        or_bad(plain_step(name, rest))
    }
}

fn or_bad(step: Option<Line>) -> Result<Line, LineError>
    ensures ok { IfOk result (λ line. step ≡ Some line) }
    ensures bad { result ≡ Err errors.BadStep → step ≡ None }
{
    match step {
        Some(line) => Ok(line),
        None => Err(LineError::BadStep),
    }
}

// The bytes of a `feed` stand behind its two numbers.
fn read_feed(alloc: Global, words: &[u8]) -> Result<Line, LineError>
    ensures ok { IfOk result (λ step. feed_of words.now ≡ Some step) }
    ensures bad { result ≡ Err errors.BadStep → feed_of words.now ≡ None }
{
    let Some((connection, words)) = number_then(words) else {
        return Err(LineError::BadStep);
    };
    let Some((moment, text)) = number_then(words) else {
        return Err(LineError::BadStep);
    };
    let bytes = read_text(alloc, text)?;
    Ok(Line::Feed {
        connection,
        moment,
        bytes,
    })
}

fn bare_step(line: &[u8]) -> Option<Line>
    ensures { result ≡ bare_step line.now }
{
    if equals(line, b"settle") {
        Some(Line::Settle)
    } else {
        None
    }
}

fn plain_step(name: &[u8], words: &[u8]) -> Option<Line>
    ensures { result ≡ plain_step name.now words.now }
{
    if equals(name, b"setup") {
        setup(words)
    } else {
        numbered(name, words)
    }
}

fn setup(words: &[u8]) -> Option<Line>
    ensures { result ≡ setup_of words.now }
{
    let Some((nodes, words)) = number_then(words) else {
        return None;
    };
    let Some((places, words)) = number_then(words) else {
        return None;
    };
    let Some((workers, queue)) = two_numbers(words) else {
        return None;
    };
    Some(Line::Setup {
        nodes,
        places,
        workers,
        queue,
    })
}

fn numbered(name: &[u8], words: &[u8]) -> Option<Line>
    ensures { result ≡ numbered name.now words.now }
{
    if let Some((first, second)) = two_numbers(words) {
        return of_two(name, first, second);
    }
    let Some(node) = number(words) else {
        return None;
    };
    of_one(name, node)
}

// A step with two numbers.
fn of_two(name: &[u8], first: u64, second: u64) -> Option<Line>
    ensures { result ≡ of_two name.now first second }
{
    if equals(name, b"open") {
        Some(Line::Open {
            node: first,
            worker: second,
        })
    } else if equals(name, b"close") {
        Some(Line::Close {
            connection: first,
            moment: second,
        })
    } else if equals(name, b"fill") {
        Some(Line::Fill {
            node: first,
            to: second,
        })
    } else if equals(name, b"post") {
        Some(Line::Post {
            node: first,
            worker: second,
        })
    } else if equals(name, b"lift") {
        Some(Line::Lift {
            node: first,
            worker: second,
        })
    } else if equals(name, b"answer") {
        Some(Line::Answer {
            node: first,
            worker: second,
        })
    } else if equals(name, b"collect") {
        Some(Line::Collect {
            node: first,
            worker: second,
        })
    } else if equals(name, b"revive") {
        Some(Line::Revive {
            node: first,
            donor: second,
        })
    } else {
        None
    }
}

// A step with one.
fn of_one(name: &[u8], node: u64) -> Option<Line>
    ensures { result ≡ of_one name.now node }
{
    if equals(name, b"reserve") {
        Some(Line::Reserve { node })
    } else if equals(name, b"fetch") {
        Some(Line::Fetch { node })
    } else if equals(name, b"apply") {
        Some(Line::Apply { node })
    } else if equals(name, b"look") {
        Some(Line::Look { node })
    } else if equals(name, b"refuse") {
        Some(Line::Refuse { node })
    } else {
        None
    }
}

fn equals(word: &[u8], name: &[u8]) -> bool
    ensures { result ≡ bytes_eq word.now name.now }
{
    word == name
}
