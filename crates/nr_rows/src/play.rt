// Rows played on a server, each on a fresh one, with every difference from what is expected.

use crate::failure::Failure;
use crate::rows::{Claim, Fact, Input, Row};
use crate::server::Server;
use nr_entry::Setup;
use std::alloc::{AllocError, Global};
use std::hash::RandomState;

/// What was otherwise than a row says of a connection.
#[derive(Drop)]
pub(crate) enum Mismatch {
    /// It was handed other bytes.
    Handed { expected: Vec<u8>, got: Vec<u8> },
    /// It takes bytes, and was to take no more.
    GoesOn,
}

/// What was otherwise than a line says, for the connection of this name.
#[derive(Drop)]
pub(crate) struct Difference {
    pub line: usize,
    pub name: u64,
    pub mismatch: Mismatch,
}

/// How many rows and inputs were played, and what was otherwise than they say.
#[derive(Drop)]
pub(crate) struct Played {
    pub rows: usize,
    pub inputs: usize,
    pub differences: Vec<Difference>,
}

// What is otherwise than a fact says.
fn mismatch_of(
    alloc: Global,
    server: &mut Server,
    name: u64,
    fact: &Fact,
) -> Result<Option<Mismatch>, AllocError> {
    match fact {
        Fact::Handed(expected) => {
            let got = server.take_received(alloc, name);
            if got == *expected {
                return Ok(None);
            }
            let expected = expected.clone()?;
            Ok(Some(Mismatch::Handed { expected, got }))
        }
        Fact::Ended => {
            if server.has_ended(name) {
                return Ok(None);
            }
            Ok(Some(Mismatch::GoesOn))
        }
    }
}

// Compares what came of an input with what is claimed.
fn compare(
    alloc: Global,
    server: &mut Server,
    claims: &[Claim],
    differences: &mut Vec<Difference>,
) -> Result<(), Failure> {
    for claim in claims {
        if let Some(mismatch) = mismatch_of(alloc, server, claim.name, &claim.fact)? {
            differences.push(Difference {
                line: claim.line,
                name: claim.name,
                mismatch,
            })?;
        }
    }
    Ok(())
}

// What connections received that no line claims.
fn compare_rest(
    alloc: Global,
    server: &mut Server,
    line: usize,
    differences: &mut Vec<Difference>,
) -> Result<(), Failure> {
    for (name, got) in server.take_all(alloc)? {
        let expected = Vec::new(alloc);
        differences.push(Difference {
            line,
            name,
            mismatch: Mismatch::Handed { expected, got },
        })?;
    }
    Ok(())
}

fn play_input(
    alloc: Global,
    server: &mut Server,
    input: &Input,
    differences: &mut Vec<Difference>,
) -> Result<(), Failure> {
    server.act(alloc, input.name, input.moment, &input.action)?;
    compare(alloc, server, &input.claims, differences)?;
    compare_rest(alloc, server, input.line, differences)
}

fn play_row(
    alloc: Global,
    keys: RandomState,
    setup: Setup,
    row: &Row,
    differences: &mut Vec<Difference>,
) -> Result<(), Failure> {
    let mut server = Server::new(alloc, keys, setup)?;
    for input in &row.inputs {
        play_input(alloc, &mut server, input, differences)?;
    }
    Ok(())
}

/// Plays each row on a server of its own.
pub(crate) fn play(
    alloc: Global,
    keys: RandomState,
    setup: Setup,
    rows: &[Row],
) -> Result<Played, Failure> {
    let mut inputs = 0usize;
    let mut differences = Vec::new(alloc);
    for row in rows {
        play_row(alloc, keys, setup, row, &mut differences)?;
        inputs = inputs.saturating_add(row.inputs.len());
    }
    Ok(Played {
        rows: rows.len(),
        inputs,
        differences,
    })
}
