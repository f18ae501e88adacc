//! Plays files of rows and of scripts on whole servers: what each connection sends and the exact bytes that each is handed, and steps with
//! what they print.
#![tactic(auto)]

use failure::Failure;
use play::play;
use read::read;
use report::{show, show_scripts};
use scripts::play_scripts;
use server::setups;
use std::hash::RandomState;
use std::process::ExitCode;
use std::{env, fs, io};

mod clients;
mod failure;
mod line;
mod play;
mod read;
mod report;
mod rows;
mod scripts;
mod server;
mod text;

// Plays the rows of a text on servers of one node and of several, says what came of them, and whether all held.
fn play_rows(rt: &HostRuntime, keys: RandomState, name: &str, text: &str) -> Result<bool, Failure> {
    let rows = read(rt.alloc(), text)?;
    let mut hold = true;
    for setup in setups() {
        let played = play(rt.alloc(), keys, setup, &rows)?;
        show(rt, name, setup.nodes(), &played)?;
        hold &= played.differences.is_empty();
    }
    Ok(hold)
}

// Plays a file: its scripts, where its name ends with `.scripts`, or else its rows.
fn play_file(rt: &HostRuntime, keys: RandomState, name: &str) -> Result<bool, Failure> {
    let text = fs::read_to_string(rt, name)?;
    if name.ends_with(".scripts") {
        let played = play_scripts(rt.alloc(), keys, text.as_str())?;
        show_scripts(rt, name, &played)?;
        return Ok(played.misprints.is_empty());
    }
    play_rows(rt, keys, name, text.as_str())
}

// Says why the rows of a file were not played.
fn refuse(rt: &HostRuntime, name: &str, failure: &Failure) -> io::Result<()> {
    match failure {
        Failure::Memory => rt.eprintln("nr_rows: out of memory"),
        Failure::Line(number, fault) => eprintln!(rt; "nr_rows: {name}:{number}: {fault}"),
        Failure::Full => eprintln!(rt; "nr_rows: {name}: too many connections in a row"),
        Failure::File(error) => eprintln!(rt; "nr_rows: {name}: {error}"),
    }
}

// Plays the files that the program's arguments name, and says whether all held.
fn play_files(rt: &HostRuntime) -> io::Result<bool> {
    let keys = RandomState::new(rt)?;
    let mut hold = true;
    for name in env::args(rt)?.skip(1) {
        match play_file(rt, keys, name.as_str()) {
            Ok(holds) => hold &= holds,
            Err(failure) => {
                refuse(rt, name.as_str(), &failure)?;
                hold = false;
            }
        }
    }
    Ok(hold)
}

fn main(rt: HostRuntime) -> io::Result<ExitCode> {
    match play_files(&rt) {
        Ok(true) => Ok(ExitCode::SUCCESS),
        Ok(false) => Ok(ExitCode::FAILURE),
        Err(error) => {
            eprintln!(rt; "nr_rows: {error}")?;
            Ok(ExitCode::FAILURE)
        }
    }
}
