//! A Redis server: the program. It reads its words, serves connections by TCP or one on standard input and output, or plays a script, and says
//! why it failed.
#![tactic(auto)]

use nr_blob::Memory;
use nr_config::{Given, Lasts, Settings, Task, WordsError, words};
use nr_server::{
    Fault, SystemRefusal, listen_on, play_on, run_on, serve_by_tcp, settings_on, with_words,
};
use nr_service::{MachineClock, Open};
use std::alloc::Global;
use std::fs::Files;
use std::hash::RandomState;
use std::net::Net;
use std::process::ExitCode;
use std::rt::Clock;
use std::sync::Wait;
use std::thread::Threads;
use std::{env, fs, io};

fn serve_input(rt: &HostRuntime) -> io::Result<Result<(), Fault>> {
    let alloc = rt.alloc();
    let keys = RandomState::new(rt)?;
    let clock = MachineClock { runtime: rt };
    match run_on(alloc, keys, rt.stdin(), rt.stdout(), clock) {
        Ok(ran) => Ok(ran.done),
        Err(fault) => Ok(Err(fault)),
    }
}

// The bytes of a file, or why it can't be read.
fn read_file(rt: &HostRuntime, file: &str) -> io::Result<Result<Vec<u8>, SystemRefusal>> {
    match fs::read(rt, file) {
        Ok(text) => Ok(Ok(text)),
        Err(error) if Memory::of(&error).is_some() => Err(error),
        Err(error) => Ok(Err(SystemRefusal::of(&error))),
    }
}

fn play_script(rt: &HostRuntime, file: &str) -> io::Result<Result<(), Fault>> {
    let keys = RandomState::new(rt)?;
    match read_file(rt, file)? {
        Ok(text) => Ok(play_on(rt.alloc(), keys, &text, &mut rt.stdout())),
        Err(why) => Ok(Err(Fault::Script(String::from_str(rt.alloc(), file)?, why))),
    }
}

// What serves: the runtime's clock, files, sockets and threads.
trait Serving: Clock + Files + Net + Threads + Wait + Sync {}

impl<R: Clock + Files + Net + Threads + Wait + Sync> Serving for R {}

fn serve_clients<R: Serving>(
    rt: &HostRuntime,
    serving: &R,
    file: &str,
    given: Given,
    lasts: Lasts,
) -> io::Result<Result<(), Fault>> {
    match read_file(rt, file)? {
        Ok(text) => serve_with(rt, serving, &text, given, lasts),
        Err(why) => Ok(Err(Fault::Settings(String::from_str(rt.alloc(), file)?, why))),
    }
}

// The settings of this text, but for those that words give.
fn settings_of(alloc: Global, text: &[u8], given: Given) -> Result<Settings, Fault> {
    with_words(alloc, settings_on(alloc, text)?, given)
}

// Serves with the settings of this text, but for those that words give, by threads.
fn serve_with<R: Serving>(
    rt: &HostRuntime,
    serving: &R,
    text: &[u8],
    given: Given,
    lasts: Lasts,
) -> io::Result<Result<(), Fault>> {
    let alloc = rt.alloc();
    let settings = match settings_of(alloc, text, given) {
        Ok(settings) => settings,
        Err(fault) => return Ok(Err(fault)),
    };
    let listening = match listen_on(alloc, serving, &settings) {
        Ok(listening) => listening,
        Err(fault) => return Ok(Err(fault)),
    };
    let keys = RandomState::new(rt)?;
    Ok(serve_by_tcp(
        serving,
        alloc,
        keys,
        &settings,
        listening,
        lasts,
        rt.stdout(),
        rt.stderr(),
        &Open,
    ))
}

// Says why the program ends: in a line, and a reason on one of its own.
fn fail(rt: &HostRuntime, fault: &Fault) -> io::Result<ExitCode> {
    eprintln!(rt; "{fault}")?;
    Ok(ExitCode::from(fault.status()))
}

fn refuse(rt: &HostRuntime, error: &WordsError) -> io::Result<ExitCode> {
    match error {
        WordsError::Memory => fail(rt, &Fault::Memory),
        WordsError::Asked(message) | WordsError::Refused(message) => {
            message.print(rt)?;
            Ok(ExitCode::from(message.exit_code() as u8))
        }
    }
}

fn perform<R: Serving>(rt: &HostRuntime, serving: &R) -> io::Result<ExitCode> {
    let alloc = rt.alloc();
    let given: Vec<String> = env::args(rt)?.collect(alloc)?;
    let task = match words(alloc, given) {
        Ok(task) => task,
        Err(error) => return refuse(rt, &error),
    };
    let done = match task {
        Task::Run => serve_input(rt)?,
        Task::Script(file) => play_script(rt, file.as_str())?,
        Task::Serve(file, given, lasts) => {
            serve_clients(rt, serving, file.as_str(), given, lasts)?
        }
    };
    match done {
        Ok(()) => Ok(ExitCode::SUCCESS),
        Err(fault) => fail(rt, &fault),
    }
}

fn main(rt: HostRuntime) -> io::Result<ExitCode> {
    match perform(&rt, &rt) {
        Err(error) if Memory::of(&error).is_some() => fail(&rt, &Fault::Memory),
        done => done,
    }
}
