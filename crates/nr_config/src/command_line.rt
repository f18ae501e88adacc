// The words of the command line, read by `clap`: which task they name.
ghost use Rattle.std.specs.Prelude.{◌≡◌, Some, false, codes, option_map, IfOk, IfErr, map, string_bytes};
ghost use Rattle.clap.specs.Words.{with_rule, app_of, first_of, rows_of, rule_of, shape_of, with_subcommand, kind_of, subcommand_rows_of, first_value, found_of};
ghost use Rattle.nr_config.specs.CommandLines.{AreGivenIn, command, file, config, word, flag, lasts_in, placing, run, script, serve, start, Describes, IsLocal, Names, Refuses, FindsTask, Finds, IsRefusal, IsMadeOf, Spells, Gives};

use crate::given::Given;
use clap::error::ErrorKind;
use clap::{Arg, ArgAction, ArgMatches, Command};
use std::alloc::{AllocError, Global};
use thiserror::Error;

// What `noderedis --version` prints behind the name.
const VERSION: &str = "0.9.0";

/// How long a server serves.
#[derive(Clone, Copy, Debug, PartialEq, Eq)]
pub enum Lasts {
    /// Until it is killed.
    UntilKilled,
    /// Until standard input ends. Then it ends in order.
    UntilInputEnds,
}

/// What the program is to do.
#[derive(Debug, Drop, PartialEq, Eq)]
pub enum Task {
    /// Serve one connection on standard input and output.
    Run,
    /// Run the steps of the script of this name.
    Script(String),
    /// Serve by TCP for so long, with the settings in the file of this name, but for those that words give.
    Serve(String, Given, Lasts),
}

/// Why the words of the command line give no task.
#[derive(Debug, Drop, Error)]
pub enum WordsError {
    /// The words ask for help or the version. This is the text, for standard output.
    #[error("{0}")]
    Asked(clap::Error),
    /// The words name no task. The text says why, for standard error.
    #[error("{0}")]
    Refused(clap::Error),
    /// Memory was refused, which says nothing of the words.
    #[error("out of memory")]
    Memory,
}

fn file<'a>(alloc: Global) -> Arg<'a>
    ensures rule { rule_of result ≡ file }
    ensures local { result.global ≡ false }
{
    Arg::new(alloc, "file")
        .value_name("FILE")
        .help("The script")
        .required(true)
        .action(ArgAction::Set)
}

fn config<'a>(alloc: Global) -> Arg<'a>
    ensures rule { rule_of result ≡ config }
    ensures local { result.global ≡ false }
{
    Arg::new(alloc, "config")
        .long("config")
        .value_name("FILE")
        .help("The settings file")
        .required(true)
        .action(ArgAction::Set)
}

// A word that stands in the place of a setting.
fn word<'a>(alloc: Global, name: &'a str, value: &'a str, help: &'a str) -> Arg<'a>
    ensures rule { rule_of result ≡ word name.entry.now }
    ensures local { result.global ≡ false }
{
    Arg::new(alloc, name)
        .long(name)
        .value_name(value)
        .help(help)
        .action(ArgAction::Set)
}

// A word that takes no value.
fn flag<'a>(alloc: Global, name: &'a str, help: &'a str) -> Arg<'a>
    ensures rule { rule_of result ≡ flag name.entry.now }
    ensures local { result.global ≡ false }
{
    Arg::new(alloc, name)
        .long(name)
        .help(help)
        .action(ArgAction::SetTrue)
}

fn run<'a>(alloc: Global) -> Command<'a>
    ensures { Describes run result }
{
    Command::new(alloc, "run").about(
        "Serves one connection on standard input and output, until the input ends",
    )
}

fn script<'a>(alloc: Global) -> Result<Command<'a>, AllocError>
    ensures { IfOk result (Describes script) }
{
    Command::new(alloc, "script")
        .about("Runs the steps of a script")
        .arg(file(alloc))
}

fn taking<'a>(command: Command<'a>, arg: Arg<'a>) -> Result<Command<'a>, AllocError>
    requires command { IsLocal command }
    requires argument { arg.global ≡ false }
    ensures { IfOk result (Describes (with_rule (app_of command.entry) (rule_of arg.entry))) }
{
    command.arg(arg)
}

// `serve`, with the words that stand in the place of settings.
fn placing<'a>(alloc: Global) -> Result<Command<'a>, AllocError>
    ensures { IfOk result (Describes placing) }
{
    let bare = Command::new(alloc, "serve").about("Serves by TCP");
    let named = taking(bare, config(alloc))?;
    let placed = taking(named, word(alloc, "listen", "ADDR", "Where to listen"))?;
    let sized = taking(placed, word(alloc, "nodes", "N", "How many nodes: 1 to 8"))?;
    let staffed = taking(
        sized,
        word(alloc, "workers", "N", "Workers of a node: 1 to 16"),
    )?;
    let help = "Connections of a node: 1 to 1024";
    taking(staffed, word(alloc, "connections", "N", help))
}

fn serve<'a>(alloc: Global) -> Result<Command<'a>, AllocError>
    ensures { IfOk result (Describes serve) }
{
    let help = "End in order once standard input ends";
    taking(placing(alloc)?, flag(alloc, "until-input-ends", help))
}

fn start<'a>(alloc: Global) -> Command<'a>
    ensures { Describes start result }
{
    Command::new(alloc, "noderedis")
        .about("A Redis server whose inside is Node Replication")
        .version(VERSION)
        .subcommand_required(true)
        .arg_required_else_help(true)
}

fn with<'a>(command: Command<'a>, subcommand: Command<'a>) -> Result<Command<'a>, AllocError>
    requires local { IsLocal command }
    requires also_local { IsLocal subcommand }
    ensures { IfOk result (Describes (with_subcommand (app_of command.entry) (shape_of subcommand.entry))) }
{
    command.subcommand(subcommand)
}

fn command<'a>(alloc: Global) -> Result<Command<'a>, AllocError>
    ensures { IfOk result (Describes command) }
{
    let with_run = with(start(alloc), run(alloc))?;
    let with_script = with(with_run, script(alloc)?)?;
    with(with_script, serve(alloc)?)
}

fn met<'m, 'a>(matches: &'m ArgMatches<'a>) -> Option<(&'a str, &'m ArgMatches<'a>)>
    ensures { option_map (λ p. (p.0.now, rows_of (found_of p.1.now))) result ≡ subcommand_rows_of matches.now }
{
    matches.subcommand()
}

fn text_in<'a>(matches: &ArgMatches<'a>, id: &str) -> Option<&'a str>
    ensures { option_map (λ text. text.now) result ≡ first_of id.now (rows_of (found_of matches.now)) }
{
    matches.get_str(id)
}

fn value_in(alloc: Global, matches: &ArgMatches<'_>, id: &str) -> Result<Option<String>, AllocError>
    ensures { IfOk result (λ value. option_map string_bytes value ≡ first_of id.now (rows_of (found_of matches.now))) }
{
    match text_in(matches, id) {
        Some(text) => Ok(Some(String::from_str(alloc, text)?)),
        None => Ok(None),
    }
}

fn script_in(alloc: Global, matches: &ArgMatches<'_>) -> Result<Option<Task>, AllocError>
    ensures { IfOk result (λ task. FindsTask (Some (codes "script", rows_of (found_of matches.now))) task) }
{
    match value_in(alloc, matches, "file")? {
        Some(file) => Ok(Some(Task::Script(file))),
        None => Ok(None),
    }
}

fn given_in(alloc: Global, matches: &ArgMatches<'_>) -> Result<Given, AllocError>
    ensures { IfOk result (AreGivenIn (Some (codes "serve", rows_of (found_of matches.now)))) }
{
    let listen = value_in(alloc, matches, "listen")?;
    let nodes = value_in(alloc, matches, "nodes")?;
    let workers = value_in(alloc, matches, "workers")?;
    let connections = value_in(alloc, matches, "connections")?;
    Ok(Given {
        listen,
        nodes,
        workers,
        connections,
    })
}

// How long the server lasts: a flag that is given has the text `true`, and one that isn't the text `false`.
fn lasts_in(matches: &ArgMatches<'_>) -> Lasts
    ensures { result ≡ lasts_in (Some (codes "serve", rows_of (found_of matches.now))) }
{
    match text_in(matches, "until-input-ends") {
        Some("true") => Lasts::UntilInputEnds,
        _ => Lasts::UntilKilled,
    }
}

fn serve_in(alloc: Global, matches: &ArgMatches<'_>) -> Result<Option<Task>, AllocError>
    ensures { IfOk result (λ task. FindsTask (Some (codes "serve", rows_of (found_of matches.now))) task) }
{
    match value_in(alloc, matches, "config")? {
        Some(file) => {
            let given = given_in(alloc, matches)?;
            Ok(Some(Task::Serve(file, given, lasts_in(matches))))
        }
        None => Ok(None),
    }
}

fn task_of(alloc: Global, name: &str, matches: &ArgMatches<'_>) -> Result<Option<Task>, AllocError>
    ensures { IfOk result (λ task. FindsTask (Some (name.now, rows_of (found_of matches.now))) task) }
{
    match name {
        "run" => Ok(Some(Task::Run)),
        "script" => script_in(alloc, matches),
        "serve" => serve_in(alloc, matches),
        _ => Ok(None),
    }
}

fn task_in(alloc: Global, matches: &ArgMatches<'_>) -> Result<Option<Task>, AllocError>
    ensures { IfOk result (λ task. FindsTask (subcommand_rows_of matches.now) task) }
{
    match met(matches) {
        Some((name, given)) => task_of(alloc, name, given),
        None => Ok(None),
    }
}

fn parse<'a>(alloc: Global, words: &'a [String]) -> Result<ArgMatches<'a>, clap::Error>
    ensures found { IfOk result (Finds (map string_bytes words.entry.now)) }
    ensures refused { IfErr result (IsRefusal (map string_bytes words.entry.now)) }
{
    command(alloc)?.try_get_matches_from(words)
}

// What is answered where `clap` finds no fault and yet no task.
fn no_task(alloc: Global) -> Result<clap::Error, AllocError> {
    command(alloc)?.error(ErrorKind::MissingSubcommand, "no task is named")
}

fn read(alloc: Global, words: &[String]) -> Result<Task, clap::Error>
    ensures named { IfOk result (Names (map string_bytes words.now)) }
    ensures refused { IfErr result (IsRefusal (map string_bytes words.now)) }
{
    let matches = parse(alloc, words)?;
    match task_in(alloc, &matches)? {
        Some(task) => Ok(task),
        None => Err(no_task(alloc)?),
    }
}

fn refusal(error: clap::Error) -> WordsError
    ensures { IsMadeOf error result }
{
    match error.kind() {
        ErrorKind::OutOfMemory => WordsError::Memory,
        ErrorKind::DisplayHelp | ErrorKind::DisplayVersion => WordsError::Asked(error),
        _ => WordsError::Refused(error),
    }
}

/// The task that these words name. The first word is the program's own name.
///
/// # Errors
///
/// `Refused` where they name no task, and `Asked` where they ask for help or the version in place of one. `Memory` may come at any words.
pub fn words(alloc: Global, words: Vec<String>) -> Result<Task, WordsError>
    ensures spelled { (task : Task) → Spells (map string_bytes words.items) task → Gives task result }
    ensures named { IfOk result (Names (map string_bytes words.items)) }
    ensures refused { IfErr result (Refuses (map string_bytes words.items)) }
{
    match read(alloc, words.as_slice()) {
        Ok(task) => Ok(task),
        Err(error) => Err(refusal(error)),
    }
}
