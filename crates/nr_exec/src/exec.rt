// One command at a moment: the words behind its name go to the body of its section. The machine calls nothing else of this crate.
ghost use Rattle.std.specs.Prelude.{◌≡◌, drop, IfOk};
ghost use Rattle.nr_model.specs.Commands as commands;
ghost use Rattle.nr_model.specs.Keyspace.{live};
ghost use Rattle.nr_resp.specs.Seen.{reply_of};
ghost use Rattle.nr_resp.specs.Shown.{shown_reply};
ghost use Rattle.nr_resp.specs.Done.{IsDone, Answers, Performs};

use nr_blob::{Blob, Memory};
use nr_keyspace::{Db, Keyspace, Touched};
use nr_model::command::{Change, Look};
use nr_resp::{Failure, Reply, Shown, arguments};
use std::alloc::Global;

mod hashes;
mod keys;
mod lists;
mod server;
mod sets;
mod sorted_sets;
mod strings;

/// The reply of a command that only looks, at a moment in milliseconds, for a connection whose database this is. The words are
/// those of the request, its name first. What the reply shows of a value or a word is lent.
pub fn look<'k>(
    alloc: Global,
    keyspace: &'k Keyspace,
    now: u64,
    database: Db,
    command: Look,
    words: &'k [Blob],
) -> Result<Shown<'k>, Memory>
    ensures { IfOk result (λ shown. shown_reply shown ≡ commands.look command now (live keyspace.now now) database (drop 1 words.now)) }
{
    match look_in_section(alloc, keyspace, now, database, command, words) {
        Ok(shown) => Ok(shown),
        Err(failure) => Ok(Shown::Owned(failure.reply()?)),
    }
}

#[tactic(auto, unfolding(nr_model::specs::Commands::look))]
fn look_in_section<'k>(
    alloc: Global,
    keyspace: &'k Keyspace,
    now: u64,
    database: Db,
    command: Look,
    words: &'k [Blob],
) -> Result<Shown<'k>, Failure>
    ensures { Answers result (commands.look command now (live keyspace.now now) database (drop 1 words.now)) }
{
    let words = arguments(words);
    match command {
        Look::Server(command) => server::look(alloc, keyspace, now, database, command, words),
        Look::Keys(command) => keys::look(alloc, keyspace, now, database, command, words),
        Look::Strings(command) => strings::look(alloc, keyspace, now, database, command, words),
        Look::Lists(command) => lists::look(alloc, keyspace, now, database, command, words),
        Look::Hashes(command) => hashes::look(alloc, keyspace, now, database, command, words),
        Look::Sets(command) => sets::look(alloc, keyspace, now, database, command, words),
        Look::SortedSets(command) => {
            sorted_sets::look(alloc, keyspace, now, database, command, words)
        }
    }
}

/// One command that may change the keyspace or the database of its connection, at a moment in milliseconds. The words are those of the request,
/// its name first. Where memory runs out the keyspace is safe to use, and holds part of the change or none.
pub fn change<T: Touched>(
    alloc: Global,
    keyspace: &mut Keyspace,
    now: u64,
    database: &mut Db,
    command: Change,
    words: &[Blob],
    touched: &mut T,
) -> Result<Reply, Memory>
    ensures { IfOk result
        (λ reply. IsDone T.after (reply_of reply) keyspace.new database.new touched.old touched.new
        (commands.change command now (live keyspace.old now) database.old (drop 1 words.now))) }
{
    keyspace.sweep(now);
    match change_in_section(alloc, keyspace, now, database, command, words, touched) {
        Ok(reply) => Ok(reply),
        Err(failure) => failure.reply(),
    }
}

// A command that may change a keyspace whose keys are all live.
#[tactic(auto, unfolding(nr_model::specs::Commands::change))]
fn change_in_section<T: Touched>(
    alloc: Global,
    keyspace: &mut Keyspace,
    now: u64,
    database: &mut Db,
    command: Change,
    words: &[Blob],
    touched: &mut T,
) -> Result<Reply, Failure>
    requires { live keyspace.old now ≡ keyspace.old }
    ensures { Performs T.after result keyspace.new database.new touched.old touched.new
        (commands.change command now keyspace.old database.old (drop 1 words.now)) }
{
    let words = arguments(words);
    match command {
        Change::Server(command) => server::change(keyspace, now, database, command, words, touched),
        Change::Keys(command) => keys::change(
            alloc, keyspace, now, *database, command, words, touched,
        ),
        Change::Strings(command) => {
            strings::change(alloc, keyspace, now, *database, command, words, touched)
        }
        Change::Lists(command) => {
            lists::change(alloc, keyspace, now, *database, command, words, touched)
        }
        Change::Hashes(command) => {
            hashes::change(alloc, keyspace, now, *database, command, words, touched)
        }
        Change::Sets(command) => {
            sets::change(alloc, keyspace, now, *database, command, words, touched)
        }
        Change::SortedSets(command) => {
            sorted_sets::change(alloc, keyspace, now, *database, command, words, touched)
        }
    }
}
