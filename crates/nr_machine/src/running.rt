// The commands of a transaction, one after the other, at one moment.
ghost use Rattle.std.specs.Prelude.{◌≡◌, ◌++◌, [], ℕ, take, map, OnOk, OnErr, IfOk, option_to_list};
ghost use Rattle.std.specs.Option.{option_map};
ghost use Rattle.nr_model.specs.Sequential.{acted, acted_all, for_node};
ghost use Rattle.nr_resp.specs.Seen.{reply_of};
ghost use Rattle.nr_entry.specs.Kinds.{queued_command, queued_call};
ghost use Rattle.nr_emission.specs.Emitted.{all_after};
ghost use Rattle.nr_emission.specs.Messages.{subscriptions_of};
ghost use Rattle.nr_machine.specs.Ran.{among, begun, Runs};

use nr_blob::Memory;
use nr_emission::{Sink, publish, pubsub};
use nr_entry::{Queueable, Queued};
use nr_exec::{change, look};
use nr_keyspace::{Db, Keyspace};
use nr_model::command::Operation;
use nr_pubsub::Subs;
use nr_resp::{Reply, arguments};
use nr_watch::Watches;
use std::alloc::Global;

/// The commands of a transaction, in order. Their replies, where the connection is answered. Where memory runs out the sink has a front
/// of the messages.
pub(crate) fn run_all<S: Sink>(
    alloc: Global,
    keyspace: &mut Keyspace,
    watches: &mut Watches,
    subs: &Subs,
    now: u64,
    node: usize,
    database: &mut Db,
    commands: &[Queued],
    answered: bool,
    out: &mut S,
) -> Result<Vec<Reply>, Memory>
    ensures ran { IfOk result (λ replies. Runs S.after node answered
        (acted_all (among (subscriptions_of subs.now)) now (map queued_call commands.now) (begun keyspace.old database.old))
        keyspace.new database.new watches.old watches.new out.old out.new [] (map reply_of replies.items)) }
    ensures partly { OnErr result ((n : ℕ) × (out.new ≡ all_after S.after out.old (take n (for_node node
        (acted_all (among (subscriptions_of subs.now)) now (map queued_call commands.now) (begun keyspace.old database.old)).messages)))) }
{
    let mut replies = Vec::new(alloc);
    for cmd in commands {
        run_next(
            alloc,
            keyspace,
            watches,
            subs,
            now,
            node,
            database,
            cmd,
            answered,
            &mut replies,
            out,
        )?;
    }
    Ok(replies)
}

// One command more.
fn run_next<S: Sink>(
    alloc: Global,
    keyspace: &mut Keyspace,
    watches: &mut Watches,
    subs: &Subs,
    now: u64,
    node: usize,
    database: &mut Db,
    cmd: &Queued,
    answered: bool,
    replies: &mut Vec<Reply>,
    out: &mut S,
) -> Result<(), Memory>
    ensures ran { OnOk result (Runs S.after node answered
        (acted (among (subscriptions_of subs.now)) now (queued_command cmd.now.command) (queued_call cmd.now) (begun keyspace.old database.old))
        keyspace.new database.new watches.old watches.new out.old out.new (map reply_of replies.old.items) (map reply_of replies.new.items)) }
    ensures partly { OnErr result ((n : ℕ) × (out.new ≡ all_after S.after out.old (take n (for_node node
        (acted (among (subscriptions_of subs.now)) now (queued_command cmd.now.command) (queued_call cmd.now) (begun keyspace.old database.old)).messages)))) }
{
    match cmd.command {
        Queueable::Perform(Operation::Look(command)) => {
            if answered {
                let shown = look(alloc, keyspace, now, *database, command, &cmd.words)?;
                replies.push(shown.into_reply(alloc)?)?;
            }
            Ok(())
        }
        Queueable::Perform(Operation::Change(command)) => {
            let reply = change(alloc, keyspace, now, database, command, &cmd.words, watches)?;
            replies.push(reply)?;
            Ok(())
        }
        Queueable::Publish => {
            let reply = publish(alloc, subs, node, arguments(&cmd.words), out)?;
            push_some(reply, replies)
        }
        Queueable::Pubsub => {
            if answered {
                replies.push(pubsub(alloc, subs, arguments(&cmd.words))?)?;
            }
            Ok(())
        }
        Queueable::Unwatch => {
            replies.push(Reply::Simple("OK"))?;
            Ok(())
        }
    }
}

fn push_some(reply: Option<Reply>, replies: &mut Vec<Reply>) -> Result<(), Memory>
    ensures { OnOk result (map reply_of replies.new.items ≡ map reply_of replies.old.items ++ option_to_list (option_map reply_of reply)) }
{
    if let Some(reply) = reply {
        replies.push(reply)?;
    }
    Ok(())
}
