// What PUBSUB is answered: who is subscribed to what (Redis reference, pub/sub).
ghost use Rattle.std.specs.Prelude.{◌≡◌, ◌++◌, ◌∷◌, [], length, map, filter, flat_map, IfOk, OnOk, bytes_eq};
ghost use Rattle.std.specs.Str.{str_to_ascii_lowercase};
ghost use Rattle.nr_model.specs.Commands.Texts as texts;
ghost use Rattle.nr_model.specs.Patterns as patterns;
ghost use Rattle.nr_model.specs.Replies as model;
ghost use Rattle.nr_model.specs.Sequential.Messages as messages;
ghost use Rattle.nr_model.specs.Sequential.Messages.{bulks, pubsub_reply, pubsub_channels, pubsub_patterns};
ghost use Rattle.nr_model.specs.Servers.{subscribers_in, names_in};
ghost use Rattle.nr_model.specs.declared.command.Kind.TheVariants.{Channels};
ghost use Rattle.nr_resp.specs.Seen.{reply_of};
ghost use Rattle.nr_emission.specs.Messages.{subscriptions_of};

use crate::counts::count_reply;
use nr_blob::{Blob, Memory};
use nr_glob::matches;
use nr_model::command::Kind;
use nr_pubsub::Subs;
use nr_resp::Reply;
use std::alloc::Global;

/// PUBSUB, by the words behind its name. CHANNELS names the channels with a subscriber, or those of them that a pattern
/// matches; NUMSUB counts the subscribers of each channel named; NUMPAT counts the patterns with a subscriber. CHANNELS is
/// linear in the channels, NUMSUB logarithmic for each name, NUMPAT constant.
pub fn pubsub(alloc: Global, subs: &Subs, words: &[Blob]) -> Result<Reply, Memory>
    ensures { IfOk result (λ reply. reply_of reply ≡ pubsub_reply (subscriptions_of subs.now) words.now) }
{
    let Some((subcommand, others)) = words.split_first() else {
        return Ok(syntax_error());
    };
    if is_word(subcommand, b"channels") {
        return channels(alloc, subs, others);
    }
    if is_word(subcommand, b"numsub") {
        return subscriber_counts(alloc, subs, others);
    }
    if is_word(subcommand, b"numpat") {
        return pattern_count(subs, others);
    }
    Ok(syntax_error())
}

// Whether a word is this one, whatever the case of its letters.
fn is_word(word: &Blob, name: &[u8]) -> bool
    ensures { result ≡ bytes_eq (str_to_ascii_lowercase word.now) (str_to_ascii_lowercase name.now) }
{
    word.bytes().eq_ignore_ascii_case(name)
}

fn syntax_error() -> Reply
    ensures { reply_of result ≡ model.Error texts.syntax_error }
{
    Reply::FixedError("ERR syntax error")
}

fn channels(alloc: Global, subs: &Subs, words: &[Blob]) -> Result<Reply, Memory>
    ensures { IfOk result (λ reply. reply_of reply ≡ pubsub_channels (subscriptions_of subs.now) words.now) }
{
    let Some((pattern, others)) = words.split_first() else {
        return every_channel(alloc, subs);
    };
    if !others.is_empty() {
        return Ok(syntax_error());
    }
    matching_channels(alloc, subs, pattern)
}

fn every_channel(alloc: Global, subs: &Subs) -> Result<Reply, Memory>
    ensures { IfOk result (λ reply. reply_of reply ≡ model.array (bulks (names_in subs.now Channels))) }
{
    let mut names = Vec::new(alloc);
    for (name, _) in subs.by_name(Kind::Channels) {
        push_name(name, &mut names)?;
    }
    Ok(Reply::array(names))
}

fn push_name(name: &Blob, names: &mut Vec<Reply>) -> Result<(), Memory>
    ensures { OnOk result (map reply_of names.new.items ≡ map reply_of names.old.items ++ bulks (name.now ∷ [])) }
{
    names.push(Reply::Bulk(name.copy()?))?;
    Ok(())
}

fn matching_channels(alloc: Global, subs: &Subs, pattern: &Blob) -> Result<Reply, Memory>
    ensures { IfOk result (λ reply. reply_of reply
        ≡ model.array (bulks (filter (λ name. patterns.matches pattern.now name) (names_in subs.now Channels)))) }
{
    let mut names = Vec::new(alloc);
    for (name, _) in subs.by_name(Kind::Channels) {
        push_matching(pattern, name, &mut names)?;
    }
    Ok(Reply::array(names))
}

fn push_matching(pattern: &Blob, name: &Blob, names: &mut Vec<Reply>) -> Result<(), Memory>
    ensures { OnOk result (map reply_of names.new.items
        ≡ map reply_of names.old.items ++ bulks (filter (λ name. patterns.matches pattern.now name) (name.now ∷ []))) }
{
    if !matches(pattern.bytes(), name.bytes()) {
        return Ok(());
    }
    push_name(name, names)
}

fn subscriber_counts(alloc: Global, subs: &Subs, names: &[Blob]) -> Result<Reply, Memory>
    ensures { IfOk result (λ reply. reply_of reply ≡ model.array (flat_map (messages.count_reply (subscriptions_of subs.now)) names.now)) }
{
    let mut counts = Vec::new(alloc);
    for name in names {
        push_count(subs, name, &mut counts)?;
    }
    Ok(Reply::array(counts))
}

fn push_count(subs: &Subs, name: &Blob, counts: &mut Vec<Reply>) -> Result<(), Memory>
    ensures { OnOk result (map reply_of counts.new.items
        ≡ map reply_of counts.old.items ++ messages.count_reply (subscriptions_of subs.now) name.now) }
{
    let count = count_reply(subscriber_count(subs, name))?;
    push_name(name, counts)?;
    counts.push(count)?;
    Ok(())
}

fn subscriber_count(subs: &Subs, channel: &Blob) -> usize
    ensures { result ≡ length (subscribers_in subs.now Channels channel.now) }
{
    match subs.subscribers(Kind::Channels, channel) {
        Some(receivers) => receivers.len(),
        None => 0,
    }
}

fn pattern_count(subs: &Subs, words: &[Blob]) -> Result<Reply, Memory>
    ensures { IfOk result (λ reply. reply_of reply ≡ pubsub_patterns (subscriptions_of subs.now) words.now) }
{
    if !words.is_empty() {
        return Ok(syntax_error());
    }
    count_reply(subs.by_name(Kind::Patterns).len())
}
