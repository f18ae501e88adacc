// What PUBLISH sends: a message to the subscribers of the channel, and one to those of each pattern that matches it (Redis
// reference, pub/sub).
ghost use Rattle.std.specs.Prelude.{◌≡◌, ◌+◌, ◌++◌, ◌∷◌, [], ℕ, ◌==◌, length, pos, take, OnOk, OnErr, IfOk};
ghost use Rattle.std.specs.Arc.{arc_value};
ghost use Rattle.std.specs.List.{list_any};
ghost use Rattle.std.specs.Option.{option_map};
ghost use Rattle.nr_model.specs.Replies as model;
ghost use Rattle.nr_model.specs.Replies.{reply_text};
ghost use Rattle.nr_model.specs.Sequential.{for_node};
ghost use Rattle.nr_model.specs.Sequential.Messages as messages;
ghost use Rattle.nr_model.specs.Sequential.Messages.{deliveries};
ghost use Rattle.nr_resp.specs.Seen.{reply_of};
ghost use Rattle.nr_entry.specs.Jobs.{connection_of};
ghost use Rattle.nr_pubsub.specs.Standings.{connections};
ghost use Rattle.nr_emission.specs.Emitted.{all_after};
ghost use Rattle.nr_emission.specs.Messages.{subscriptions_of, publish_messages, publish_reply};
ghost use Rattle.nr_emission.specs.Parts.{message_reply, to_each, channel_messages, pattern_messages, matching_messages};

use crate::counts::{count_reply, together};
use crate::sink::Sink;
use nr_blob::{Blob, Memory};
use nr_entry::ConnId;
use nr_glob::matches;
use nr_model::command::Kind;
use nr_pubsub::Subs;
use nr_resp::{Reply, Shown};
use std::alloc::Global;
use std::collections::BTreeSet;
use std::sync::Arc;

// A message on its way: to those that are subscribed to its channel, or to a pattern that matches it.
#[derive(Clone, Copy)]
enum Message<'a> {
    ToChannel {
        channel: &'a Blob,
        text: &'a Blob,
    },
    ToPattern {
        pattern: &'a Blob,
        channel: &'a Blob,
        text: &'a Blob,
    },
}

/// PUBLISH, by the words behind its name: a channel and a text. The reply is the number of receivers, on all nodes; those
/// of this node get the message, which is encoded once for the channel and once for each pattern, and shared. Without
/// these words there is no reply. Where memory runs out the sink has a front of the messages. Linear in the receivers
/// and in the patterns that anybody holds.
pub fn publish<S: Sink>(
    alloc: Global,
    subs: &Subs,
    node: usize,
    words: &[Blob],
    out: &mut S,
) -> Result<Option<Reply>, Memory>
    ensures reply { IfOk result (λ reply. option_map reply_of reply ≡ publish_reply (subscriptions_of subs.now) words.now) }
    ensures emitted { OnOk result (out.new ≡ all_after S.after out.old (for_node node (publish_messages (subscriptions_of subs.now) words.now))) }
    ensures partly { OnErr result ((n : ℕ) × (out.new
        ≡ all_after S.after out.old (take n (for_node node (publish_messages (subscriptions_of subs.now) words.now))))) }
{
    let Some((channel, others)) = words.split_first() else {
        return Ok(None);
    };
    let Some((text, _)) = others.split_first() else {
        return Ok(None);
    };
    let reply = deliver(alloc, subs, node, channel, text, out)?;
    Ok(Some(reply))
}

// Sends a message to all that are subscribed, and counts them.
fn deliver<S: Sink>(
    alloc: Global,
    subs: &Subs,
    node: usize,
    channel: &Blob,
    text: &Blob,
    out: &mut S,
) -> Result<Reply, Memory>
    ensures reply { IfOk result (λ reply. reply_of reply ≡ model.Int (pos (length (deliveries (subscriptions_of subs.now) channel.now text.now)))) }
    ensures emitted { OnOk result (out.new ≡ all_after S.after out.old (for_node node (deliveries (subscriptions_of subs.now) channel.now text.now))) }
    ensures partly { OnErr result ((n : ℕ) × (out.new
        ≡ all_after S.after out.old (take n (for_node node (deliveries (subscriptions_of subs.now) channel.now text.now))))) }
{
    let direct = deliver_to_channel(alloc, subs, node, channel, text, out)?;
    let matched = deliver_to_patterns(alloc, subs, node, channel, text, out)?;
    let receivers = together(direct, matched)?;
    count_reply(receivers)
}

// Sends a message to those that are subscribed to its channel. How many they are.
fn deliver_to_channel<S: Sink>(
    alloc: Global,
    subs: &Subs,
    node: usize,
    channel: &Blob,
    text: &Blob,
    out: &mut S,
) -> Result<usize, Memory>
    ensures count { IfOk result (λ count. count ≡ length (channel_messages (subscriptions_of subs.now) channel.now text.now)) }
    ensures emitted { OnOk result (out.new ≡ all_after S.after out.old (for_node node (channel_messages (subscriptions_of subs.now) channel.now text.now))) }
    ensures partly { OnErr result ((n : ℕ) × (out.new
        ≡ all_after S.after out.old (take n (for_node node (channel_messages (subscriptions_of subs.now) channel.now text.now))))) }
{
    let Some(receivers) = subs.subscribers(Kind::Channels, channel) else {
        return Ok(0);
    };
    let message = Message::ToChannel { channel, text };
    send(alloc, node, receivers, message, out)?;
    Ok(receivers.len())
}

// Sends a message to those that are subscribed to patterns that match its channel, pattern by pattern. How many they are.
fn deliver_to_patterns<S: Sink>(
    alloc: Global,
    subs: &Subs,
    node: usize,
    channel: &Blob,
    text: &Blob,
    out: &mut S,
) -> Result<usize, Memory>
    ensures count { IfOk result (λ count. count ≡ length (pattern_messages (subscriptions_of subs.now) channel.now text.now)) }
    ensures emitted { OnOk result (out.new ≡ all_after S.after out.old (for_node node (pattern_messages (subscriptions_of subs.now) channel.now text.now))) }
    ensures partly { OnErr result ((n : ℕ) × (out.new
        ≡ all_after S.after out.old (take n (for_node node (pattern_messages (subscriptions_of subs.now) channel.now text.now))))) }
{
    let mut count = 0;
    for (pattern, receivers) in subs.by_name(Kind::Patterns) {
        deliver_to_pattern(
            alloc, node, pattern, receivers, channel, text, &mut count, out,
        )?;
    }
    Ok(count)
}

// The same for one pattern: the count goes on where the pattern matches.
fn deliver_to_pattern<S: Sink>(
    alloc: Global,
    node: usize,
    pattern: &Blob,
    receivers: &BTreeSet<ConnId>,
    channel: &Blob,
    text: &Blob,
    count: &mut usize,
    out: &mut S,
) -> Result<(), Memory>
    ensures count { OnOk result (count.new ≡ count.old + length (matching_messages channel.now text.now (pattern.now, connections receivers.now.keys))) }
    ensures emitted { OnOk result (out.new
        ≡ all_after S.after out.old (for_node node (matching_messages channel.now text.now (pattern.now, connections receivers.now.keys)))) }
    ensures partly { OnErr result ((n : ℕ) × (out.new
        ≡ all_after S.after out.old (take n (for_node node (matching_messages channel.now text.now (pattern.now, connections receivers.now.keys)))))) }
{
    if !matches(pattern.bytes(), channel.bytes()) {
        return Ok(());
    }
    let message = Message::ToPattern {
        pattern,
        channel,
        text,
    };
    send(alloc, node, receivers, message, out)?;
    *count = together(*count, receivers.len())?;
    Ok(())
}

// Sends a message to those of the receivers that are the node's. It is encoded where there is one.
fn send<S: Sink>(
    alloc: Global,
    node: usize,
    receivers: &BTreeSet<ConnId>,
    message: Message<'_>,
    out: &mut S,
) -> Result<(), Memory>
    ensures emitted { OnOk result (out.new
        ≡ all_after S.after out.old (for_node node (to_each (message_reply message.entry) (connections receivers.now.keys)))) }
    ensures partly { OnErr result ((n : ℕ) × (out.new
        ≡ all_after S.after out.old (take n (for_node node (to_each (message_reply message.entry) (connections receivers.now.keys)))))) }
{
    if !has_receiver(node, receivers) {
        return Ok(());
    }
    let encoded = encode(alloc, message)?;
    share_all(node, receivers, &encoded, out)
}

fn has_receiver(node: usize, receivers: &BTreeSet<ConnId>) -> bool
    ensures { result ≡ list_any (λ conn. conn.node == node) receivers.now.keys }
{
    receivers.iter().any(|conn| conn.node == node)
}

// Hands the encoded message to each of the receivers that is the node's.
fn share_all<S: Sink>(
    node: usize,
    receivers: &BTreeSet<ConnId>,
    encoded: &Arc<Vec<u8>>,
    out: &mut S,
) -> Result<(), Memory>
    ensures emitted { (reply : model.Reply) → reply_text reply ≡ (arc_value encoded.now).items →
        OnOk result (out.new ≡ all_after S.after out.old (for_node node (to_each reply (connections receivers.now.keys)))) }
    ensures partly { (reply : model.Reply) → reply_text reply ≡ (arc_value encoded.now).items →
        OnErr result ((n : ℕ) × (out.new ≡ all_after S.after out.old (take n (for_node node (to_each reply (connections receivers.now.keys)))))) }
{
    for conn in receivers {
        share(node, *conn, encoded, out)?;
    }
    Ok(())
}

fn share<S: Sink>(
    node: usize,
    conn: ConnId,
    encoded: &Arc<Vec<u8>>,
    out: &mut S,
) -> Result<(), Memory>
    ensures emitted { (reply : model.Reply) → reply_text reply ≡ (arc_value encoded.now).items →
        OnOk result (out.new ≡ all_after S.after out.old (for_node node (to_each reply (connection_of conn ∷ [])))) }
    ensures unchanged { OnErr result (out.new ≡ out.old) }
{
    if conn.node != node {
        return Ok(());
    }
    out.share(conn, encoded)?;
    Ok(())
}

fn encode(alloc: Global, message: Message<'_>) -> Result<Arc<Vec<u8>>, Memory>
    ensures { IfOk result (λ encoded. (arc_value encoded).items ≡ reply_text (message_reply message.entry)) }
{
    let mut bytes = Vec::new(alloc);
    write_message(message, &mut bytes)?;
    Ok(Arc::new(alloc, bytes)?)
}

fn write_message(message: Message<'_>, bytes: &mut Vec<u8>) -> Result<(), Memory>
    ensures { OnOk result (bytes.new.items ≡ bytes.old.items ++ reply_text (message_reply message.entry)) }
{
    match message {
        Message::ToChannel { channel, text } => write_to_channel(channel, text, bytes),
        Message::ToPattern {
            pattern,
            channel,
            text,
        } => write_to_pattern(pattern, channel, text, bytes),
    }
}

fn write_to_channel(channel: &Blob, text: &Blob, bytes: &mut Vec<u8>) -> Result<(), Memory>
    ensures { OnOk result (bytes.new.items ≡ bytes.old.items ++ reply_text (messages.message channel.now text.now)) }
{
    bytes.extend_from_slice(b"*3\r\n$7\r\nmessage\r\n")?;
    write_bulk(channel, bytes)?;
    write_bulk(text, bytes)?;
    Ok(())
}

fn write_to_pattern(
    pattern: &Blob,
    channel: &Blob,
    text: &Blob,
    bytes: &mut Vec<u8>,
) -> Result<(), Memory>
    ensures { OnOk result (bytes.new.items ≡ bytes.old.items ++ reply_text (messages.pattern_message channel.now text.now pattern.now)) }
{
    bytes.extend_from_slice(b"*4\r\n$8\r\npmessage\r\n")?;
    write_bulk(pattern, bytes)?;
    write_bulk(channel, bytes)?;
    write_bulk(text, bytes)?;
    Ok(())
}

fn write_bulk(blob: &Blob, bytes: &mut Vec<u8>) -> Result<(), Memory>
    ensures { OnOk result (bytes.new.items ≡ bytes.old.items ++ reply_text (model.Bulk blob.now)) }
{
    Shown::Bulk(blob.bytes()).write(bytes)?;
    Ok(())
}
