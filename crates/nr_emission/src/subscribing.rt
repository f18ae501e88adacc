// What SUBSCRIBE, PSUBSCRIBE, UNSUBSCRIBE and PUNSUBSCRIBE change and answer (Redis reference, pub/sub).
ghost use Rattle.std.specs.Prelude.{◌≡◌, ◌∷◌, [], ℕ, fold, take, OnOk, OnErr, IfOk};
ghost use Rattle.nr_model.specs.Names.{held, with_held, subscribed, unsubscribed, after_subscribe, after_unsubscribe};
ghost use Rattle.nr_model.specs.Sequential.{for_node};
ghost use Rattle.nr_model.specs.Sequential.Messages as messages;
ghost use Rattle.nr_model.specs.Sequential.Messages.{acknowledged_all, subscribe_replies, unsubscribe_replies, unsubscribe_all};
ghost use Rattle.nr_model.specs.Servers.{held_in, with_held_by};
ghost use Rattle.nr_resp.specs.Seen.{reply_of};
ghost use Rattle.nr_resp.specs.Shown.{shown_reply};
ghost use Rattle.nr_entry.specs.Jobs.{connection_of};
ghost use Rattle.nr_emission.specs.Emitted.{all_after, replies_to};
ghost use Rattle.nr_emission.specs.Parts.{counted};
ghost use Rattle.nr_emission.specs.Subscribing.{IsGivenUp};

use crate::counts::count_reply;
use crate::sink::Sink;
use nr_blob::{Blob, Memory};
use nr_entry::ConnId;
use nr_model::command::Kind;
use nr_pubsub::Subs;
use nr_resp::{Reply, Shown};
use std::alloc::Global;

/// SUBSCRIBE or PSUBSCRIBE: the connection holds these names from now on, and each is acknowledged with the number of
/// names that it holds then. A connection of another node is not answered. Where memory runs out some of the names are
/// held, and the sink has a front of the acknowledgements. Logarithmic in what is held, for each name.
pub fn subscribe<S: Sink>(
    alloc: Global,
    subs: &mut Subs,
    node: usize,
    conn: ConnId,
    kind: Kind,
    names: &[Blob],
    out: &mut S,
) -> Result<(), Memory>
    ensures subs { OnOk result (subs.new
        ≡ with_held_by subs.old (connection_of conn) (after_subscribe kind (held_in subs.old (connection_of conn)) names.now)) }
    ensures emitted { OnOk result (out.new
        ≡ all_after S.after out.old
        (for_node node (replies_to (connection_of conn) (subscribe_replies kind (held_in subs.old (connection_of conn)) names.now)))) }
    ensures partly { OnErr result ((n : ℕ) × (out.new
        ≡ all_after S.after out.old
        (take n (for_node node (replies_to (connection_of conn) (subscribe_replies kind (held_in subs.old (connection_of conn)) names.now)))))) }
{
    // A connection that holds nothing isn't remembered, so without names nothing changes: `count` says so.
    subs.count(conn);
    for name in names {
        subscribe_next(alloc, subs, node, conn, kind, name, out)?;
    }
    Ok(())
}

// One name more.
fn subscribe_next<S: Sink>(
    alloc: Global,
    subs: &mut Subs,
    node: usize,
    conn: ConnId,
    kind: Kind,
    name: &Blob,
    out: &mut S,
) -> Result<(), Memory>
    ensures subs { OnOk result (subs.new ≡ with_held_by subs.old (connection_of conn) (subscribed kind (held_in subs.old (connection_of conn)) name.now)) }
    ensures emitted { OnOk result (out.new
        ≡ all_after S.after out.old
        (for_node node (replies_to (connection_of conn)
        (acknowledged_all (subscribed kind) (messages.subscribe_verb kind) (held_in subs.old (connection_of conn)) (name.now ∷ []))))) }
    ensures unchanged { OnErr result (out.new ≡ out.old) }
{
    let count = subs.subscribe(conn, kind, name.copy()?)?;
    let verb = subscribe_verb(kind);
    acknowledge(
        alloc,
        node,
        conn,
        verb,
        Shown::Bulk(name.bytes()),
        count,
        out,
    )?;
    Ok(())
}

/// UNSUBSCRIBE or PUNSUBSCRIBE: the connection gives these names up, or without names all that it holds of the kind, in
/// byte order. Each is acknowledged with the number of names that are held then; without names and where none is held,
/// the one answer names none. A connection of another node is not answered. Where memory runs out some of the names are
/// given up, and the sink has a front of the acknowledgements. Logarithmic in what is held, for each name.
pub fn unsubscribe<S: Sink>(
    alloc: Global,
    subs: &mut Subs,
    node: usize,
    conn: ConnId,
    kind: Kind,
    names: &[Blob],
    out: &mut S,
) -> Result<(), Memory>
    ensures subs { OnOk result (subs.new
        ≡ with_held_by subs.old (connection_of conn) (after_unsubscribe kind (held_in subs.old (connection_of conn)) names.now)) }
    ensures emitted { OnOk result (out.new
        ≡ all_after S.after out.old
        (for_node node (replies_to (connection_of conn) (unsubscribe_replies kind (held_in subs.old (connection_of conn)) names.now)))) }
    ensures partly { OnErr result ((n : ℕ) × (out.new
        ≡ all_after S.after out.old
        (take n (for_node node (replies_to (connection_of conn) (unsubscribe_replies kind (held_in subs.old (connection_of conn)) names.now)))))) }
{
    match names {
        [] => unsubscribe_held(alloc, subs, node, conn, kind, out),
        [_, ..] => unsubscribe_names(alloc, subs, node, conn, kind, names, out),
    }
}

// Each of these names.
fn unsubscribe_names<S: Sink>(
    alloc: Global,
    subs: &mut Subs,
    node: usize,
    conn: ConnId,
    kind: Kind,
    names: &[Blob],
    out: &mut S,
) -> Result<(), Memory>
    ensures subs { OnOk result (subs.new
        ≡ with_held_by subs.old (connection_of conn) (fold (unsubscribed kind) (held_in subs.old (connection_of conn)) names.now)) }
    ensures emitted { OnOk result (out.new
        ≡ all_after S.after out.old
        (for_node node (replies_to (connection_of conn)
        (acknowledged_all (unsubscribed kind) (messages.unsubscribe_verb kind) (held_in subs.old (connection_of conn)) names.now)))) }
    ensures partly { OnErr result ((n : ℕ) × (out.new
        ≡ all_after S.after out.old
        (take n (for_node node (replies_to (connection_of conn)
        (acknowledged_all (unsubscribed kind) (messages.unsubscribe_verb kind) (held_in subs.old (connection_of conn)) names.now)))))) }
{
    // As in `subscribe`.
    subs.count(conn);
    for name in names {
        unsubscribe_next(alloc, subs, node, conn, kind, name, out)?;
    }
    Ok(())
}

// Each name that is held, or the one answer where none is.
fn unsubscribe_held<S: Sink>(
    alloc: Global,
    subs: &mut Subs,
    node: usize,
    conn: ConnId,
    kind: Kind,
    out: &mut S,
) -> Result<(), Memory>
    ensures subs { OnOk result (subs.new
        ≡ with_held_by subs.old (connection_of conn) (with_held kind [] (held_in subs.old (connection_of conn)))) }
    ensures emitted { OnOk result (out.new
        ≡ all_after S.after out.old
        (for_node node (replies_to (connection_of conn)
        (unsubscribe_all kind (held_in subs.old (connection_of conn)) (held kind (held_in subs.old (connection_of conn))))))) }
    ensures partly { OnErr result ((n : ℕ) × (out.new
        ≡ all_after S.after out.old
        (take n (for_node node (replies_to (connection_of conn)
        (unsubscribe_all kind (held_in subs.old (connection_of conn)) (held kind (held_in subs.old (connection_of conn))))))))) }
{
    let count = subs.count(conn);
    if subs.first(conn, kind).is_none() {
        let verb = unsubscribe_verb(kind);
        let name = Shown::Owned(Reply::NullBulk);
        return acknowledge(alloc, node, conn, verb, name, count, out);
    }
    unsubscribe_each(alloc, subs, node, conn, kind, out)
}

// Each name that is held, the least first.
fn unsubscribe_each<S: Sink>(
    alloc: Global,
    subs: &mut Subs,
    node: usize,
    conn: ConnId,
    kind: Kind,
    out: &mut S,
) -> Result<(), Memory>
    requires { with_held_by subs.old (connection_of conn) (held_in subs.old (connection_of conn)) ≡ subs.old }
    ensures subs { OnOk result (subs.new
        ≡ with_held_by subs.old (connection_of conn) (with_held kind [] (held_in subs.old (connection_of conn)))) }
    ensures emitted { OnOk result (out.new
        ≡ all_after S.after out.old
        (for_node node (replies_to (connection_of conn)
        (acknowledged_all (unsubscribed kind) (messages.unsubscribe_verb kind) (held_in subs.old (connection_of conn))
        (held kind (held_in subs.old (connection_of conn))))))) }
    ensures partly { OnErr result ((n : ℕ) × (out.new
        ≡ all_after S.after out.old
        (take n (for_node node (replies_to (connection_of conn)
        (acknowledged_all (unsubscribed kind) (messages.unsubscribe_verb kind) (held_in subs.old (connection_of conn))
        (held kind (held_in subs.old (connection_of conn))))))))) }
{
    while unsubscribe_first(alloc, subs, node, conn, kind, out)? {}
    Ok(())
}

// The least name that is held. Whether there was one.
fn unsubscribe_first<S: Sink>(
    alloc: Global,
    subs: &mut Subs,
    node: usize,
    conn: ConnId,
    kind: Kind,
    out: &mut S,
) -> Result<bool, Memory>
    ensures given_up { IfOk result (λ more. IsGivenUp S.after node (connection_of conn) kind subs.old subs.new out.old out.new more) }
    ensures unchanged { OnErr result (out.new ≡ out.old) }
{
    let Some(first) = subs.first(conn, kind) else {
        return Ok(false);
    };
    let name = first.copy()?;
    unsubscribe_next(alloc, subs, node, conn, kind, &name, out)?;
    Ok(true)
}

// One name less.
fn unsubscribe_next<S: Sink>(
    alloc: Global,
    subs: &mut Subs,
    node: usize,
    conn: ConnId,
    kind: Kind,
    name: &Blob,
    out: &mut S,
) -> Result<(), Memory>
    ensures subs { OnOk result (subs.new ≡ with_held_by subs.old (connection_of conn) (unsubscribed kind (held_in subs.old (connection_of conn)) name.now)) }
    ensures emitted { OnOk result (out.new
        ≡ all_after S.after out.old
        (for_node node (replies_to (connection_of conn)
        (acknowledged_all (unsubscribed kind) (messages.unsubscribe_verb kind) (held_in subs.old (connection_of conn)) (name.now ∷ []))))) }
    ensures unchanged { OnErr result (out.new ≡ out.old) }
{
    let count = subs.unsubscribe(conn, kind, name);
    let verb = unsubscribe_verb(kind);
    acknowledge(
        alloc,
        node,
        conn,
        verb,
        Shown::Bulk(name.bytes()),
        count,
        out,
    )?;
    Ok(())
}

fn subscribe_verb(kind: Kind) -> &'static [u8]
    ensures { result.now ≡ messages.subscribe_verb kind }
{
    match kind {
        Kind::Channels => b"subscribe",
        Kind::Patterns => b"psubscribe",
    }
}

fn unsubscribe_verb(kind: Kind) -> &'static [u8]
    ensures { result.now ≡ messages.unsubscribe_verb kind }
{
    match kind {
        Kind::Channels => b"unsubscribe",
        Kind::Patterns => b"punsubscribe",
    }
}

// Answers one word, where its connection is the node's.
fn acknowledge<S: Sink>(
    alloc: Global,
    node: usize,
    conn: ConnId,
    verb: &[u8],
    name: Shown<'_>,
    count: usize,
    out: &mut S,
) -> Result<(), Memory>
    ensures emitted { OnOk result (out.new
        ≡ all_after S.after out.old (for_node node (replies_to (connection_of conn) (counted verb.now (shown_reply name.entry) count ∷ [])))) }
    ensures unchanged { OnErr result (out.new ≡ out.old) }
{
    if conn.node != node {
        return Ok(());
    }
    let reply = acknowledgement(alloc, verb, name, count)?;
    out.put(conn, Shown::Owned(reply))?;
    Ok(())
}

fn acknowledgement(
    alloc: Global,
    verb: &[u8],
    name: Shown<'_>,
    count: usize,
) -> Result<Reply, Memory>
    ensures { IfOk result (λ reply. reply_of reply ≡ counted verb.now (shown_reply name.entry) count) }
{
    let verb = Reply::Bulk(Blob::from_slice(alloc, verb)?);
    let name = name.into_reply(alloc)?;
    let count = count_reply(count)?;
    Ok(Reply::array(Vec::from_array(alloc, [verb, name, count])?))
}
