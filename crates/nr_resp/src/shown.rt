// A reply on its way to a connection's buffer. What a command that only looks shows is lent by whoever holds it.
ghost use Rattle.std.specs.Prelude.{◌≡◌, ◌++◌, ℕ, List, OnOk, OnErr, IfOk, map};
ghost use Rattle.std.specs.Fmt.{signed_decimal};
ghost use Rattle.std.specs.Map.Iter.{deref};
ghost use Rattle.nr_model.specs.Replies as model;
ghost use Rattle.nr_model.specs.Replies.{reply_text};
ghost use Rattle.nr_resp.specs.Seen.{reply_of};
ghost use Rattle.nr_resp.specs.Shown.{shown_reply, item_reply};

use crate::reply::{Reply, append_bulk, append_line, append_number, write_bulk};
use nr_blob::{Blob, Memory, int_text};
use std::alloc::Global;

/// A reply as it is written: what it shows is lent where something else holds it.
#[derive(Debug, Drop)]
pub enum Shown<'a> {
    /// Bytes that something else holds, behind their length.
    Bulk(&'a [u8]),
    /// A reply that something else holds.
    Lent(&'a Reply),
    /// An array of replies, each of which shows what something else holds, or a number.
    Items(Vec<Item<'a>>),
    /// A reply that nothing else holds.
    Owned(Reply),
}

/// A reply in an array that is shown.
#[derive(Clone, Copy, Debug)]
pub enum Item<'a> {
    /// Bytes that something else holds, behind their length.
    Bulk(&'a [u8]),
    /// The text of a number, behind its length.
    Number(i64),
    /// `$-1`: no bytes.
    Null,
}

impl<'a> Shown<'a> {
    /// An array of bulks, each lent.
    pub fn bulks(alloc: Global, texts: &[&'a Blob]) -> Result<Shown<'a>, Memory>
        ensures { IfOk result (λ shown. shown_reply shown ≡ model.array (map model.Bulk (map deref texts.now))) }
    {
        let mut items = Vec::with_capacity(alloc, texts.len())?;
        for text in texts {
            items.push(Item::Bulk(text.bytes()))?;
        }
        Ok(Shown::Items(items))
    }

    /// Appends the reply's bytes, or nothing where memory runs out.
    pub fn write(&self, out: &mut Vec<u8>) -> Result<(), Memory>
        ensures ok { OnOk result (out.new.items ≡ out.old.items ++ reply_text (shown_reply self.now)) }
        ensures err { OnErr result (out.new.items ≡ out.old.items) }
    {
        match self {
            Shown::Bulk(bytes) => write_bulk(bytes, out),
            Shown::Lent(reply) => reply.write(out),
            Shown::Items(items) => write_items(items, out),
            Shown::Owned(reply) => reply.write(out),
        }
    }

    /// The reply, for an array of replies. Only what is lent is copied.
    pub fn into_reply(self, alloc: Global) -> Result<Reply, Memory>
        ensures { IfOk result (λ reply. reply_of reply ≡ shown_reply self.entry) }
    {
        match self {
            Shown::Bulk(bytes) => Ok(Reply::Bulk(Blob::from_slice(alloc, bytes)?)),
            Shown::Lent(reply) => reply.copy(),
            Shown::Items(items) => Ok(Reply::array(owned(alloc, &items)?)),
            Shown::Owned(reply) => Ok(reply),
        }
    }
}

// Each as a reply of its own.
fn owned(alloc: Global, items: &[Item<'_>]) -> Result<Vec<Reply>, Memory>
    ensures { IfOk result (λ replies. map reply_of replies.items ≡ map item_reply items.now) }
{
    let mut replies = Vec::with_capacity(alloc, items.len())?;
    for item in items {
        replies.push(owned_item(alloc, *item)?)?;
    }
    Ok(replies)
}

fn owned_item(alloc: Global, item: Item<'_>) -> Result<Reply, Memory>
    ensures { IfOk result (λ reply. reply_of reply ≡ item_reply item.entry) }
{
    match item {
        Item::Bulk(bytes) => Ok(Reply::Bulk(Blob::from_slice(alloc, bytes)?)),
        Item::Number(n) => number_bulk(alloc, n),
        Item::Null => Ok(Reply::NullBulk),
    }
}

/// The bulk of a number's text.
pub fn number_bulk(alloc: Global, n: i64) -> Result<Reply, Memory>
    ensures { IfOk result (λ reply. reply_of reply ≡ model.Bulk (signed_decimal n)) }
{
    let mut text = Vec::new(alloc);
    int_text(n, &mut text)?;
    Ok(Reply::Bulk(Blob::from(text)))
}

// Appends the array's bytes, or nothing where memory runs out.
fn write_items(items: &[Item<'_>], out: &mut Vec<u8>) -> Result<(), Memory>
    ensures ok { OnOk result (out.new.items ≡ out.old.items ++ reply_text (model.array (map item_reply items.now))) }
    ensures err { OnErr result (out.new.items ≡ out.old.items) }
{
    let before = out.len();
    let written = append_items(items, out);
    if written.is_err() {
        out.truncate(before);
    }
    written
}

fn append_items(items: &[Item<'_>], out: &mut Vec<u8>) -> Result<(), Memory>
    ensures ok { OnOk result (out.new.items ≡ out.old.items ++ reply_text (model.array (map item_reply items.now))) }
    ensures front { (rest : List ℕ) × (out.new.items ≡ out.old.items ++ rest) }
{
    append_number(b'*', items.len() as i64, out)?;
    for item in items {
        append_item(item, out)?;
    }
    Ok(())
}

fn append_item(item: &Item<'_>, out: &mut Vec<u8>) -> Result<(), Memory>
    ensures ok { OnOk result (out.new.items ≡ out.old.items ++ reply_text (item_reply item.now)) }
    ensures front { (rest : List ℕ) × (out.new.items ≡ out.old.items ++ rest) }
{
    match item {
        Item::Bulk(bytes) => append_bulk(bytes, out),
        Item::Number(n) => append_number_bulk(*n, out),
        Item::Null => append_line(b'$', b"-1", out),
    }
}

// The bulk of a number's text.
fn append_number_bulk(n: i64, out: &mut Vec<u8>) -> Result<(), Memory>
    ensures ok { OnOk result (out.new.items ≡ out.old.items ++ reply_text (model.Bulk (signed_decimal n))) }
    ensures front { (rest : List ℕ) × (out.new.items ≡ out.old.items ++ rest) }
{
    let mut text = Vec::new(*out.allocator());
    int_text(n, &mut text)?;
    append_bulk(&text, out)
}
