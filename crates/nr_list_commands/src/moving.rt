// The commands that take an item from an end of one list to an end of another, or of the same.
ghost use Rattle.std.specs.Prelude.{◌≡◌, ◌∷◌, [], false, bytes_eq, None, Ok, Err, IfOk, IfErr, OnOk};
ghost use Rattle.nr_model.specs.Keyspace.{live, key_of, Items as list_of};
ghost use Rattle.nr_model.specs.Lists.{popped, index_of};
ghost use Rattle.nr_model.specs.Commands.Shape.{performed, staying};
ghost use Rattle.nr_model.specs.Commands.Reading.{fault};
ghost use Rattle.nr_model.specs.Commands.Held.{items_at, kept_under};
ghost use Rattle.nr_model.specs.Commands.Lists as lists;
ghost use Rattle.nr_resp.specs.Done.{Performs};
ghost use Rattle.nr_resp.specs.Failures.{IfRefused};
ghost use Rattle.nr_list_commands.specs.Relisted.{IsPushed};

use crate::popping::PopOne;
use crate::stored::{Relisting, edit_items, items_at, put_items};
use crate::words::end_of;
use nr_blob::{Blob, Memory};
use nr_keyspace::{Db, Keyspace, Touched};
use nr_lists::List;
use nr_model::command::End;
use nr_model::refused::Refused;
use nr_resp::words::two_words;
use nr_resp::{Failure, Reply};
use std::alloc::Global;

// Two keys, and the ends of their lists.
#[derive(Clone, Copy)]
struct MoveRequest<'k> {
    source: &'k Blob,
    target: &'k Blob,
    from: End,
    to: End,
}

/// `LMOVE source destination LEFT | RIGHT LEFT | RIGHT`. Linear in the item.
pub fn move_item<T: Touched>(
    alloc: Global,
    keyspace: &mut Keyspace,
    now: u64,
    database: Db,
    words: &[Blob],
    touched: &mut T,
) -> Result<Reply, Failure>
    requires { live keyspace.old now ≡ keyspace.old }
    ensures { Performs T.after result keyspace.new database touched.old touched.new
        (staying database (lists.lmove keyspace.old database words.now)) }
{
    let request = move_request(words)?;
    move_as(alloc, keyspace, now, database, request, touched)
}

/// `RPOPLPUSH source destination`. Linear in the item.
pub fn rpoplpush<T: Touched>(
    alloc: Global,
    keyspace: &mut Keyspace,
    now: u64,
    database: Db,
    words: &[Blob],
    touched: &mut T,
) -> Result<Reply, Failure>
    requires { live keyspace.old now ≡ keyspace.old }
    ensures { Performs T.after result keyspace.new database touched.old touched.new
        (staying database (lists.rpoplpush keyspace.old database words.now)) }
{
    let (source, target) = two_words(words)?;
    let request = MoveRequest {
        source,
        target,
        from: End::Right,
        to: End::Left,
    };
    move_as(alloc, keyspace, now, database, request, touched)
}

fn move_request<'k>(words: &'k [Blob]) -> Result<MoveRequest<'k>, Refused>
    ensures request { IfOk result
        (λ request. lists.move_request words.now ≡ Ok (record { source = request.source.now; target = request.target.now; from = request.from; to = request.to })) }
    ensures refused { IfErr result (λ why. lists.move_request words.now ≡ fault why) }
{
    let [source, target, words @ ..] = words else {
        return Err(Refused::Syntax);
    };
    let (from, to) = two_words(words)?;
    let from = end_of(from)?;
    let to = end_of(to)?;
    Ok(MoveRequest {
        source,
        target,
        from,
        to,
    })
}

fn move_as<'k, T: Touched>(
    alloc: Global,
    keyspace: &mut Keyspace,
    now: u64,
    database: Db,
    request: MoveRequest<'k>,
    touched: &mut T,
) -> Result<Reply, Failure>
    requires { live keyspace.old now ≡ keyspace.old }
    ensures { Performs T.after result keyspace.new database touched.old touched.new
        (staying database (lists.moved_item keyspace.old database
        (record { source = request.entry.source.now; target = request.entry.target.now; from = request.entry.from; to = request.entry.to }))) }
{
    let MoveRequest {
        source,
        target,
        from,
        to,
    } = request;
    if source == target {
        return rotate(alloc, keyspace, now, database, source, from, to, touched);
    }
    carry(
        alloc, keyspace, now, database, source, target, from, to, touched,
    )
}

// From one end of a list to the other, or back.
fn rotate<T: Touched>(
    alloc: Global,
    keyspace: &mut Keyspace,
    now: u64,
    database: Db,
    name: &Blob,
    from: End,
    to: End,
    touched: &mut T,
) -> Result<Reply, Failure>
    requires { live keyspace.old now ≡ keyspace.old }
    ensures { Performs T.after result keyspace.new database touched.old touched.new
        (staying database
        (performed keyspace.old (items_at keyspace.old database name.now) (lists.rotated keyspace.old (key_of database name.now) from to))) }
{
    let Some(rotated) = edit_items(keyspace, now, database, name, Rotation { alloc, from, to })?
    else {
        return Ok(Reply::NullBulk);
    };
    let Some(item) = rotated else {
        return Ok(Reply::NullBulk);
    };
    touched.touch(database, name)?;
    Ok(Reply::Bulk(item))
}

// Takes the item at an end to an end of the same list, and gives it once more. It is put in before it is taken out, so that it is there where
// memory runs out.
#[derive(Drop)]
struct Rotation {
    alloc: Global,
    from: End,
    to: End,
}

impl Relisting for Rotation {
    type Given = Option<Blob>;

    ghost use Rattle.std.specs.Prelude.{◌≡◌, IfSome, IfNone};
    ghost use Rattle.nr_model.specs.Lists.{pushed, popped, item_at, index_of};

    ghost edits = { λ edit old new given. (given ≡ item_at (index_of edit.from) old)
        × IfSome given (λ item. new ≡ pushed edit.to item (popped edit.from old)) × IfNone given (new ≡ old) };

    fn edit(self, list: &mut List) -> Result<Option<Blob>, Memory> {
        let Some(first) = list.get(index_of(self.from)) else {
            return Ok(None);
        };
        let shown = Blob::from_slice(self.alloc, first)?;
        let item = shown.copy()?;
        list.push(self.to, item)?;
        drop_item(list, self.from);
        Ok(Some(shown))
    }
}

// Takes the item at an end out, and lets go of it. It takes no memory.
#[tactic(auto, using(crate::proofs::Moved::first_dropped, crate::proofs::Moved::last_dropped))]
fn drop_item(list: &mut List, end: End)
    ensures { list.new ≡ popped end list.old }
{
    match end {
        End::Left => list.trim(1, -1),
        End::Right => list.trim(0, -2),
    }
}

// The index of the item at an end.
fn index_of(end: End) -> i64
    ensures { result ≡ index_of end }
{
    match end {
        End::Left => 0,
        End::Right => -1,
    }
}

// From one list to another.
fn carry<T: Touched>(
    alloc: Global,
    keyspace: &mut Keyspace,
    now: u64,
    database: Db,
    source: &Blob,
    target: &Blob,
    from: End,
    to: End,
    touched: &mut T,
) -> Result<Reply, Failure>
    requires live { live keyspace.old now ≡ keyspace.old }
    requires apart { bytes_eq source.now target.now ≡ false }
    ensures { Performs T.after result keyspace.new database touched.old touched.new
        (staying database
        (performed keyspace.old (items_at keyspace.old database source.now)
        (lists.carried keyspace.old database (record { source = source.now; target = target.now; from = from; to = to })))) }
{
    let Some(list) = items_at(keyspace, now, database, source)? else {
        return Ok(Reply::NullBulk);
    };
    if list.get(index_of(from)).is_none() {
        return Ok(Reply::NullBulk);
    }
    items_at(keyspace, now, database, target)?;
    let Some(Some(item)) = edit_items(keyspace, now, database, source, PopOne { end: from })? else {
        return Ok(Reply::NullBulk);
    };
    put_at(alloc, keyspace, now, database, target, to, &item)?;
    touched.touch(database, source)?;
    touched.touch(database, target)?;
    Ok(Reply::Bulk(item))
}

// Puts an item in at an end of the list that a key holds, or of a new one.
fn put_at(
    alloc: Global,
    keyspace: &mut Keyspace,
    now: u64,
    database: Db,
    name: &Blob,
    end: End,
    item: &Blob,
) -> Result<(), Failure>
    requires { live keyspace.old now ≡ keyspace.old }
    ensures put { OnOk result (IsPushed keyspace.old keyspace.new (key_of database name.now) (items_at keyspace.old database name.now) end item.now) }
    ensures refused { IfErr result (λ failure. IfRefused failure (λ error. items_at keyspace.old database name.now ≡ Err error)) }
{
    if edit_items(keyspace, now, database, name, PushOne { end, item })?.is_none() {
        put_alone(alloc, keyspace, database, name, item)?;
    }
    Ok(())
}

// A missing key holds an item.
fn put_alone(
    alloc: Global,
    keyspace: &mut Keyspace,
    database: Db,
    name: &Blob,
    item: &Blob,
) -> Result<(), Memory>
    requires { items_at keyspace.old database name.now ≡ Ok None }
    ensures { OnOk result (keyspace.new ≡ kept_under keyspace.old (key_of database name.now) (list_of (item.now ∷ []))) }
{
    let mut list = List::new(alloc);
    list.push(End::Left, item.copy()?)?;
    put_items(keyspace, database, name, list)?;
    Ok(())
}

// Puts an item in at an end.
#[derive(Drop)]
struct PushOne<'k> {
    end: End,
    item: &'k Blob,
}

impl<'k> Relisting for PushOne<'k> {
    type Given = ();

    ghost use Rattle.std.specs.Prelude.{◌≡◌};
    ghost use Rattle.nr_model.specs.Lists.{pushed};

    ghost edits = { λ edit old new _. new ≡ pushed edit.end edit.item.now old };

    fn edit(self, list: &mut List) -> Result<(), Memory> {
        list.push(self.end, self.item.copy()?)?;
        Ok(())
    }
}
