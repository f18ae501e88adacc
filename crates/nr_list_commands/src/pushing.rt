// The commands that put items in at an end.
ghost use Rattle.std.specs.Prelude.{◌≡◌, ◌<◌, [], Ok, IfOk, IfErr, OnOk, None, length, pos};
ghost use Rattle.nr_model.specs.Keyspace.{live, key_of, Items as list_of};
ghost use Rattle.nr_model.specs.Commands.Shape.{performed, staying};
ghost use Rattle.nr_model.specs.Commands.Reading.{fault};
ghost use Rattle.nr_model.specs.Commands.Held.{items_at, kept_under};
ghost use Rattle.nr_model.specs.Commands.Lists as lists;
ghost use Rattle.nr_resp.specs.Done.{Performs};

use crate::stored::{Relisting, edit_items, put_items};
use nr_blob::{Blob, Memory};
use nr_keyspace::{Db, Keyspace, Touched};
use nr_lists::List;
use nr_model::command::End;
use nr_model::refused::Refused;
use nr_resp::{Failure, Reply};
use std::alloc::Global;

/// `LPUSH key item [item ..]`, `RPUSH key item [item ..]`. Linear in the items that are put in.
pub fn push<T: Touched>(
    alloc: Global,
    end: End,
    keyspace: &mut Keyspace,
    now: u64,
    database: Db,
    words: &[Blob],
    touched: &mut T,
) -> Result<Reply, Failure>
    requires { live keyspace.old now ≡ keyspace.old }
    ensures { Performs T.after result keyspace.new database touched.old touched.new
        (staying database (lists.push end keyspace.old database words.now)) }
{
    let (name, items) = push_request(words)?;
    let len = match edit_items(keyspace, now, database, name, PushItems { end, items })? {
        Some(len) => len,
        None => put_pushed(alloc, keyspace, database, name, end, items)?,
    };
    touched.touch(database, name)?;
    Ok(Reply::Int(len))
}

/// `LPUSHX key item [item ..]`, `RPUSHX key item [item ..]`. Linear in the items that are put in.
pub fn push_x<T: Touched>(
    end: End,
    keyspace: &mut Keyspace,
    now: u64,
    database: Db,
    words: &[Blob],
    touched: &mut T,
) -> Result<Reply, Failure>
    requires { live keyspace.old now ≡ keyspace.old }
    ensures { Performs T.after result keyspace.new database touched.old touched.new
        (staying database (lists.push_x end keyspace.old database words.now)) }
{
    let (name, items) = push_request(words)?;
    let Some(len) = edit_items(keyspace, now, database, name, PushItems { end, items })? else {
        return Ok(Reply::Int(0));
    };
    touched.touch(database, name)?;
    Ok(Reply::Int(len))
}

// The key, and at least one item.
fn push_request<'k>(words: &'k [Blob]) -> Result<(&'k Blob, &'k [Blob]), Refused>
    ensures request { IfOk result (λ request. lists.push_request words.now ≡ Ok (request.0.now, request.1.now)) }
    ensures some { IfOk result (λ request. 0 < length request.1.now) }
    ensures refused { IfErr result (λ why. lists.push_request words.now ≡ fault why) }
{
    let Some((name, items)) = words.split_first() else {
        return Err(Refused::Syntax);
    };
    if items.is_empty() {
        return Err(Refused::Syntax);
    }
    Ok((name, items))
}

// Puts items in at an end, one by one, and tells how many there are then.
#[derive(Drop)]
struct PushItems<'k> {
    end: End,
    items: &'k [Blob],
}

impl<'k> Relisting for PushItems<'k> {
    type Given = i64;

    ghost use Rattle.std.specs.Prelude.{◌≡◌, length, pos};
    ghost use Rattle.nr_model.specs.Commands.Lists.{pushed_all};

    ghost edits = { λ edit old new given. let items = pushed_all edit.end edit.items.now old in (new ≡ items) × (given ≡ pos (length items)) };

    fn edit(self, list: &mut List) -> Result<i64, Memory> {
        push_each(list, self.end, self.items)?;
        Ok(list.len() as i64)
    }
}

fn push_each(list: &mut List, end: End, items: &[Blob]) -> Result<(), Memory>
    ensures { OnOk result (list.new ≡ lists.pushed_all end items.now list.old) }
{
    for item in items {
        list.push(end, item.copy()?)?;
    }
    Ok(())
}

// A missing key holds the items. Gives how many they are.
#[tactic(auto, using(crate::proofs::Pushed::some_pushed))]
fn put_pushed(
    alloc: Global,
    keyspace: &mut Keyspace,
    database: Db,
    name: &Blob,
    end: End,
    items: &[Blob],
) -> Result<i64, Memory>
    requires missing { items_at keyspace.old database name.now ≡ Ok None }
    requires some { 0 < length items.now }
    ensures len { IfOk result (λ len. len ≡ pos (length (lists.pushed_all end items.now []))) }
    ensures put { OnOk result (keyspace.new ≡ kept_under keyspace.old (key_of database name.now) (list_of (lists.pushed_all end items.now []))) }
{
    let mut list = List::new(alloc);
    push_each(&mut list, end, items)?;
    let len = list.len() as i64;
    put_items(keyspace, database, name, list)?;
    Ok(len)
}
