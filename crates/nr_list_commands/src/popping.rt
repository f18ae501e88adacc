// The commands that take items out at an end.
ghost use Rattle.std.specs.Prelude.{◌≡◌, ◌<◌, ◌≤◌, ℕ, [], ◌∷◌, length, Ok, Some, None, IfOk, IfErr, OnOk, map};
ghost use Rattle.std.specs.Option.{option_map};
ghost use Rattle.nr_model.specs.Keyspace.{live, key_of};
ghost use Rattle.nr_model.specs.Replies.{Bulk, array};
ghost use Rattle.nr_model.specs.Commands.Shape.{performed, staying};
ghost use Rattle.nr_model.specs.Commands.Reading.{fault, read_options};
ghost use Rattle.nr_model.specs.Commands.Held.{items_at};
ghost use Rattle.nr_model.specs.Commands.Strings.{bulk_or_null};
ghost use Rattle.nr_model.specs.Commands.Lists as lists;
ghost use Rattle.nr_resp.specs.Seen.{reply_of};
ghost use Rattle.nr_resp.specs.Done.{Performs};
ghost use Rattle.nr_list_commands.specs.Options.{valued};
ghost use Rattle.nr_list_commands.specs.Popped.{none_popped};

use crate::stored::{Relisting, edit_items, items_at};
use crate::words::end_of;
use nr_blob::{Blob, Memory};
use nr_keyspace::{Db, Keyspace, Touched};
use nr_lists::List;
use nr_model::command::End;
use nr_model::refused::Refused;
use nr_resp::words::{is_word, natural, positive};
use nr_resp::{Failure, Reply};
use std::alloc::Global;
use std::cmp;

/// `LPOP key [count]`, `RPOP key [count]`. Linear in the items that are taken out.
pub fn pop<T: Touched>(
    alloc: Global,
    end: End,
    keyspace: &mut Keyspace,
    now: u64,
    database: Db,
    words: &[Blob],
    touched: &mut T,
) -> Result<Reply, Failure>
    requires { live keyspace.old now ≡ keyspace.old }
    ensures { Performs T.after result keyspace.new database touched.old touched.new
        (staying database (lists.pop end keyspace.old database words.now)) }
{
    let (name, count) = pop_request(end, words)?;
    match count {
        None => pop_one(end, keyspace, now, database, name, touched),
        Some(count) => pop_several(alloc, end, count, keyspace, now, database, name, touched),
    }
}

fn pop_request<'k>(end: End, words: &'k [Blob]) -> Result<(&'k Blob, Option<usize>), Refused>
    ensures request { IfOk result (λ request. lists.pop_request end words.now ≡ Ok (request.0.now, request.1)) }
    ensures refused { IfErr result (λ why. lists.pop_request end words.now ≡ fault why) }
{
    let Some((name, words)) = words.split_first() else {
        return Err(Refused::Syntax);
    };
    Ok((name, pop_count(end, words)?))
}

fn pop_count(end: End, words: &[Blob]) -> Result<Option<usize>, Refused>
    ensures count { IfOk result (λ count. lists.pop_count end words.now ≡ Ok count) }
    ensures refused { IfErr result (λ why. lists.pop_count end words.now ≡ fault why) }
{
    let Some((count, words)) = words.split_first() else {
        return Ok(None);
    };
    let count = natural(Refused::NotPositive, count)?;
    if !words.is_empty() {
        return Err(Refused::PopArity(end));
    }
    Ok(Some(count))
}

fn pop_one<T: Touched>(
    end: End,
    keyspace: &mut Keyspace,
    now: u64,
    database: Db,
    name: &Blob,
    touched: &mut T,
) -> Result<Reply, Failure>
    requires { live keyspace.old now ≡ keyspace.old }
    ensures { Performs T.after result keyspace.new database touched.old touched.new
        (staying database
        (performed keyspace.old (items_at keyspace.old database name.now) (lists.pop_at keyspace.old (key_of database name.now) end None))) }
{
    let Some(item) = edit_items(keyspace, now, database, name, PopOne { end })? else {
        return Ok(Reply::NullBulk);
    };
    touched.touch(database, name)?;
    Ok(bulk_or_null(item))
}

fn bulk_or_null(item: Option<Blob>) -> Reply
    ensures { reply_of result ≡ bulk_or_null item }
{
    match item {
        Some(item) => Reply::Bulk(item),
        None => Reply::NullBulk,
    }
}

/// Takes the item at an end out, and gives it.
#[derive(Drop)]
pub(crate) struct PopOne {
    pub(crate) end: End,
}

impl Relisting for PopOne {
    type Given = Option<Blob>;

    ghost use Rattle.std.specs.Prelude.{◌≡◌};
    ghost use Rattle.nr_model.specs.Lists.{popped, item_at, index_of};

    ghost edits = { λ edit old new given. (new ≡ popped edit.end old) × (given ≡ item_at (index_of edit.end) old) };

    fn edit(self, list: &mut List) -> Result<Option<Blob>, Memory> {
        let item = list.pop(self.end)?;
        Ok(item)
    }
}

// Takes items out, and tells nobody where it takes none.
fn pop_several<T: Touched>(
    alloc: Global,
    end: End,
    count: usize,
    keyspace: &mut Keyspace,
    now: u64,
    database: Db,
    name: &Blob,
    touched: &mut T,
) -> Result<Reply, Failure>
    requires { live keyspace.old now ≡ keyspace.old }
    ensures { Performs T.after result keyspace.new database touched.old touched.new
        (staying database
        (performed keyspace.old (items_at keyspace.old database name.now) (lists.pop_at keyspace.old (key_of database name.now) end (Some count)))) }
{
    if count == 0 {
        return Ok(none_popped(alloc, items_at(keyspace, now, database, name)?));
    }
    pop_some(alloc, end, count, keyspace, now, database, name, touched)
}

// No items of a list, and the null array of no list.
fn none_popped(alloc: Global, list: Option<&List>) -> Reply
    ensures { reply_of result ≡ none_popped (option_map (λ list. list.now) list.entry) }
{
    match list {
        Some(_) => Reply::array(Vec::new(alloc)),
        None => Reply::NullArray,
    }
}

#[tactic(auto, using(crate::proofs::Popped::some_popped))]
fn pop_some<T: Touched>(
    alloc: Global,
    end: End,
    count: usize,
    keyspace: &mut Keyspace,
    now: u64,
    database: Db,
    name: &Blob,
    touched: &mut T,
) -> Result<Reply, Failure>
    requires live { live keyspace.old now ≡ keyspace.old }
    requires some { 0 < count }
    ensures { Performs T.after result keyspace.new database touched.old touched.new
        (staying database
        (performed keyspace.old (items_at keyspace.old database name.now) (lists.pop_at keyspace.old (key_of database name.now) end (Some count)))) }
{
    let edit = Take { alloc, end, count };
    let Some(items) = edit_items(keyspace, now, database, name, edit)? else {
        return Ok(Reply::NullArray);
    };
    touched.touch(database, name)?;
    Ok(Reply::array(items))
}

// Takes up to so many items out at an end, and gives them, as replies.
#[derive(Drop)]
struct Take {
    alloc: Global,
    end: End,
    count: usize,
}

impl Relisting for Take {
    type Given = Vec<Reply>;

    ghost use Rattle.std.specs.Prelude.{◌≡◌, map};
    ghost use Rattle.nr_model.specs.Replies.{Bulk};
    ghost use Rattle.nr_model.specs.Commands.Lists as lists;
    ghost use Rattle.nr_resp.specs.Seen.{reply_of};

    ghost edits = { λ edit old new given. (new ≡ lists.without_items edit.end edit.count old)
        × (map reply_of given.items ≡ map Bulk (lists.first_items edit.end edit.count old)) };

    fn edit(self, list: &mut List) -> Result<Vec<Reply>, Memory> {
        let count = cmp::min(self.count, list.len());
        let items = take_items(self.alloc, list, self.end, count)?;
        Ok(items)
    }
}

fn take_items(alloc: Global, list: &mut List, end: End, count: usize) -> Result<Vec<Reply>, Memory>
    requires { count ≤ length list.old }
    ensures items { IfOk result (λ items. map reply_of items.items ≡ map Bulk (lists.first_items end count list.old)) }
    ensures left { OnOk result (list.new ≡ lists.without_items end count list.old) }
{
    let mut items = Vec::with_capacity(alloc, count)?;
    for _ in 0..count {
        let Some(item) = list.pop(end)? else {
            return Ok(items);
        };
        items.push(Reply::Bulk(item))?;
    }
    Ok(items)
}

/// `LMPOP numkeys key [key ..] LEFT | RIGHT [COUNT count]`. Linear in the keys that are missing, and in the items that are taken out.
pub fn pop_first<T: Touched>(
    alloc: Global,
    keyspace: &mut Keyspace,
    now: u64,
    database: Db,
    words: &[Blob],
    touched: &mut T,
) -> Result<Reply, Failure>
    requires { live keyspace.old now ≡ keyspace.old }
    ensures { Performs T.after result keyspace.new database touched.old touched.new
        (staying database (lists.lmpop keyspace.old database words.now)) }
{
    let MPopRequest { names, end, count } = mpop_request(words)?;
    let Some(name) = first_there(keyspace, now, database, names) else {
        return Ok(Reply::NullArray);
    };
    let edit = Take { alloc, end, count };
    let Some(items) = edit_items(keyspace, now, database, name, edit)? else {
        return Ok(Reply::NullArray);
    };
    touched.touch(database, name)?;
    Ok(named_items(alloc, name, items)?)
}

// The words of LMPOP.
#[derive(Drop)]
struct MPopRequest<'k> {
    names: &'k [Blob],
    end: End,
    count: usize,
}

fn mpop_request<'k>(words: &'k [Blob]) -> Result<MPopRequest<'k>, Refused>
    ensures request { IfOk result
        (λ request. lists.mpop_request words.now ≡ Ok (record { names = request.names.now; end = request.end; count = request.count })) }
    ensures refused { IfErr result (λ why. lists.mpop_request words.now ≡ fault why) }
{
    let Some((number, words)) = words.split_first() else {
        return Err(Refused::Syntax);
    };
    let number = positive(Refused::KeyCount, number)?;
    if words.len() < number {
        return Err(Refused::Syntax);
    }
    let (names, words) = words.split_at(number);
    mpop_from(names, words)
}

fn mpop_from<'k>(names: &'k [Blob], words: &[Blob]) -> Result<MPopRequest<'k>, Refused>
    ensures request { IfOk result
        (λ request. lists.mpop_from names.now words.now ≡ Ok (record { names = request.names.now; end = request.end; count = request.count })) }
    ensures refused { IfErr result (λ why. lists.mpop_from names.now words.now ≡ fault why) }
{
    let Some((word, words)) = words.split_first() else {
        return Err(Refused::Syntax);
    };
    let end = end_of(word)?;
    let count = count_options(words)?;
    Ok(MPopRequest { names, end, count })
}

// The count that options say, 1 without one.
fn count_options(words: &[Blob]) -> Result<usize, Refused>
    ensures count { IfOk result (λ count. read_options lists.count_option 1 words.now ≡ Ok count) }
    ensures refused { IfErr result (λ why. read_options lists.count_option 1 words.now ≡ fault why) }
{
    let mut count = 1;
    let mut left = words;
    while let Some((word, behind)) = left.split_first() {
        left = read_count(&mut count, word, behind)?;
    }
    Ok(count)
}

// Reads one option, and gives the words behind it.
fn read_count<'k>(count: &mut usize, word: &Blob, behind: &'k [Blob]) -> Result<&'k [Blob], Refused>
    ensures read { IfOk result (λ left. read_options lists.count_option count.old (word.now ∷ behind.now) ≡ read_options lists.count_option count.new left.now) }
    ensures refused { IfErr result (λ why. read_options lists.count_option count.old (word.now ∷ behind.now) ≡ fault why) }
    ensures fewer { IfOk result (λ left. length left.now ≤ length behind.now) }
{
    let Some((value, left)) = behind.split_first() else {
        return Err(Refused::Syntax);
    };
    *count = count_of(word, value)?;
    Ok(left)
}

// The count that COUNT says with its value.
fn count_of(word: &Blob, value: &Blob) -> Result<usize, Refused>
    ensures count { IfOk result (λ count. valued (lists.count_option 1 word.now) value.now ≡ Ok count) }
    ensures refused { IfErr result (λ why. valued (lists.count_option 1 word.now) value.now ≡ fault why) }
{
    if !is_word("count", word) {
        return Err(Refused::Syntax);
    }
    positive(Refused::CountNotPositive, value)
}

// The first key that is there.
fn first_there<'k>(
    keyspace: &Keyspace,
    now: u64,
    database: Db,
    names: &'k [Blob],
) -> Option<&'k Blob>
    ensures { option_map (λ name. name.now) result ≡ lists.first_there (live keyspace.now now) database names.now }
{
    names
        .iter()
        .find(|name| keyspace.get(now, database, name).is_some())
}

// A name and items, as an array of the two.
fn named_items(alloc: Global, name: &Blob, items: Vec<Reply>) -> Result<Reply, Memory>
    ensures { IfOk result (λ reply. reply_of reply ≡ array (Bulk name.now ∷ array (map reply_of items.items) ∷ [])) }
{
    let mut pair = Vec::with_capacity(alloc, 2)?;
    pair.push(Reply::Bulk(name.copy()?))?;
    pair.push(Reply::array(items))?;
    Ok(Reply::array(pair))
}
