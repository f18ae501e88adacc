// Lists that are changed in place.
ghost use Rattle.std.specs.Prelude.{◌≡◌, Ok, IfOk, IfErr};
ghost use Rattle.nr_model.specs.Keyspace.{live};
ghost use Rattle.nr_model.specs.Commands.Shape.{staying};
ghost use Rattle.nr_model.specs.Commands.Reading.{fault};
ghost use Rattle.nr_model.specs.Commands.Lists as lists;
ghost use Rattle.nr_resp.specs.Done.{Performs};

use crate::stored::{Relisting, edit_items, items_at};
use crate::words::range_request;
use nr_blob::{Blob, Memory};
use nr_keyspace::{Db, Keyspace, Touched};
use nr_lists::List;
use nr_model::command::Side;
use nr_model::refused::Refused;
use nr_resp::words::{integer, is_word, three_words, two_words};
use nr_resp::{Failure, Reply};

/// `LTRIM key start end`. Linear in the items that go.
pub fn trim<T: Touched>(
    keyspace: &mut Keyspace,
    now: u64,
    database: Db,
    words: &[Blob],
    touched: &mut T,
) -> Result<Reply, Failure>
    requires { live keyspace.old now ≡ keyspace.old }
    ensures { Performs T.after result keyspace.new database touched.old touched.new
        (staying database (lists.ltrim keyspace.old database words.now)) }
{
    let request = range_request(words)?;
    let edit = KeepRange {
        first: request.first,
        last: request.last,
    };
    let Some(()) = edit_items(keyspace, now, database, request.name, edit)? else {
        return Ok(Reply::Simple("OK"));
    };
    touched.touch(database, request.name)?;
    Ok(Reply::Simple("OK"))
}

// Keeps the items from one index to another.
#[derive(Drop)]
struct KeepRange {
    first: i64,
    last: i64,
}

impl Relisting for KeepRange {
    type Given = ();

    ghost use Rattle.std.specs.Prelude.{◌≡◌};
    ghost use Rattle.nr_model.specs.Strings.{range};

    ghost edits = { λ edit old new _. new ≡ range edit.first edit.last old };

    fn edit(self, list: &mut List) -> Result<(), Memory> {
        list.trim(self.first, self.last);
        Ok(())
    }
}

/// `LSET key index item`. Linear in the blocks between the index and the nearer end, and in the bytes of its block.
pub fn set<T: Touched>(
    keyspace: &mut Keyspace,
    now: u64,
    database: Db,
    words: &[Blob],
    touched: &mut T,
) -> Result<Reply, Failure>
    requires { live keyspace.old now ≡ keyspace.old }
    ensures { Performs T.after result keyspace.new database touched.old touched.new
        (staying database (lists.lset keyspace.old database words.now)) }
{
    let SetRequest { name, index, item } = set_request(words)?;
    let Some(list) = items_at(keyspace, now, database, name)? else {
        return Err(Failure::Refused(Refused::NoSuchKey));
    };
    if !list.has(index) {
        return Err(Failure::Refused(Refused::IndexOutOfRange));
    }
    let item = item.copy()?;
    let Some(()) = edit_items(keyspace, now, database, name, ReplaceItem { index, item })? else {
        return Err(Failure::Refused(Refused::NoSuchKey));
    };
    touched.touch(database, name)?;
    Ok(Reply::Simple("OK"))
}

#[derive(Drop)]
struct SetRequest<'k> {
    name: &'k Blob,
    index: i64,
    item: &'k Blob,
}

fn set_request<'k>(words: &'k [Blob]) -> Result<SetRequest<'k>, Refused>
    ensures request { IfOk result
        (λ request. lists.set_request words.now ≡ Ok (record { name = request.name.now; index = request.index; item = request.item.now })) }
    ensures refused { IfErr result (λ why. lists.set_request words.now ≡ fault why) }
{
    let (name, index, item) = three_words(words)?;
    let index = integer(index)?;
    Ok(SetRequest { name, index, item })
}

// Puts an item in the place of the one at an index.
#[derive(Drop)]
struct ReplaceItem {
    index: i64,
    item: Blob,
}

impl Relisting for ReplaceItem {
    type Given = ();

    ghost use Rattle.std.specs.Prelude.{◌≡◌};
    ghost use Rattle.nr_model.specs.Lists.{with_item_at};

    ghost edits = { λ edit old new _. new ≡ with_item_at edit.index edit.item old };

    fn edit(self, list: &mut List) -> Result<(), Memory> {
        list.set(self.index, self.item)?;
        Ok(())
    }
}

/// `LINSERT key BEFORE | AFTER pivot item`. Linear in what is looked at and moved.
pub fn insert<T: Touched>(
    keyspace: &mut Keyspace,
    now: u64,
    database: Db,
    words: &[Blob],
    touched: &mut T,
) -> Result<Reply, Failure>
    requires { live keyspace.old now ≡ keyspace.old }
    ensures { Performs T.after result keyspace.new database touched.old touched.new
        (staying database (lists.linsert keyspace.old database words.now)) }
{
    let InsertRequest { name, insert } = insert_request(words)?;
    let Some(inserted) = edit_items(keyspace, now, database, name, insert)? else {
        return Ok(Reply::Int(0));
    };
    let Some(len) = inserted else {
        return Ok(Reply::Int(-1));
    };
    touched.touch(database, name)?;
    Ok(Reply::Int(len))
}

#[derive(Drop)]
struct InsertRequest<'k> {
    name: &'k Blob,
    insert: InsertBeside<'k>,
}

fn insert_request<'k>(words: &'k [Blob]) -> Result<InsertRequest<'k>, Refused>
    ensures request { IfOk result
        (λ request. lists.insert_request words.now ≡ Ok (record {
          name = request.name.now;
          side = request.insert.side;
          pivot = request.insert.pivot.now;
          item = request.insert.item.now;
        })) }
    ensures refused { IfErr result (λ why. lists.insert_request words.now ≡ fault why) }
{
    let [name, side, words @ ..] = words else {
        return Err(Refused::Syntax);
    };
    let side = side_of(side)?;
    let (pivot, item) = two_words(words)?;
    Ok(InsertRequest {
        name,
        insert: InsertBeside { side, pivot, item },
    })
}

fn side_of(word: &Blob) -> Result<Side, Refused>
    ensures side { IfOk result (λ side. lists.side_of word.now ≡ Ok side) }
    ensures refused { IfErr result (λ why. lists.side_of word.now ≡ fault why) }
{
    if is_word("before", word) {
        return Ok(Side::Before);
    }
    if is_word("after", word) {
        return Ok(Side::After);
    }
    Err(Refused::Syntax)
}

// Puts an item beside the first pivot, and tells how many there are then, or that there is no pivot.
#[derive(Drop)]
struct InsertBeside<'k> {
    side: Side,
    pivot: &'k Blob,
    item: &'k Blob,
}

impl<'k> Relisting for InsertBeside<'k> {
    type Given = Option<i64>;

    ghost use Rattle.std.specs.Prelude.{◌≡◌, length, pos};
    ghost use Rattle.std.specs.Option.{option_map};
    ghost use Rattle.nr_model.specs.Lists.{inserted, pivot_of};

    ghost edits = { λ edit old new given. let items = inserted edit.side edit.pivot.now edit.item.now old in
        (new ≡ items) × (given ≡ option_map (λ _. pos (length items)) (pivot_of edit.pivot.now old)) };

    fn edit(self, list: &mut List) -> Result<Option<i64>, Memory> {
        let item = self.item.copy()?;
        if !list.insert(self.side, self.pivot.bytes(), item)? {
            return Ok(None);
        }
        Ok(Some(list.len() as i64))
    }
}

/// `LREM key count item`. Linear in the items and their bytes.
pub fn remove<T: Touched>(
    keyspace: &mut Keyspace,
    now: u64,
    database: Db,
    words: &[Blob],
    touched: &mut T,
) -> Result<Reply, Failure>
    requires { live keyspace.old now ≡ keyspace.old }
    ensures { Performs T.after result keyspace.new database touched.old touched.new
        (staying database (lists.lrem keyspace.old database words.now)) }
{
    let RemoveRequest { name, remove } = remove_request(words)?;
    let Some(removed) = edit_items(keyspace, now, database, name, remove)? else {
        return Ok(Reply::Int(0));
    };
    if removed == 0 {
        return Ok(Reply::Int(0));
    }
    touched.touch(database, name)?;
    Ok(Reply::Int(removed as i64))
}

#[derive(Drop)]
struct RemoveRequest<'k> {
    name: &'k Blob,
    remove: TakeOut<'k>,
}

fn remove_request<'k>(words: &'k [Blob]) -> Result<RemoveRequest<'k>, Refused>
    ensures request { IfOk result
        (λ request. lists.remove_request words.now ≡ Ok (record { name = request.name.now; count = request.remove.count; item = request.remove.item.now })) }
    ensures refused { IfErr result (λ why. lists.remove_request words.now ≡ fault why) }
{
    let (name, count, item) = three_words(words)?;
    let count = integer(count)?;
    Ok(RemoveRequest {
        name,
        remove: TakeOut { count, item },
    })
}

// Takes as many items with these bytes out as the count takes, and tells how many there were.
#[derive(Drop)]
struct TakeOut<'k> {
    count: i64,
    item: &'k Blob,
}

impl<'k> Relisting for TakeOut<'k> {
    type Given = usize;

    ghost use Rattle.std.specs.Prelude.{◌≡◌, ◌-◌, ◌<◌, ◌^◌, length};
    ghost use Rattle.nr_model.specs.Lists.{removed};

    ghost edits = { λ edit old new given. let items = removed edit.count edit.item.now old in
        (new ≡ items) × (given ≡ length old - length items) × (given < 2 ^ 63) };

    fn edit(self, list: &mut List) -> Result<usize, Memory> {
        Ok(list.remove(self.count, self.item.bytes()))
    }
}
