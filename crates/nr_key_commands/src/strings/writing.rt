// Strings that are written into, in place.
ghost use Rattle.std.specs.Prelude.{◌≡◌, ◌==◌, ◌+◌, [], true, false, Ok, IfOk, OnOk, IfErr, length, nat_lt, pos};
ghost use Rattle.std.specs.FinMap as map;
ghost use Rattle.nr_model.specs.Keyspace.{live, key_of};
ghost use Rattle.nr_model.specs.Strings.{max_len, overwritten, bit_at, with_bit_at};
ghost use Rattle.nr_model.specs.Replies.{Int};
ghost use Rattle.nr_model.specs.Commands.Shape.{performed, refusal, staying};
ghost use Rattle.nr_model.specs.Commands.Reading.{fault};
ghost use Rattle.nr_model.specs.Commands.Strings as strings;
ghost use Rattle.nr_model.specs.declared.refused.Refused.TheVariants as refusals;
ghost use Rattle.nr_resp.specs.Done.{Performs};
ghost use Rattle.nr_resp.specs.Failures.{IfRefused};

use crate::strings::bits::{bit_number, bit_offset, bit_value};
use crate::strings::looks::length_at;
use crate::strings::stored::owned;
use nr_blob::{Blob, Memory};
use nr_keyspace::{Db, Keyspace, OnString, StringEdit, Touched, Value};
use nr_model::refused::Refused;
use nr_resp::words::{integer, three_words, two_words};
use nr_resp::{Failure, Reply};
use nr_strings::{MAX_LEN, Str};
use std::alloc::Global;

// Whether so many bytes and so many more are more than a string may have.
fn is_too_long(len: usize, more: usize) -> bool
    ensures { result ≡ nat_lt max_len (len + more) }
{
    len as u128 + more as u128 > MAX_LEN as u128
}

/// `APPEND key value`
pub fn append<T: Touched>(
    keyspace: &mut Keyspace,
    now: u64,
    database: Db,
    words: &[Blob],
    touched: &mut T,
) -> Result<Reply, Failure>
    requires { live keyspace.old now ≡ keyspace.old }
    ensures { Performs T.after result keyspace.new database touched.old touched.new
        (staying database (strings.append keyspace.old database words.now)) }
{
    let (name, text) = two_words(words)?;
    append_at(keyspace, now, database, name, text, touched)
}

fn append_at<T: Touched>(
    keyspace: &mut Keyspace,
    now: u64,
    database: Db,
    name: &Blob,
    text: &Blob,
    touched: &mut T,
) -> Result<Reply, Failure>
    requires { live keyspace.old now ≡ keyspace.old }
    ensures { Performs T.after result keyspace.new database touched.old touched.new
        (staying database
        (performed keyspace.old (strings.text_at keyspace.old database name.now)
        (λ old. strings.append_at keyspace.old (key_of database name.now) (strings.or_empty old) text.now))) }
{
    let bytes = text.bytes();
    let edit = Suffix { bytes };
    let edited = keyspace.edit(now, database, name, OnString { edit })?;
    let length = match edited {
        Some(length) => length?,
        None => put_text(keyspace, database, name, text)?,
    };
    touched.touch(database, name)?;
    Ok(Reply::Int(length))
}

// Puts bytes behind a text.
#[derive(Drop)]
struct Suffix<'k> {
    bytes: &'k [u8],
}

impl<'k> StringEdit for Suffix<'k> {
    type Given = i64;

    ghost use Rattle.std.specs.Prelude.{◌≡◌, ◌+◌, ◌++◌, IfOk, IfErr, length, nat_lt, pos, true, false};
    ghost use Rattle.nr_model.specs.Strings.{max_len};
    ghost use Rattle.nr_model.specs.declared.refused.Refused.TheVariants as refusals;

    ghost edits = { λ edit old new given.
        let is_too_long = nat_lt max_len (length old + length edit.bytes.now) in
        IfOk given (λ n. (is_too_long ≡ false) × (n ≡ pos (length old + length edit.bytes.now)) × (new ≡ old ++ edit.bytes.now))
        × IfErr given (λ why. (is_too_long ≡ true) × (why ≡ refusals.TooLong)) };

    fn edit(self, text: &mut Str) -> Result<Result<i64, Refused>, Memory> {
        let len = text.bytes().len();
        if is_too_long(len, self.bytes.len()) {
            return Ok(Err(Refused::TooLong));
        }
        text.append(self.bytes)?;
        Ok(Ok((len + self.bytes.len()) as i64))
    }
}

// A missing key becomes a text. Gives its length.
fn put_text(keyspace: &mut Keyspace, database: Db, name: &Blob, text: &Blob) -> Result<i64, Failure>
    ensures short { OnOk result (nat_lt max_len (length text.now) ≡ false) }
    ensures length { IfOk result (λ n. n ≡ pos (length text.now)) }
    ensures put { OnOk result (keyspace.new ≡ map.insert keyspace.old (key_of database name.now) (strings.plain text.now)) }
    ensures refused { IfErr result
        (λ failure. IfRefused failure (λ error. (nat_lt max_len (length text.now) ≡ true) × (error ≡ refusal refusals.TooLong) × (keyspace.new ≡ keyspace.old))) }
{
    let len = text.bytes().len();
    if is_too_long(0, len) {
        return Err(Failure::Refused(Refused::TooLong));
    }
    keyspace.put(database, name.copy()?, Value::from(owned(text)?), None)?;
    Ok(len as i64)
}

/// `SETRANGE key offset value`
pub fn set_range<T: Touched>(
    alloc: Global,
    keyspace: &mut Keyspace,
    now: u64,
    database: Db,
    words: &[Blob],
    touched: &mut T,
) -> Result<Reply, Failure>
    requires { live keyspace.old now ≡ keyspace.old }
    ensures { Performs T.after result keyspace.new database touched.old touched.new
        (staying database (strings.set_range keyspace.old database words.now)) }
{
    let SetRangeRequest { name, range } = set_range_request(words)?;
    if range.bytes.is_empty() {
        return Ok(length_at(keyspace, now, database, name)?);
    }
    overwrite(alloc, keyspace, now, database, name, range, touched)
}

#[derive(Drop)]
struct SetRangeRequest<'k> {
    name: &'k Blob,
    range: Range<'k>,
}

fn set_range_request<'k>(words: &'k [Blob]) -> Result<SetRangeRequest<'k>, Refused>
    ensures request { IfOk result (λ request. strings.set_range_request words.now
        ≡ Ok (record { name = request.name.now; offset = request.range.offset; text = request.range.bytes.now })) }
    ensures refused { IfErr result (λ why. strings.set_range_request words.now ≡ fault why) }
{
    let (name, offset, text) = three_words(words)?;
    let offset = offset_of(integer(offset)?)?;
    let bytes = text.bytes();
    Ok(SetRangeRequest {
        name,
        range: Range { offset, bytes },
    })
}

fn offset_of(offset: i64) -> Result<usize, Refused>
    ensures offset { IfOk result (λ n. strings.offset_of offset ≡ Ok n) }
    ensures refused { IfErr result (λ why. strings.offset_of offset ≡ fault why) }
{
    if offset < 0 {
        return Err(Refused::OffsetOutOfRange);
    }
    Ok(offset as usize)
}

fn overwrite<'k, T: Touched>(
    alloc: Global,
    keyspace: &mut Keyspace,
    now: u64,
    database: Db,
    name: &Blob,
    range: Range<'k>,
    touched: &mut T,
) -> Result<Reply, Failure>
    requires live { live keyspace.old now ≡ keyspace.old }
    requires some { (length range.bytes.now == 0) ≡ false }
    ensures { Performs T.after result keyspace.new database touched.old touched.new
        (staying database
        (performed keyspace.old (strings.text_at keyspace.old database name.now)
        (λ old. strings.set_range_at keyspace.old (key_of database name.now) range.entry.offset range.entry.bytes.now (strings.or_empty old)))) }
{
    let edited = keyspace.edit(now, database, name, OnString { edit: range })?;
    let length = match edited {
        Some(length) => length?,
        None => put_range(alloc, keyspace, database, name, range)?,
    };
    touched.touch(database, name)?;
    Ok(Reply::Int(length))
}

// Bytes that are written over a text from an offset on.
#[derive(Clone, Copy)]
struct Range<'k> {
    offset: usize,
    bytes: &'k [u8],
}

impl<'k> StringEdit for Range<'k> {
    type Given = i64;

    ghost use Rattle.std.specs.Prelude.{◌≡◌, ◌+◌, IfOk, IfErr, length, nat_lt, pos, true, false};
    ghost use Rattle.nr_model.specs.Strings.{max_len, overwritten};
    ghost use Rattle.nr_model.specs.declared.refused.Refused.TheVariants as refusals;

    ghost edits = { λ edit old new given.
        let is_too_long = nat_lt max_len (edit.offset + length edit.bytes.now) in
        let written = overwritten edit.offset edit.bytes.now old in
        IfOk given (λ n. (is_too_long ≡ false) × (n ≡ pos (length written)) × (new ≡ written))
        × IfErr given (λ why. (is_too_long ≡ true) × (why ≡ refusals.TooLong)) };

    fn edit(self, text: &mut Str) -> Result<Result<i64, Refused>, Memory> {
        if is_too_long(self.offset, self.bytes.len()) {
            return Ok(Err(Refused::TooLong));
        }
        text.set_range(self.offset, self.bytes)?;
        Ok(Ok(text.bytes().len() as i64))
    }
}

// A missing key becomes a text with these bytes from the offset on. Gives its length.
fn put_range<'k>(
    alloc: Global,
    keyspace: &mut Keyspace,
    database: Db,
    name: &Blob,
    range: Range<'k>,
) -> Result<i64, Failure>
    ensures short { OnOk result (nat_lt max_len (range.entry.offset + length range.entry.bytes.now) ≡ false) }
    ensures length { IfOk result (λ n. n ≡ pos (length (overwritten range.entry.offset range.entry.bytes.now []))) }
    ensures put { OnOk result
        (keyspace.new ≡ map.insert keyspace.old (key_of database name.now) (strings.plain (overwritten range.entry.offset range.entry.bytes.now []))) }
    ensures refused { IfErr result (λ failure. IfRefused failure
        (λ error. (nat_lt max_len (range.entry.offset + length range.entry.bytes.now) ≡ true) × (error ≡ refusal refusals.TooLong) × (keyspace.new ≡ keyspace.old))) }
{
    if is_too_long(range.offset, range.bytes.len()) {
        return Err(Failure::Refused(Refused::TooLong));
    }
    let mut text = Str::new(alloc);
    text.set_range(range.offset, range.bytes)?;
    let len = text.bytes().len();
    keyspace.put(database, name.copy()?, Value::from(text), None)?;
    Ok(len as i64)
}

/// `SETBIT key offset value`
pub fn set_bit<T: Touched>(
    alloc: Global,
    keyspace: &mut Keyspace,
    now: u64,
    database: Db,
    words: &[Blob],
    touched: &mut T,
) -> Result<Reply, Failure>
    requires { live keyspace.old now ≡ keyspace.old }
    ensures { Performs T.after result keyspace.new database touched.old touched.new
        (staying database (strings.set_bit keyspace.old database words.now)) }
{
    let (name, bit) = set_bit_request(words)?;
    write_bit(alloc, keyspace, now, database, name, bit, touched)
}

fn set_bit_request<'k>(words: &'k [Blob]) -> Result<(&'k Blob, Bit), Refused>
    ensures request { IfOk result (λ request. strings.set_bit_request words.now
        ≡ Ok (record { name = request.0.now; offset = request.1.offset; bit = request.1.is_set })) }
    ensures refused { IfErr result (λ why. strings.set_bit_request words.now ≡ fault why) }
{
    let (name, offset, value) = three_words(words)?;
    let offset = bit_offset(offset)?;
    let is_set = bit_value(value)?;
    Ok((name, Bit { offset, is_set }))
}

fn write_bit<T: Touched>(
    alloc: Global,
    keyspace: &mut Keyspace,
    now: u64,
    database: Db,
    name: &Blob,
    bit: Bit,
    touched: &mut T,
) -> Result<Reply, Failure>
    requires { live keyspace.old now ≡ keyspace.old }
    ensures { Performs T.after result keyspace.new database touched.old touched.new
        (staying database
        (performed keyspace.old (strings.text_at keyspace.old database name.now)
        (λ old. strings.rewritten keyspace.old (key_of database name.now)
        (with_bit_at (strings.or_empty old) bit.offset bit.is_set) (strings.bit_number (bit_at (strings.or_empty old) bit.offset))))) }
{
    let edited = keyspace.edit(now, database, name, OnString { edit: bit })?;
    let was_set = match edited {
        Some(was_set) => was_set?,
        None => put_bit(alloc, keyspace, database, name, bit)?,
    };
    touched.touch(database, name)?;
    Ok(bit_number(was_set))
}

// A bit that is written into a text. The offset is in bits.
#[derive(Clone, Copy)]
struct Bit {
    offset: u32,
    is_set: bool,
}

impl StringEdit for Bit {
    type Given = bool;

    ghost use Rattle.std.specs.Prelude.{◌≡◌, Ok};
    ghost use Rattle.nr_model.specs.Strings.{bit_at, with_bit_at};

    ghost edits = { λ edit old new given. (given ≡ Ok (bit_at old edit.offset)) × (new ≡ with_bit_at old edit.offset edit.is_set) };

    fn edit(self, text: &mut Str) -> Result<Result<bool, Refused>, Memory> {
        let was_set = text.set_bit(self.offset as u64, self.is_set)?;
        Ok(Ok(was_set))
    }
}

// A missing key becomes a text with this bit. Gives what it was.
fn put_bit(
    alloc: Global,
    keyspace: &mut Keyspace,
    database: Db,
    name: &Blob,
    bit: Bit,
) -> Result<bool, Memory>
    ensures was { IfOk result (λ was. was ≡ bit_at [] bit.offset) }
    ensures put { OnOk result
        (keyspace.new ≡ map.insert keyspace.old (key_of database name.now) (strings.plain (with_bit_at [] bit.offset bit.is_set))) }
{
    let mut text = Str::new(alloc);
    let was_set = text.set_bit(bit.offset as u64, bit.is_set)?;
    keyspace.put(database, name.copy()?, Value::from(text), None)?;
    Ok(was_set)
}
