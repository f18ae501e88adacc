// The two forms of a set: a few short members in one block, or a table of such blocks.
ghost use Rattle.std.specs.Prelude.{◌≡◌, ◌<◌, ◌^◌, ◌&&◌, [], length, nat_le, IfOk, OnOk, OnErr, IfSome, OnSome, IfNone, is_some, is_none, true};
ghost use Rattle.std.specs.Map.{keys_of, lookup, remove_entry};
ghost use Rattle.std.specs.BTreeMap.{insert_entry, is_at};
ghost use Rattle.std.specs.FinMap as map;
ghost use Rattle.nr_model.specs.Keyspace.{byte_cmp};
ghost use Rattle.nr_packs.specs.Packed.{entries_in};
ghost use Rattle.nr_packs.specs.Orders.{AreInOrder};
ghost use Rattle.nr_sets.specs.Forms.{entries_of, is_packed, fits, AreMembers};

use crate::members::Members;
use nr_blob::{Blob, Memory};
use nr_packs::{Packed, Table};
use std::alloc::Global;
use std::hash::RandomState;

/// The most bytes of a member in one block.
const MOST_LEN: usize = 64;

/// The most members in one block. A call searches the block from its front, where Redis hashes the words of a set of any size: in a longer block it
/// would cost more than to hash the member and to search one of a table's short blocks.
const MOST_MEMBERS: usize = 32;

/// The members of a set, with nothing at each of them. A block that would get too many or too long ones becomes a table, and a table stays one.
#[derive(Debug, Drop)]
pub(crate) enum Form {
    /// A few short members in one block.
    Packed(Packed),
    /// Any members.
    Large(Box<Table>),
}

impl Form {
    /// No members. They take no memory.
    pub(crate) fn new(alloc: Global) -> Form
        ensures none { entries_of result ≡ [] }
        ensures form { is_packed result ≡ true }
    {
        Form::Packed(Packed::new(alloc))
    }

    /// How many members. Constant.
    pub(crate) fn len(&self) -> usize
        ensures len { result ≡ length (entries_of self.now) }
        ensures small { result < 2 ^ 63 }
    {
        match self {
            Form::Packed(members) => members.len(),
            Form::Large(members) => count(members),
        }
    }

    /// Whether this is a member. Linear in the bytes of a block.
    pub(crate) fn contains(&self, member: &Blob) -> bool
        requires { AreMembers (entries_of self.now) }
        ensures { result ≡ is_some (lookup (is_at (byte_cmp member.now)) (entries_of self.now)) }
    {
        match self {
            Form::Packed(members) => stands_in(members, member.bytes()),
            Form::Large(members) => find(members, member),
        }
    }

    /// The members, in byte order. Those of a table are gathered and sorted.
    pub(crate) fn members(&self) -> Result<Members<'_>, Memory>
        ensures { IfOk result (λ members. members ≡ keys_of (entries_of self.now)) }
    {
        match self {
            Form::Packed(members) => Ok(Members::packed(members.bytes())),
            Form::Large(members) => Ok(Members::listed(members.pairs()?)),
        }
    }

    /// Puts a member in, and says whether it is new. Linear in the bytes of a block; a block that becomes a table costs as much for each of its
    /// members. Where memory runs out nothing is changed.
    pub(crate) fn insert(
        &mut self,
        alloc: Global,
        keys: RandomState,
        member: &Blob,
    ) -> Result<bool, Memory>
        requires { AreMembers (entries_of self.old) }
        ensures new { IfOk result (λ is_new. is_new ≡ is_none (lookup (is_at (byte_cmp member.now)) (entries_of self.old))) }
        ensures put { OnOk result (entries_of self.new ≡ insert_entry byte_cmp (entries_of self.old) member.now []) }
        ensures form { OnOk result (is_packed self.new ≡ (is_packed self.old && fits (length (entries_of self.new)) member.now)) }
        ensures err { OnErr result (entries_of self.new ≡ entries_of self.old) }
    {
        match self {
            Form::Packed(members) => match put_packed(alloc, members, member.bytes())? {
                Some(is_new) => Ok(is_new),
                None => {
                    let mut table = table_of(alloc, keys, members.bytes())?;
                    let is_new = put(&mut table, member)?;
                    *self = Form::Large(Box::new(alloc, table)?);
                    Ok(is_new)
                }
            },
            Form::Large(members) => put(members, member),
        }
    }

    /// Takes a member out, and says whether it was there. Linear in the bytes of a block.
    pub(crate) fn remove(&mut self, member: &Blob) -> bool
        requires { AreMembers (entries_of self.old) }
        ensures there { result ≡ is_some (lookup (is_at (byte_cmp member.now)) (entries_of self.old)) }
        ensures removed { entries_of self.new ≡ remove_entry (is_at (byte_cmp member.now)) (entries_of self.old) }
        ensures form { is_packed self.new ≡ is_packed self.old }
    {
        match self {
            Form::Packed(members) => members.remove(member.bytes()),
            Form::Large(members) => take(members, member),
        }
    }

    /// The same members once more, in the form that they have. Linear in their bytes.
    pub(crate) fn copy(&self, alloc: Global) -> Result<Form, Memory>
        ensures same { IfOk result (λ copied. entries_of copied ≡ entries_of self.now) }
        ensures form { IfOk result (λ copied. is_packed copied ≡ is_packed self.now) }
    {
        match self {
            Form::Packed(members) => Ok(Form::Packed(members.copy(alloc)?)),
            Form::Large(members) => Ok(Form::Large(Box::new(alloc, members.copy()?)?)),
        }
    }
}

// Whether a member stands in a block.
fn stands_in(members: &Packed, member: &[u8]) -> bool
    requires { AreInOrder members.now }
    ensures { result ≡ is_some (lookup (is_at (byte_cmp member.now)) members.now) }
{
    members.get(member).is_some()
}

// Whether there are few members with this one.
fn stay_few(members: &Packed, member: &[u8]) -> bool
    requires { AreInOrder members.now }
    ensures { result ≡ nat_le (length (insert_entry byte_cmp members.now member.now [])) 32 }
{
    let count = members.len();
    if count == MOST_MEMBERS {
        return stands_in(members, member);
    }
    count < MOST_MEMBERS
}

// Whether a block takes a member.
fn has_room(members: &Packed, member: &[u8]) -> bool
    requires { AreInOrder members.now }
    ensures { result ≡ fits (length (insert_entry byte_cmp members.now member.now [])) member.now }
{
    member.len() <= MOST_LEN && stay_few(members, member)
}

// Puts a member into a block, and says whether it is new; `None` where there would be more than 32 members, or this one has more than 64 bytes.
fn put_packed(alloc: Global, members: &mut Packed, member: &[u8]) -> Result<Option<bool>, Memory>
    requires { AreInOrder members.old }
    ensures new { IfOk result (λ done. IfSome done (λ is_new. is_new ≡ is_none (lookup (is_at (byte_cmp member.now)) members.old))) }
    ensures put { IfOk result (λ done. OnSome done (members.new ≡ insert_entry byte_cmp members.old member.now [])) }
    ensures refused { IfOk result (λ done. IfNone done (members.new ≡ members.old)) }
    ensures room { IfOk result (λ done. is_some done ≡ fits (length (insert_entry byte_cmp members.old member.now [])) member.now) }
    ensures err { OnErr result (members.new ≡ members.old) }
{
    if !has_room(members, member) {
        return Ok(None);
    }
    let done = members.insert(alloc, member, &[], MOST_LEN)?;
    Ok(done)
}

// The calls of a table in the words of its entries.
fn count(members: &Table) -> usize
    ensures len { result ≡ length (map.entries members.now) }
    ensures small { result < 2 ^ 63 }
{
    members.len()
}

fn find(members: &Table, member: &Blob) -> bool
    ensures { result ≡ is_some (lookup (is_at (byte_cmp member.now)) (map.entries members.now)) }
{
    members.contains(member)
}

fn put(members: &mut Table, member: &Blob) -> Result<bool, Memory>
    ensures new { IfOk result (λ is_new. is_new ≡ is_none (lookup (is_at (byte_cmp member.now)) (map.entries members.old))) }
    ensures put { OnOk result (map.entries members.new ≡ insert_entry byte_cmp (map.entries members.old) member.now []) }
    ensures err { OnErr result (map.entries members.new ≡ map.entries members.old) }
{
    let is_new = members.insert(member, &[])?;
    Ok(is_new)
}

fn take(members: &mut Table, member: &Blob) -> bool
    ensures there { result ≡ is_some (lookup (is_at (byte_cmp member.now)) (map.entries members.old)) }
    ensures removed { map.entries members.new ≡ remove_entry (is_at (byte_cmp member.now)) (map.entries members.old) }
{
    members.remove(member)
}

// The members of a block as a table.
fn table_of(alloc: Global, keys: RandomState, members: &[u8]) -> Result<Table, Memory>
    requires { AreMembers (entries_in members.now) }
    ensures { IfOk result (λ table. map.entries table ≡ entries_in members.now) }
{
    let mut table = Table::new(alloc, keys)?;
    for member in Members::packed(members) {
        put_copy(alloc, &mut table, member)?;
    }
    Ok(table)
}

fn put_copy(alloc: Global, members: &mut Table, member: &[u8]) -> Result<(), Memory>
    ensures { OnOk result (map.entries members.new ≡ insert_entry byte_cmp (map.entries members.old) member.now []) }
{
    let member = Blob::from_slice(alloc, member)?;
    put(members, &member)?;
    Ok(())
}
