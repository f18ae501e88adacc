// The two forms of a list: a few short items in one block, or a chain of blocks.
ghost use Rattle.std.specs.Prelude.{◌≡◌, ◌+◌, ◌++◌, ◌-◌, ◌^◌, ◌<◌, ◌&&◌, ◌||◌, not, true, [], ◌∷◌, length, All, IfNone, IfOk, OnOk, OnErr, is_some};
ghost use Rattle.std.specs.Option.{option_map, option_to_list};
ghost use Rattle.nr_model.specs.Strings.{range};
ghost use Rattle.nr_model.specs.Lists.{pushed, popped, item_at, index_of, place_of, with_item_at, pivot_of, inserted, seen_from, removed, places_of};
ghost use Rattle.nr_lists.specs.Small.{is_small};
ghost use Rattle.nr_lists.specs.Forms.{items_of, is_one_block};

use crate::chain::Chain;
use crate::small::Small;
use crate::walk::{Items, Walk};
use nr_blob::{Blob, Memory};
use nr_model::command::{End, Side};
use std::alloc::Global;

/// The items of a list. A block that would get too many or too long ones becomes a chain of blocks, and a chain stays one.
#[derive(Debug, Drop)]
pub(crate) enum Form {
    /// A few short items in one block.
    Small(Small),
    /// Any items.
    Large(Box<Chain>),
}

impl Form {
    /// No items. They take no memory.
    pub(crate) fn new(alloc: Global) -> Form
        ensures none { items_of result ≡ [] }
        ensures form { is_one_block result ≡ true }
    {
        Form::Small(Small::new(alloc))
    }

    /// How many items. Constant.
    pub(crate) fn len(&self) -> usize
        ensures len { result ≡ length (items_of self.now) }
        ensures small { result < 2 ^ 63 }
    {
        match self {
            Form::Small(items) => items.len(),
            Form::Large(items) => items.len(),
        }
    }

    /// Puts an item at an end. Linear in the bytes of a block that stands alone, and in those of the item elsewhere, but for growth. Where memory
    /// runs out nothing is changed.
    pub(crate) fn push(&mut self, end: End, item: Blob) -> Result<(), Memory>
        ensures ok { OnOk result (items_of self.new ≡ pushed end item (items_of self.old)) }
        ensures form { OnOk result (is_one_block self.new ≡ (is_one_block self.old && is_small (length (items_of self.old)) (length item))) }
        ensures err { OnErr result (items_of self.new ≡ items_of self.old) }
    {
        match self {
            Form::Small(items) => {
                if items.push(end, item.bytes())? {
                    return Ok(());
                }
                let mut chain = chain_of(items)?;
                chain.push(end, item)?;
                *self = Form::Large(chain);
                Ok(())
            }
            Form::Large(items) => items.push(end, item),
        }
    }

    /// Takes the item at an end out, if there is one. Linear in it, and in the bytes of a block that stands alone. Where memory runs out nothing
    /// is changed.
    pub(crate) fn pop(&mut self, end: End) -> Result<Option<Blob>, Memory>
        ensures item { IfOk result (λ item. item ≡ item_at (index_of end) (items_of self.old)) }
        ensures left { OnOk result (items_of self.new ≡ popped end (items_of self.old)) }
        ensures seen { IfOk result (λ item. seen_from end (items_of self.old) ≡ option_to_list item ++ seen_from end (items_of self.new)) }
        ensures none { IfOk result (λ item. IfNone item (length (items_of self.old) ≡ 0)) }
        ensures form { is_one_block self.new ≡ is_one_block self.old }
        ensures err { OnErr result (items_of self.new ≡ items_of self.old) }
    {
        match self {
            Form::Small(items) => items.pop(end),
            Form::Large(items) => items.pop(end),
        }
    }

    /// The item at an index.
    pub(crate) fn get(&self, index: i64) -> Option<&[u8]>
        ensures { option_map (λ item. item.now) result ≡ item_at index (items_of self.now) }
    {
        match self {
            Form::Small(items) => items.item_at(index),
            Form::Large(items) => items.get(index),
        }
    }

    /// Puts an item in the place of the one at an index, and says whether there is one. Where memory runs out nothing is changed.
    pub(crate) fn set(&mut self, index: i64, item: Blob) -> Result<bool, Memory>
        ensures found { IfOk result (λ found. found ≡ is_some (place_of (length (items_of self.old)) index)) }
        ensures items { OnOk result (items_of self.new ≡ with_item_at index item (items_of self.old)) }
        ensures form { IfOk result (λ found. is_one_block self.new ≡ (is_one_block self.old && (not found || is_small (length (items_of self.old) - 1) (length item)))) }
        ensures err { OnErr result (items_of self.new ≡ items_of self.old) }
    {
        match self {
            Form::Small(items) => {
                if let Some(found) = items.set(index, item.bytes())? {
                    return Ok(found);
                }
                let mut chain = chain_of(items)?;
                let found = chain.set(index, item)?;
                *self = Form::Large(chain);
                Ok(found)
            }
            Form::Large(items) => items.set(index, item),
        }
    }

    /// The items from one index to another, both counted, in order.
    pub(crate) fn range(&self, first: i64, last: i64) -> Items<'_>
        ensures { result ≡ range first last (items_of self.now) }
    {
        match self {
            Form::Small(items) => items.range(first, last),
            Form::Large(items) => items.range(first, last),
        }
    }

    /// Keeps the items from one index to another, both counted.
    pub(crate) fn trim(&mut self, first: i64, last: i64)
        ensures items { items_of self.new ≡ range first last (items_of self.old) }
        ensures form { is_one_block self.new ≡ is_one_block self.old }
    {
        match self {
            Form::Small(items) => items.trim(first, last),
            Form::Large(items) => items.trim(first, last),
        }
    }

    /// Puts an item beside the first pivot, and says whether there is one. Where memory runs out nothing is changed.
    pub(crate) fn insert(&mut self, side: Side, pivot: &[u8], item: Blob) -> Result<bool, Memory>
        ensures found { IfOk result (λ found. found ≡ is_some (pivot_of pivot.now (items_of self.old))) }
        ensures ok { OnOk result (items_of self.new ≡ inserted side pivot.now item (items_of self.old)) }
        ensures form { IfOk result (λ found. is_one_block self.new ≡ (is_one_block self.old && (not found || is_small (length (items_of self.old)) (length item)))) }
        ensures err { OnErr result (items_of self.new ≡ items_of self.old) }
    {
        match self {
            Form::Small(items) => {
                if let Some(found) = items.insert_beside(side, pivot, item.bytes())? {
                    return Ok(found);
                }
                let mut chain = chain_of(items)?;
                let found = chain.insert(side, pivot, item)?;
                *self = Form::Large(chain);
                Ok(found)
            }
            Form::Large(items) => items.insert(side, pivot, item),
        }
    }

    /// Takes out as many items with these bytes as a count says, and says how many there were.
    pub(crate) fn remove(&mut self, count: i64, bytes: &[u8]) -> usize
        ensures items { items_of self.new ≡ removed count bytes.now (items_of self.old) }
        ensures count { result + length (items_of self.new) ≡ length (items_of self.old) }
        ensures form { is_one_block self.new ≡ is_one_block self.old }
        ensures small { result < 2 ^ 63 }
    {
        match self {
            Form::Small(items) => items.remove(count, bytes),
            Form::Large(items) => items.remove(count, bytes),
        }
    }

    /// The places of the items with these bytes, in the order found.
    pub(crate) fn positions(
        &self,
        bytes: &[u8],
        rank: i64,
        count: usize,
        most: usize,
    ) -> Result<Vec<usize>, Memory>
        ensures places { IfOk result (λ places. places.items ≡ places_of rank count most bytes.now (items_of self.now)) }
        ensures small { IfOk result (λ places. All (λ place. place < 2 ^ 63) places.items) }
    {
        match self {
            Form::Small(items) => items.positions(bytes, rank, count, most),
            Form::Large(items) => items.positions(bytes, rank, count, most),
        }
    }

    /// The same items once more, in the form that they have. Linear in them and their bytes.
    pub(crate) fn copy(&self) -> Result<Form, Memory>
        ensures items { IfOk result (λ copied. items_of copied ≡ items_of self.now) }
        ensures form { IfOk result (λ copied. is_one_block copied ≡ is_one_block self.now) }
    {
        match self {
            Form::Small(items) => Ok(Form::Small(items.copy()?)),
            Form::Large(items) => {
                let alloc = items.allocator();
                Ok(Form::Large(Box::new(alloc, items.copy()?)?))
            }
        }
    }
}

// The items of a block as a chain of blocks. Linear in their bytes.
fn chain_of(items: &Small) -> Result<Box<Chain>, Memory>
    ensures { IfOk result (λ chain. chain.value ≡ items.now) }
{
    let alloc = items.allocator();
    let mut chain = Chain::new(alloc);
    for item in Items::new(Walk::small(items.items()), items.len()) {
        push_copy(alloc, &mut chain, item)?;
    }
    Ok(Box::new(alloc, chain)?)
}

fn push_copy(alloc: Global, chain: &mut Chain, item: &[u8]) -> Result<(), Memory>
    ensures { OnOk result (chain.new ≡ chain.old ++ item.now ∷ []) }
{
    let item = Blob::from_slice(alloc, item)?;
    chain.push(End::Right, item)?;
    Ok(())
}
