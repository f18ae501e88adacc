// The blocks of a list, one after another.
ghost use Rattle.std.specs.Prelude.{◌≡◌, ℕ, ◌≤◌, ◌<◌, ◌+◌, ◌-◌, ◌^◌, ◌++◌, [], ◌∷◌, length, take, drop, slice_set, slice_get, IfOk, OnOk, OnErr, IfNone, IsSome, if◌then◌else◌};
ghost use Rattle.std.specs.Bool.{OnTrue, OnFalse};
ghost use Rattle.std.specs.List.{remove};
ghost use Rattle.std.specs.Option.{option_map, option_to_list};
ghost use Rattle.nr_model.specs.Bytes.{Bytes};
ghost use Rattle.nr_model.specs.Lists.{pushed, seen_from};
ghost use Rattle.nr_lists.specs.Packed.{joined, has_room};
ghost use Rattle.nr_lists.specs.Blocks.{block_at, before, behind};

use crate::block::{Block, MOST_LEN};
use nr_blob::{Blob, Memory};
use nr_model::command::End;
use std::collections::VecDeque;

/// Where the item at a place stands: a block, and its place there. Linear in the blocks between it and the nearer end.
pub(crate) fn find(blocks: &VecDeque<Block>, len: usize, place: usize) -> (usize, usize)
    requires len { len ≡ length (joined blocks.now.items) }
    requires place { place < len }
    ensures block { result.0 < length blocks.now.items }
    ensures place { result.1 < length (block_at blocks.now.items result.0) }
    ensures whole { place ≡ length (joined (take result.0 blocks.now.items)) + result.1 }
{
    if place < len - place {
        find_from_first(blocks, place)
    } else {
        find_from_last(blocks, len - place)
    }
}

// Where the item stands that has so many in front of it.
fn find_from_first(blocks: &VecDeque<Block>, before: usize) -> (usize, usize)
    requires { before < length (joined blocks.now.items) }
    ensures block { result.0 < length blocks.now.items }
    ensures place { result.1 < length (block_at blocks.now.items result.0) }
    ensures whole { before ≡ length (joined (take result.0 blocks.now.items)) + result.1 }
{
    let mut block = 0;
    let mut place = before;
    while blocks[block].len() <= place {
        place -= blocks[block].len();
        block += 1;
    }
    (block, place)
}

// Where the item stands from which on there are so many.
fn find_from_last(blocks: &VecDeque<Block>, behind: usize) -> (usize, usize)
    requires some { 0 < behind }
    requires within { behind ≤ length (joined blocks.now.items) }
    ensures block { result.0 < length blocks.now.items }
    ensures place { result.1 < length (block_at blocks.now.items result.0) }
    ensures whole { length (joined blocks.now.items) - behind ≡ length (joined (take result.0 blocks.now.items)) + result.1 }
{
    let mut block = blocks.len() - 1;
    let mut left = behind;
    while blocks[block].len() < left {
        left -= blocks[block].len();
        block -= 1;
    }
    (block, blocks[block].len() - left)
}

/// Puts an item in at a place. Linear in the bytes of the block and the blocks that move; a block that is full is split in two. Where memory runs
/// out the items stay as they are.
pub(crate) fn insert(
    blocks: &mut VecDeque<Block>,
    block: usize,
    place: usize,
    item: Blob,
) -> Result<(), Memory>
    requires block { block < length blocks.old.items }
    requires place { place ≤ length (block_at blocks.old.items block) }
    ensures ok { OnOk result (joined blocks.new.items ≡ before blocks.old.items block place ++ item ∷ behind blocks.old.items block place) }
    ensures err { OnErr result (joined blocks.new.items ≡ joined blocks.old.items) }
{
    if insert_inside(blocks, block, place, item.bytes())? {
        return Ok(());
    }
    if blocks[block].len() == 1 || item.len() > MOST_LEN {
        insert_alone(blocks, block, place, item)?;
        return Ok(());
    }
    insert_halved(blocks, block, place, item)?;
    Ok(())
}

// Puts an item in at a place, once the block there is split in two.
fn insert_halved(
    blocks: &mut VecDeque<Block>,
    block: usize,
    place: usize,
    item: Blob,
) -> Result<(), Memory>
    requires block { block < length blocks.old.items }
    requires more { 1 < length (block_at blocks.old.items block) }
    requires place { place ≤ length (block_at blocks.old.items block) }
    ensures ok { OnOk result (joined blocks.new.items ≡ before blocks.old.items block place ++ item ∷ behind blocks.old.items block place) }
    ensures err { OnErr result (joined blocks.new.items ≡ joined blocks.old.items) }
{
    let half = blocks[block].len() / 2;
    split(blocks, block, half)?;
    if place <= half {
        insert_there(blocks, block, place, item)?;
        return Ok(());
    }
    insert_there(blocks, block + 1, place - half, item)?;
    Ok(())
}

// Puts an item in at a place, in a block of its own where the one there has no room.
fn insert_there(
    blocks: &mut VecDeque<Block>,
    block: usize,
    place: usize,
    item: Blob,
) -> Result<(), Memory>
    requires block { block < length blocks.old.items }
    requires place { place ≤ length (block_at blocks.old.items block) }
    ensures ok { OnOk result (joined blocks.new.items ≡ before blocks.old.items block place ++ item ∷ behind blocks.old.items block place) }
    ensures err { OnErr result (joined blocks.new.items ≡ joined blocks.old.items) }
{
    if insert_inside(blocks, block, place, item.bytes())? {
        return Ok(());
    }
    insert_alone(blocks, block, place, item)?;
    Ok(())
}

// Puts an item into a block that has room, and says whether it has.
fn insert_inside(
    blocks: &mut VecDeque<Block>,
    block: usize,
    place: usize,
    item: &[u8],
) -> Result<bool, Memory>
    requires block { block < length blocks.old.items }
    requires place { place ≤ length (block_at blocks.old.items block) }
    ensures put { IfOk result (λ done. OnTrue done
        (joined blocks.new.items ≡ before blocks.old.items block place ++ item.now ∷ behind blocks.old.items block place)) }
    ensures same { IfOk result (λ done. OnFalse done (blocks.new.items ≡ blocks.old.items)) }
    ensures room { let held = block_at blocks.old.items block in IfOk result (λ done. done ≡ has_room (length held) (length (joined held)) (length item.now)) }
    ensures err { OnErr result (blocks.new.items ≡ blocks.old.items) }
{
    let done = blocks[block].insert(place, item)?;
    Ok(done)
}

// Puts an item into a block of its own.
fn insert_alone(
    blocks: &mut VecDeque<Block>,
    block: usize,
    place: usize,
    item: Blob,
) -> Result<(), Memory>
    requires block { block < length blocks.old.items }
    requires place { place ≤ length (block_at blocks.old.items block) }
    ensures ok { OnOk result (joined blocks.new.items ≡ before blocks.old.items block place ++ item ∷ behind blocks.old.items block place) }
    ensures err { OnErr result (joined blocks.new.items ≡ joined blocks.old.items) }
{
    let alone = Block::new(*blocks.allocator(), item)?;
    if place == 0 {
        blocks.insert(block, alone)?;
        return Ok(());
    }
    part(blocks, block, place)?;
    blocks.insert(block + 1, alone)?;
    Ok(())
}

// Has a block end at a place that is not its beginning.
fn part(blocks: &mut VecDeque<Block>, block: usize, place: usize) -> Result<(), Memory>
    requires block { block < length blocks.old.items }
    requires some { 0 < place }
    requires place { place ≤ length (block_at blocks.old.items block) }
    ensures first { OnOk result (joined (take (block + 1) blocks.new.items) ≡ before blocks.old.items block place) }
    ensures others { OnOk result (joined (drop (block + 1) blocks.new.items) ≡ behind blocks.old.items block place) }
    ensures block { OnOk result (block < length blocks.new.items) }
    ensures err { OnErr result (joined blocks.new.items ≡ joined blocks.old.items) }
{
    if place == blocks[block].len() {
        return Ok(());
    }
    split(blocks, block, place)?;
    Ok(())
}

// Splits a block in two at a place inside it.
fn split(blocks: &mut VecDeque<Block>, block: usize, place: usize) -> Result<(), Memory>
    requires block { block < length blocks.old.items }
    requires some { 0 < place }
    requires place { place < length (block_at blocks.old.items block) }
    ensures ok { OnOk result (blocks.new.items ≡ take block blocks.old.items ++ (take place (block_at blocks.old.items block)
        ∷ (drop place (block_at blocks.old.items block) ∷ drop (block + 1) blocks.old.items))) }
    ensures err { OnErr result (blocks.new.items ≡ blocks.old.items) }
{
    let others = blocks[block].copy_from(place)?;
    blocks.insert(block + 1, others)?;
    cut(blocks, block, place);
    Ok(())
}

// Takes the items of a block from a place on out, and lets go of their room.
fn cut(blocks: &mut VecDeque<Block>, block: usize, place: usize)
    requires block { block < length blocks.old.items }
    requires some { 0 < place }
    requires place { place ≤ length (block_at blocks.old.items block) }
    ensures { blocks.new.items ≡ slice_set blocks.old.items block (take place (block_at blocks.old.items block)) }
{
    let len = blocks[block].len();
    blocks[block].cut(place, len);
    blocks[block].shrink();
}

/// Puts an item in at an end. Linear in it, but for growth, and constant elsewhere. Where memory runs out the items stay as they are.
pub(crate) fn push(blocks: &mut VecDeque<Block>, end: End, item: Blob) -> Result<(), Memory>
    ensures ok { OnOk result (joined blocks.new.items ≡ pushed end item (joined blocks.old.items)) }
    ensures err { OnErr result (joined blocks.new.items ≡ joined blocks.old.items) }
{
    match end {
        End::Left => push_first(blocks, item)?,
        End::Right => push_last(blocks, item)?,
    }
    Ok(())
}

fn push_first(blocks: &mut VecDeque<Block>, item: Blob) -> Result<(), Memory>
    ensures ok { OnOk result (joined blocks.new.items ≡ item ∷ joined blocks.old.items) }
    ensures err { OnErr result (joined blocks.new.items ≡ joined blocks.old.items) }
{
    if push_first_inside(blocks, item.bytes())? {
        return Ok(());
    }
    let alone = Block::new(*blocks.allocator(), item)?;
    reserve_first(blocks)?;
    blocks.push_front(alone)?;
    Ok(())
}

// Puts an item into the first block, and says whether there is one with room.
fn push_first_inside(blocks: &mut VecDeque<Block>, item: &[u8]) -> Result<bool, Memory>
    ensures put { IfOk result (λ done. OnTrue done (joined blocks.new.items ≡ item.now ∷ joined blocks.old.items)) }
    ensures same { IfOk result (λ done. OnFalse done (blocks.new.items ≡ blocks.old.items)) }
    ensures err { OnErr result (blocks.new.items ≡ blocks.old.items) }
{
    if blocks.is_empty() {
        return Ok(false);
    }
    if insert_inside(blocks, 0, 0, item)? {
        return Ok(true);
    }
    blocks[0].shrink();
    Ok(false)
}

fn push_last(blocks: &mut VecDeque<Block>, item: Blob) -> Result<(), Memory>
    ensures ok { OnOk result (joined blocks.new.items ≡ joined blocks.old.items ++ item ∷ []) }
    ensures err { OnErr result (joined blocks.new.items ≡ joined blocks.old.items) }
{
    if push_last_inside(blocks, item.bytes())? {
        return Ok(());
    }
    let alone = Block::new(*blocks.allocator(), item)?;
    reserve_first(blocks)?;
    blocks.push_back(alone)?;
    Ok(())
}

// Puts an item into the last block, and says whether there is one with room.
fn push_last_inside(blocks: &mut VecDeque<Block>, item: &[u8]) -> Result<bool, Memory>
    ensures put { IfOk result (λ done. OnTrue done (joined blocks.new.items ≡ joined blocks.old.items ++ item.now ∷ [])) }
    ensures same { IfOk result (λ done. OnFalse done (blocks.new.items ≡ blocks.old.items)) }
    ensures err { OnErr result (blocks.new.items ≡ blocks.old.items) }
{
    if blocks.is_empty() {
        return Ok(false);
    }
    let last = blocks.len() - 1;
    let len = blocks[last].len();
    if insert_inside(blocks, last, len, item)? {
        return Ok(true);
    }
    blocks[last].shrink();
    Ok(false)
}

// Makes room for the first of blocks, and for no more.
fn reserve_first(blocks: &mut VecDeque<Block>) -> Result<(), Memory>
    ensures { blocks.new.items ≡ blocks.old.items }
{
    if blocks.is_empty() {
        blocks.reserve_exact(1)?;
    }
    Ok(())
}

/// Takes the item at an end out, if there is one. Linear in it, and where it stands alone its bytes are not copied. Where memory runs out the
/// items stay as they are.
pub(crate) fn pop(blocks: &mut VecDeque<Block>, end: End) -> Result<Option<Blob>, Memory>
    ensures item { IfOk result (λ item. seen_from end (joined blocks.old.items) ≡ option_to_list item ++ seen_from end (joined blocks.new.items)) }
    ensures none { IfOk result (λ item. IfNone item (joined blocks.old.items ≡ [])) }
    ensures err { OnErr result (joined blocks.new.items ≡ joined blocks.old.items) }
{
    let item = match end {
        End::Left => pop_first(blocks)?,
        End::Right => pop_last(blocks)?,
    };
    Ok(item)
}

fn pop_first(blocks: &mut VecDeque<Block>) -> Result<Option<Blob>, Memory>
    ensures item { IfOk result (λ item. joined blocks.old.items ≡ option_to_list item ++ joined blocks.new.items) }
    ensures none { IfOk result (λ item. IfNone item (joined blocks.old.items ≡ [])) }
    ensures err { OnErr result (joined blocks.new.items ≡ joined blocks.old.items) }
{
    if blocks.is_empty() {
        return Ok(None);
    }
    if blocks[0].len() == 1 {
        return Ok(take_first_block(blocks));
    }
    let alloc = *blocks.allocator();
    let item = blocks[0].take_first(alloc)?;
    Ok(Some(item))
}

// Takes the first block out, which has one item.
fn take_first_block(blocks: &mut VecDeque<Block>) -> Option<Blob>
    requires some { 0 < length blocks.old.items }
    requires one { length (block_at blocks.old.items 0) ≡ 1 }
    ensures item { joined blocks.old.items ≡ option_to_list result ++ joined blocks.new.items }
    ensures some { IsSome result }
{
    let block = blocks.pop_front()?;
    Some(block.into_item())
}

fn pop_last(blocks: &mut VecDeque<Block>) -> Result<Option<Blob>, Memory>
    ensures item { IfOk result (λ item. joined blocks.old.items ≡ joined blocks.new.items ++ option_to_list item) }
    ensures none { IfOk result (λ item. IfNone item (joined blocks.old.items ≡ [])) }
    ensures err { OnErr result (joined blocks.new.items ≡ joined blocks.old.items) }
{
    if blocks.is_empty() {
        return Ok(None);
    }
    let last = blocks.len() - 1;
    if blocks[last].len() == 1 {
        return Ok(take_last_block(blocks));
    }
    let alloc = *blocks.allocator();
    let item = blocks[last].take_last(alloc)?;
    Ok(Some(item))
}

// Takes the last block out, which has one item.
fn take_last_block(blocks: &mut VecDeque<Block>) -> Option<Blob>
    requires some { 0 < length blocks.old.items }
    requires one { length (block_at blocks.old.items (length blocks.old.items - 1)) ≡ 1 }
    ensures item { joined blocks.old.items ≡ joined blocks.new.items ++ option_to_list result }
    ensures some { IsSome result }
{
    let block = blocks.pop_back()?;
    Some(block.into_item())
}

/// Puts an item in the place of the one there. Linear in the bytes of the block and the blocks that move. Where memory runs out the items stay
/// as they are.
pub(crate) fn replace(
    blocks: &mut VecDeque<Block>,
    block: usize,
    place: usize,
    item: Blob,
) -> Result<(), Memory>
    requires block { block < length blocks.old.items }
    requires place { place < length (block_at blocks.old.items block) }
    requires fits { place + 1 < 2 ^ 64 }
    ensures ok { OnOk result (joined blocks.new.items ≡ before blocks.old.items block place ++ item ∷ drop 1 (behind blocks.old.items block place)) }
    ensures err { OnErr result (joined blocks.new.items ≡ joined blocks.old.items) }
{
    if replace_inside(blocks, block, place, item.bytes())? {
        return Ok(());
    }
    replace_alone(blocks, block, place, item)?;
    Ok(())
}

// Puts an item in the place of another in a block that has room, and says whether it has.
fn replace_inside(
    blocks: &mut VecDeque<Block>,
    block: usize,
    place: usize,
    item: &[u8],
) -> Result<bool, Memory>
    requires block { block < length blocks.old.items }
    requires place { place < length (block_at blocks.old.items block) }
    ensures put { IfOk result (λ done. OnTrue done
        (joined blocks.new.items ≡ before blocks.old.items block place ++ item.now ∷ drop 1 (behind blocks.old.items block place))) }
    ensures same { IfOk result (λ done. OnFalse done (blocks.new.items ≡ blocks.old.items)) }
    ensures err { OnErr result (blocks.new.items ≡ blocks.old.items) }
{
    let done = blocks[block].replace(place, item)?;
    Ok(done)
}

// Puts an item into a block of its own, in the place of another.
fn replace_alone(
    blocks: &mut VecDeque<Block>,
    block: usize,
    place: usize,
    item: Blob,
) -> Result<(), Memory>
    requires block { block < length blocks.old.items }
    requires place { place < length (block_at blocks.old.items block) }
    requires fits { place + 1 < 2 ^ 64 }
    ensures ok { OnOk result (joined blocks.new.items ≡ before blocks.old.items block place ++ item ∷ drop 1 (behind blocks.old.items block place)) }
    ensures err { OnErr result (joined blocks.new.items ≡ joined blocks.old.items) }
{
    let alone = Block::new(*blocks.allocator(), item)?;
    part(blocks, block, place + 1)?;
    blocks.insert(block + 1, alone)?;
    drop_last_of(blocks, block);
    Ok(())
}

// Takes the last item of a block out, and the block where it has no other.
fn drop_last_of(blocks: &mut VecDeque<Block>, block: usize)
    requires { block < length blocks.old.items }
    ensures { joined blocks.new.items ≡ (let first = joined (take (block + 1) blocks.old.items) in take (length first - 1) first)
        ++ joined (drop (block + 1) blocks.old.items) }
{
    let len = blocks[block].len();
    if len == 1 {
        remove_block(blocks, block);
        return;
    }
    blocks[block].cut(len - 1, len);
}

fn remove_block(blocks: &mut VecDeque<Block>, block: usize)
    requires { block < length blocks.old.items }
    ensures { blocks.new.items ≡ remove blocks.old.items block }
{
    blocks.remove(block);
}

/// Keeps so many items from the front, at least one. Linear in what is taken out.
pub(crate) fn truncate(blocks: &mut VecDeque<Block>, len: usize, end: usize)
    requires len { len ≡ length (joined blocks.old.items) }
    requires some { 0 < end }
    requires within { end ≤ len }
    ensures { joined blocks.new.items ≡ take end (joined blocks.old.items) }
{
    let (block, place) = find(blocks, len, end - 1);
    blocks.truncate(block + 1);
    cut(blocks, block, place + 1);
}

/// Takes so many items from the front out, and leaves others. Linear in what is taken out.
pub(crate) fn skip(blocks: &mut VecDeque<Block>, len: usize, start: usize)
    requires len { len ≡ length (joined blocks.old.items) }
    requires within { start < len }
    ensures { joined blocks.new.items ≡ drop start (joined blocks.old.items) }
{
    let (block, place) = find(blocks, len, start);
    skip_blocks(blocks, block);
    blocks[0].cut(0, place);
}

fn skip_blocks(blocks: &mut VecDeque<Block>, count: usize)
    ensures { blocks.new.items ≡ drop count blocks.old.items }
{
    for _ in 0..count {
        blocks.pop_front();
    }
}

/// The same blocks once more. Linear in the items and their bytes.
pub(crate) fn copy_each(blocks: &VecDeque<Block>) -> Result<VecDeque<Block>, Memory>
    ensures { IfOk result (λ copied. copied.items ≡ blocks.now.items) }
{
    let mut copied = VecDeque::with_capacity(*blocks.allocator(), blocks.len())?;
    for block in blocks.iter() {
        copied.push_back(block.copy()?)?;
    }
    Ok(copied)
}
