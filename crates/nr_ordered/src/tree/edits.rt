// Items put in and taken out, by places. An edit goes down once; where a node gets another shape it is built anew on the way back, and elsewhere counts
// alone change.
ghost use Rattle.std.specs.Prelude.{◌≡◌, ◌+◌, ◌^◌, ◌≤◌, ◌<◌, ◌++◌, ◌∷◌, [], length, IfOk, OnOk, OnErr, true, false, ◌≢◌};
ghost use Rattle.std.specs.List.{insert, remove};
ghost use Rattle.nr_ordered.specs.Lists.{renumbered};
ghost use Rattle.nr_ordered.specs.Trees.{seen, items_of, HasGrown, IsBalanced};

use super::balance::{even, settle, settled};
use super::{Link, Tree, TreeNode, apart};
use crate::block::{Block, MOST_ITEMS};
use nr_blob::Memory;
use std::alloc::Global;
use std::mem;

// How many items stay in a block that is parted: nine of ten at the end of all, where more are likely to come, and half elsewhere.
const STAY_AT_THE_END: usize = 29;

const STAY_ELSEWHERE: usize = 16;

impl Tree {
    /// Puts an item in at a place. Logarithmic, and linear in the bytes of a block. Where memory runs out nothing is changed.
    pub fn insert(
        &mut self,
        alloc: Global,
        place: usize,
        bytes: &[u8],
        number: i64,
    ) -> Result<(), Memory>
        requires { place ≤ length self.old.0 }
        ensures put { OnOk result (self.new.0 ≡ insert self.old.0 place (bytes.now, number)) }
        ensures err { OnErr result (self.new ≡ self.old) }
    {
        let len = self.len();
        one_more(len)?;
        let stay = if place == len {
            STAY_AT_THE_END
        } else {
            STAY_ELSEWHERE
        };
        self.put(alloc, place, bytes, number, stay)
    }

    // The same, and how many items stay in a block that is parted for it.
    #[cycle(putting)]
    fn put(
        &mut self,
        alloc: Global,
        place: usize,
        bytes: &[u8],
        number: i64,
        stay: usize,
    ) -> Result<(), Memory>
        requires within { place ≤ length self.old.0 }
        requires fits { length self.old.0 + 1 < 2 ^ 64 }
        requires some { 0 < stay }
        requires few { stay < 32 }
        ensures put { OnOk result (self.new.0 ≡ insert self.old.0 place (bytes.now, number)) }
        ensures err { OnErr result (self.new ≡ self.old) }
        ensures height { HasGrown self.old.1 self.new.1 }
    {
        match &mut self.root {
            Link::Leaf => {
                self.root = lone(alloc, bytes, number)?;
                return Ok(());
            }
            Link::Fork { node, .. } => put_in(alloc, node, place, bytes, number, stay)?,
        }
        settle(&mut self.root);
        Ok(())
    }

    /// Takes the item at a place out. Logarithmic, and linear in the bytes of a block.
    #[cycle(removing)]
    pub fn remove(&mut self, place: usize)
        requires { place < length self.old.0 }
        ensures items { self.new.0 ≡ remove self.old.0 place }
        ensures height { HasGrown self.new.1 self.old.1 }
    {
        if self.is_lone() {
            *self = Tree::new();
            return;
        }
        match &mut self.root {
            Link::Leaf => unreachable!(),
            Link::Fork { node, .. } => remove_in(node, place),
        }
        settle(&mut self.root);
    }

    /// Gives the item at a place another number. Logarithmic.
    #[cycle(setting)]
    pub fn set(&mut self, place: usize, number: i64)
        requires { place < length self.old.0 }
        ensures items { self.new.0 ≡ renumbered self.old.0 place number }
        ensures height { self.new.1 ≡ self.old.1 }
    {
        match &mut self.root {
            Link::Leaf => unreachable!(),
            Link::Fork { node, .. } => set_in(node, place, number),
        }
    }

    // Whether there is one item.
    fn is_lone(&self) -> bool
        ensures one { result ≡ true → (length self.now.0 ≡ 1) × (self.now.1 ≡ 1) }
        ensures more { result ≡ false → length self.now.0 ≢ 1 }
    {
        match &self.root {
            Link::Leaf => false,
            Link::Fork { node, .. } => {
                if node.block.len() > 1 {
                    return false;
                }
                if node.left.len() > 0 {
                    return false;
                }
                node.right.len() == 0
            }
        }
    }

    // With the items of a node in front of all others.
    fn with_first(self, node: Box<TreeNode>) -> Tree
        requires { length node.value.block + length self.0 < 2 ^ 64 }
        ensures items { result.0 ≡ node.value.block ++ self.0 }
        ensures height { HasGrown self.1 result.1 }
    {
        let Link::Fork { node: top, .. } = self.open() else {
            return Tree::close(even(Tree::new(), node, Tree::new()));
        };
        let (left, top, right) = apart(top);
        Tree::close(settled(left.with_first(node), top, right))
    }

    // The first node, and the tree without it.
    fn without_first(self) -> (Box<TreeNode>, Tree)
        requires { 0 < length self.0 }
        ensures items { self.0 ≡ result.0.value.block ++ result.1.0 }
        ensures fits { length self.0 < 2 ^ 64 }
        ensures height { HasGrown result.1.1 self.1 }
    {
        let Link::Fork { node: top, .. } = self.open() else {
            unreachable!()
        };
        let (left, top, right) = apart(top);
        if left.len() == 0 {
            return (top, right);
        }
        let (first, left) = left.without_first();
        (first, Tree::close(settled(left, top, right)))
    }

    // The tree without its last node, and that.
    fn without_last(self) -> (Tree, Box<TreeNode>)
        requires { 0 < length self.0 }
        ensures items { self.0 ≡ result.0.0 ++ result.1.value.block }
        ensures fits { length self.0 < 2 ^ 64 }
        ensures height { HasGrown result.0.1 self.1 }
    {
        let Link::Fork { node: top, .. } = self.open() else {
            unreachable!()
        };
        let (left, top, right) = apart(top);
        if right.len() == 0 {
            return (left, top);
        }
        let (right, last) = right.without_last();
        (Tree::close(settled(left, top, right)), last)
    }
}

// Whether there may be one more, refused at 2^64 alone.
fn one_more(len: usize) -> Result<(), Memory>
    ensures more { IfOk result (λ _. len + 1 < 2 ^ 64) }
    ensures refused { OnErr result (2 ^ 64 ≤ len + 1) }
{
    match Memory::at_last(len as u64) {
        Some(refused) => Err(refused),
        None => Ok(()),
    }
}

// Puts an item in below a node.
#[cycle(putting)]
fn put_in(
    alloc: Global,
    node: &mut TreeNode,
    place: usize,
    bytes: &[u8],
    number: i64,
    stay: usize,
) -> Result<(), Memory>
    requires within { place ≤ length (items_of node.old) }
    requires fits { length (items_of node.old) + 1 < 2 ^ 64 }
    requires some { 0 < stay }
    requires few { stay < 32 }
    ensures put { OnOk result (items_of node.new ≡ insert (items_of node.old) place (bytes.now, number)) }
    ensures err { OnErr result (node.new ≡ node.old) }
    ensures left { HasGrown node.old.left.1 node.new.left.1 }
    ensures right { HasGrown node.old.right.1 node.new.right.1 }
{
    let before = node.left.len();
    if place < before {
        node.left.put(alloc, place, bytes, number, stay)?;
        return Ok(());
    }
    let here = node.block.len();
    if place - before > here {
        node.right
            .put(alloc, place - before - here, bytes, number, stay)?;
        return Ok(());
    }
    put_here(alloc, node, place - before, bytes, number, stay)?;
    Ok(())
}

// Takes an item of a node out.
#[cycle(removing)]
fn remove_in(node: &mut TreeNode, place: usize)
    requires within { place < length (items_of node.old) }
    requires more { 1 < length (items_of node.old) }
    requires counted { length (items_of node.old) < 2 ^ 64 }
    ensures items { items_of node.new ≡ remove (items_of node.old) place }
    ensures left { HasGrown node.new.left.1 node.old.left.1 }
    ensures right { HasGrown node.new.right.1 node.old.right.1 }
{
    let before = node.left.len();
    if place < before {
        node.left.remove(place);
        return;
    }
    let here = node.block.len();
    if place - before >= here {
        node.right.remove(place - before - here);
        return;
    }
    if here > 1 {
        node.block.cut(place - before, place - before + 1);
        return;
    }
    if node.right.len() > 0 {
        fill_from_right(node);
        return;
    }
    fill_from_left(node);
}

// Puts the first block of the right side in the place of a node's own.
fn fill_from_right(node: &mut TreeNode)
    requires { 0 < length node.old.right.0 }
    ensures items { items_of node.new ≡ node.old.left.0 ++ node.old.right.0 }
    ensures left { node.new.left ≡ node.old.left }
    ensures right { HasGrown node.new.right.1 node.old.right.1 }
{
    let right = mem::replace(&mut node.right, Tree::new());
    let (first, right) = right.without_first();
    node.right = right;
    node.block = block_of(first);
}

// Puts the last block of the left side in the place of a node's own.
fn fill_from_left(node: &mut TreeNode)
    requires { 0 < length node.old.left.0 }
    ensures items { items_of node.new ≡ node.old.left.0 ++ node.old.right.0 }
    ensures left { HasGrown node.new.left.1 node.old.left.1 }
    ensures right { node.new.right ≡ node.old.right }
{
    let left = mem::replace(&mut node.left, Tree::new());
    let (left, last) = left.without_last();
    node.left = left;
    node.block = block_of(last);
}

// A node's own block.
fn block_of(node: Box<TreeNode>) -> Block
    ensures { result ≡ node.value.block }
{
    let TreeNode { block, .. } = Box::into_inner(node);
    block
}

// Gives an item of a node another number.
#[cycle(setting)]
fn set_in(node: &mut TreeNode, place: usize, number: i64)
    requires within { place < length (items_of node.old) }
    requires counted { length (items_of node.old) < 2 ^ 64 }
    ensures items { items_of node.new ≡ renumbered (items_of node.old) place number }
    ensures left { node.new.left.1 ≡ node.old.left.1 }
    ensures right { node.new.right.1 ≡ node.old.right.1 }
    ensures some { length node.new.block ≡ length node.old.block }
{
    let before = node.left.len();
    if place < before {
        node.left.set(place, number);
        return;
    }
    let here = node.block.len();
    if place - before < here {
        node.block.set(place - before, number);
        return;
    }
    node.right.set(place - before - here, number);
}

// The root of a tree of one item.
fn lone(alloc: Global, bytes: &[u8], number: i64) -> Result<Link, Memory>
    ensures balanced { IfOk result (λ root. IsBalanced root) }
    ensures items { IfOk result (λ root. seen root ≡ ((bytes.now, number) ∷ [], 1)) }
{
    let node = TreeNode::new(alloc, Block::new(alloc, bytes, number)?)?;
    Ok(even(Tree::new(), node, Tree::new()))
}

// Puts an item into a node's block, or where that is full parts it, and what is behind stands first on the right side.
fn put_here(
    alloc: Global,
    node: &mut TreeNode,
    place: usize,
    bytes: &[u8],
    number: i64,
    stay: usize,
) -> Result<(), Memory>
    requires within { place ≤ length node.old.block }
    requires fits { length node.old.block + length node.old.right.0 + 1 < 2 ^ 64 }
    requires some { 0 < stay }
    requires few { stay < 32 }
    ensures left { node.new.left ≡ node.old.left }
    ensures put { OnOk result (node.new.block ++ node.new.right.0 ≡ insert node.old.block place (bytes.now, number) ++ node.old.right.0) }
    ensures block { OnErr result (node.new.block ≡ node.old.block) }
    ensures right { OnErr result (node.new.right ≡ node.old.right) }
    ensures height { HasGrown node.old.right.1 node.new.right.1 }
{
    if node.block.len() < MOST_ITEMS {
        return node.block.insert(place, bytes, number);
    }
    let behind = split(alloc, &mut node.block, place, bytes, number, stay)?;
    let right = mem::replace(&mut node.right, Tree::new());
    node.right = right.with_first(behind);
    Ok(())
}

// Puts an item into a block that is parted for it, and gives a node of what stands behind. Both parts are copies, so that neither keeps more room than
// it needs.
fn split(
    alloc: Global,
    block: &mut Block,
    place: usize,
    bytes: &[u8],
    number: i64,
    stay: usize,
) -> Result<Box<TreeNode>, Memory>
    requires within { place ≤ length block.old }
    requires some { 0 < stay }
    requires few { stay < 32 }
    requires left { stay < length block.old }
    ensures ok { IfOk result (λ behind. block.new ++ behind.value.block ≡ insert block.old place (bytes.now, number)) }
    ensures err { OnErr result (block.new ≡ block.old) }
{
    let len = block.len();
    let mut front = block.part(alloc, 0, stay)?;
    let mut behind = block.part(alloc, stay, len)?;
    put_either(&mut front, &mut behind, place, bytes, number)?;
    let node = TreeNode::new(alloc, behind)?;
    *block = front;
    Ok(node)
}

// Puts an item into one of two blocks that stand behind one another.
fn put_either(
    front: &mut Block,
    behind: &mut Block,
    place: usize,
    bytes: &[u8],
    number: i64,
) -> Result<(), Memory>
    requires within { place ≤ length front.old + length behind.old }
    requires front { length front.old < 32 }
    requires behind { length behind.old < 32 }
    ensures { OnOk result (front.new ++ behind.new ≡ insert (front.old ++ behind.old) place (bytes.now, number)) }
{
    let stay = front.len();
    if place <= stay {
        front.insert(place, bytes, number)?;
        return Ok(());
    }
    behind.insert(place - stay, bytes, number)?;
    Ok(())
}
