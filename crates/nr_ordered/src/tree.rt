// An AVL tree of blocks that knows of each side how many items stand there: a list that is read and edited by places, in logarithmic time. It knows
// no order: where an item belongs is for its owner to say.
ghost use Rattle.std.specs.Prelude.{◌≡◌, ◌+◌, ◌<◌, ◌≤◌, ◌^◌, [], length, IfOk, IsTrue, ◌↔◌};
ghost use Rattle.nr_ordered.specs.Trees.{seen, IsBalanced, IsFull};

use crate::block::Block;
use nr_blob::Memory;
use std::alloc::Global;
use std::marker::Model;
use std::mem;
pub use walks::{Cut, Test};

mod balance;
mod edits;
mod walks;

/// Items, bytes with a number, each at its place. It is seen as the list of them, and its height.
///
/// A node of the tree holds up to 32 items in one block. Of the items each takes its bytes, eight for its number and two for its length: eight for
/// that too where one of the block has 65,536 bytes or more, or had. Only `insert` and `copy` take memory.
#[cycle(tree)]
#[derive(Drop)]
pub struct Tree {
    root: Link,
}

#[cycle(tree)]
#[derive(Drop)]
enum Link {
    Leaf,
    // Its height and the count of its items stand beside the pointer: there they take no room, and a side tells them without a look at its node.
    Fork {
        height: u8,
        count: u32,
        node: Box<TreeNode>,
    },
}

// A block of items, and what stands before it and behind it.
#[cycle(tree)]
#[derive(Drop)]
struct TreeNode {
    left: Tree,
    right: Tree,
    block: Block,
}

impl Model for Tree {
    ghost use Rattle.std.specs.Prelude.{ℕ, ℤ, List, length};

    ghost Value = { List (List ℕ × ℤ) × ℕ };

    ghost use Rattle.nr_ordered.specs.Trees.{seen, IsBalanced};

    ghost view = { λ t. seen t.root };

    ghost invariant = { λ t. IsBalanced t.root };

    ghost size = { λ d. length d.0 };

    ghost use Rattle.std.proofs.Common.{arith, length-append};

    ghost size_decreases = { λ t h. Prim.grind (arith, length-append) };
}

impl TreeNode {
    // A node of its own.
    fn new(alloc: Global, block: Block) -> Result<Box<TreeNode>, Memory>
        ensures { IfOk result (λ node. node.value.block ≡ block) }
    {
        let node = TreeNode {
            left: Tree::new(),
            right: Tree::new(),
            block,
        };
        Ok(Box::new(alloc, node)?)
    }
}

impl Tree {
    /// The empty tree. It takes no memory.
    #[inline(always)]
    pub fn new() -> Tree
        ensures { result ≡ ([], 0) }
    {
        Tree { root: Link::Leaf }
    }

    #[inline(always)]
    fn height(&self) -> u8
        ensures height { result ≡ self.now.1 }
        ensures full { IsFull self.now.1 (length self.now.0) }
        ensures low { self.now.1 ≤ 128 }
    {
        match &self.root {
            Link::Leaf => 0,
            Link::Fork { height, .. } => *height,
        }
    }

    /// How many items. Constant while they are fewer than `u32::MAX`: a tree of more asks its sides, as do the few nodes in it that have as many
    /// below them.
    #[cycle(counting)]
    #[inline(always)]
    pub fn len(&self) -> usize
        ensures len { result ≡ length self.now.0 }
        ensures full { IsFull self.now.1 (length self.now.0) }
    {
        match &self.root {
            Link::Leaf => 0,
            Link::Fork { count, node, .. } => {
                if *count < u32::MAX {
                    *count as usize
                } else {
                    sides_len(&node.left, &node.block, &node.right)
                }
            }
        }
    }

    /// Whether there are none. Constant.
    pub fn is_empty(&self) -> bool
        ensures { IsTrue result ↔ (self.now.0 ≡ []) }
    {
        matches!(self.root, Link::Leaf)
    }

    /// The same items once more, each at its place. Linear in them and their bytes.
    pub fn copy(&self, alloc: Global) -> Result<Tree, Memory>
        ensures { IfOk result (λ copied. copied ≡ self.now) }
    {
        let Link::Fork {
            height,
            count,
            node,
        } = &self.root
        else {
            return Ok(Tree::new());
        };
        let copied = TreeNode {
            left: node.left.copy(alloc)?,
            right: node.right.copy(alloc)?,
            block: node.block.copy(alloc)?,
        };
        Ok(Tree::close(Link::Fork {
            height: *height,
            count: *count,
            node: Box::new(alloc, copied)?,
        }))
    }

    #[inline(always)]
    fn open(self) -> Link
        ensures same_view { seen result ≡ self }
        ensures balanced { IsBalanced result }
    {
        self.root
    }

    #[inline(always)]
    fn close(root: Link) -> Tree
        requires { IsBalanced root }
        ensures { result ≡ seen root }
    {
        Tree { root }
    }
}

// How many items two sides have, with those of the block between them.
#[cycle(counting)]
#[cold]
fn sides_len(left: &Tree, block: &Block, right: &Tree) -> usize
    requires { length left.now.0 + length block.now + length right.now.0 < 2 ^ 64 }
    ensures { result ≡ length left.now.0 + length block.now + length right.now.0 }
{
    left.len() + block.len() + right.len()
}

// A node without its sides.
#[inline(always)]
fn apart(mut node: Box<TreeNode>) -> (Tree, Box<TreeNode>, Tree)
    ensures left { result.0 ≡ node.value.left }
    ensures block { result.1.value.block ≡ node.value.block }
    ensures right { result.2 ≡ node.value.right }
{
    let left = mem::replace(&mut node.left, Tree::new());
    let right = mem::replace(&mut node.right, Tree::new());
    (left, node, right)
}
