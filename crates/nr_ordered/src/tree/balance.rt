// Nodes over sides of unequal heights, made even by rotations. Few of the nodes that are built need one: those calls stand apart, and the others
// are inlined, so that sides aren't copied from call to call at each level of a tree.
ghost use Rattle.std.specs.Prelude.{◌≡◌, ◌+◌, ◌^◌, ◌<◌, ◌≤◌, max, length, true};
ghost use Rattle.nr_ordered.specs.Trees.{counted, DifferByAtMost, IsSettled, IsNear, Settles};

use super::{Link, Tree, TreeNode, apart};
use std::mem;

// The node over these sides.
#[inline(always)]
fn over(left: Tree, mut node: Box<TreeNode>, right: Tree) -> Box<TreeNode>
    ensures left { result.value.left ≡ left }
    ensures right { result.value.right ≡ right }
    ensures block { result.value.block ≡ node.value.block }
{
    node.left = left;
    node.right = right;
    node
}

// A node over sides of which neither is more than one level higher.
#[inline(always)]
pub(super) fn even(left: Tree, node: Box<TreeNode>, right: Tree) -> Link
    requires even { DifferByAtMost 1 left.1 right.1 }
    requires fits { length left.0 + length node.value.block + length right.0 < 2 ^ 64 }
    ensures { IsSettled left node.value.block right result }
{
    let height = left.height().max(right.height()) + 1;
    let count = counted(left.len() + node.block.len() + right.len());
    let node = over(left, node, right);
    Link::Fork {
        height,
        count,
        node,
    }
}

// The count that is kept of so many items.
#[inline(always)]
fn counted(items: usize) -> u32
    ensures { result ≡ counted items }
{
    items.min(u32::MAX as usize) as u32
}

// A node whose left side is two levels higher.
#[cold]
#[inline(never)]
fn lean_left(left: Tree, node: Box<TreeNode>, right: Tree) -> Link
    requires two_higher { left.1 ≡ right.1 + 2 }
    requires fits { length left.0 + length node.value.block + length right.0 < 2 ^ 64 }
    ensures { IsSettled left node.value.block right result }
{
    let Link::Fork { node: top, .. } = left.open() else {
        unreachable!()
    };
    let (outer, top, inner) = apart(top);
    if outer.height() >= inner.height() {
        return even(outer, top, Tree::close(even(inner, node, right)));
    }
    let Link::Fork { node: middle, .. } = inner.open() else {
        unreachable!()
    };
    let (low, middle, high) = apart(middle);
    let top = Tree::close(even(outer, top, low));
    even(top, middle, Tree::close(even(high, node, right)))
}

// A node whose right side is two levels higher.
#[cold]
#[inline(never)]
fn lean_right(left: Tree, node: Box<TreeNode>, right: Tree) -> Link
    requires two_higher { right.1 ≡ left.1 + 2 }
    requires fits { length left.0 + length node.value.block + length right.0 < 2 ^ 64 }
    ensures { IsSettled left node.value.block right result }
{
    let Link::Fork { node: top, .. } = right.open() else {
        unreachable!()
    };
    let (inner, top, outer) = apart(top);
    if outer.height() >= inner.height() {
        return even(Tree::close(even(left, node, inner)), top, outer);
    }
    let Link::Fork { node: middle, .. } = inner.open() else {
        unreachable!()
    };
    let (low, middle, high) = apart(middle);
    let left = Tree::close(even(left, node, low));
    even(left, middle, Tree::close(even(high, top, outer)))
}

// A node over sides of which neither is more than two levels higher.
pub(super) fn settled(left: Tree, node: Box<TreeNode>, right: Tree) -> Link
    requires near { DifferByAtMost 2 left.1 right.1 }
    requires fits { length left.0 + length node.value.block + length right.0 < 2 ^ 64 }
    ensures { IsSettled left node.value.block right result }
{
    let (l, r) = (left.height(), right.height());
    if l > r + 1 {
        return lean_left(left, node, right);
    }
    if r > l + 1 {
        return lean_right(left, node, right);
    }
    even(left, node, right)
}

// Makes a node right of which a side or the block changed: where its height stays it is counted anew, and nothing moves.
pub(super) fn settle(root: &mut Link)
    requires { IsNear root.old }
    ensures { Settles root.old root.new }
{
    let Link::Fork {
        height,
        count,
        node,
    } = root
    else {
        return;
    };
    if has_height(*height, node.left.height(), node.right.height()) {
        *count = counted(node.left.len() + node.block.len() + node.right.len());
        return;
    }
    *root = settled_root(mem::replace(root, Link::Leaf));
}

// Whether this is the height over even sides of these heights.
#[inline(always)]
fn has_height(height: u8, left: u8, right: u8) -> bool
    requires small { (left ≤ 128) × (right ≤ 128) }
    ensures height { result ≡ true → height ≡ max left right + 1 }
    ensures even { result ≡ true → DifferByAtMost 1 left right }
{
    height == left.max(right) + 1 && left <= right + 1 && right <= left + 1
}

fn settled_root(root: Link) -> Link
    requires { IsNear root }
    ensures { Settles root result }
{
    let Link::Fork { node, .. } = root else {
        return Link::Leaf;
    };
    let (left, node, right) = apart(node);
    settled(left, node, right)
}
