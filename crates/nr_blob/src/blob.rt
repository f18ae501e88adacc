// Owned bytes: the words of requests, the names of keys, strings and texts. They are seen as a list of bytes, and compared in byte order.
ghost use Rattle.std.specs.Prelude.{◌≡◌, ◌↔◌, ◌≤◌, [], ◌∷◌, length, Some, IsTrue, IsOk, IfOk, bytes_eq};
ghost use Rattle.std.specs.Cmp.{partial_equiv_from_equiv};
ghost use Rattle.std.specs.Cmp.Lexicographic.{slice_cmp, nat_list_eq_equiv, nat_list_cmp_total, texts_ties, texts_po};
ghost use Rattle.std.specs.Cmp.Rules.{hashing};
ghost use Rattle.std.specs.Ordering.{nat_cmp};
ghost use Rattle.std.proofs.Common.{refl, rules};
ghost use Rattle.nr_blob.specs.Stored.{stored};

use crate::memory::Memory;
use crate::order::compare;
use crate::short::Short;
use smallvec::SmallVec;
use std::alloc::Global;
use std::cmp::Ordering;
use std::hash::{Hash, Hasher};
use std::marker::Model;
use std::mem::{self, size_of};

/// The most bytes that take no block of memory: they stand in the value itself. Most names and numbers are no longer.
pub const MOST_IN_PLACE: usize = 30;

/// Bytes that are edited in place: what a `Blob` holds while it changes. Up to `MOST_IN_PLACE` take no memory here either, and to and fro
/// nothing is copied but those.
pub type Bytes = SmallVec<u8, MOST_IN_PLACE>;

/// Owned bytes: a name, a key, a value or a message. It takes 32 bytes itself.
#[derive(Debug, Drop)]
pub struct Blob {
    alloc: Global,
    store: Store,
}

const _: () = prove!(size_of::<Blob>() == 32);

impl Model for Blob {
    ghost use Rattle.std.specs.Prelude.{ℕ, List};
    ghost use Rattle.nr_blob.specs.Stored.{stored};

    ghost Value = { List ℕ };

    ghost view = { λ blob. stored blob.store };
}

// Where the bytes are. The same bytes may be in either.
#[derive(Debug, Drop)]
enum Store {
    // In the value itself.
    Here(Short),
    // In a block, which may have room for more.
    Block(Vec<u8>),
}

impl Blob {
    /// A copy of the bytes. Up to `MOST_IN_PLACE` take no memory.
    pub fn from_slice(alloc: Global, bytes: &[u8]) -> Result<Self, Memory>
        ensures copied { IfOk result (λ blob. blob ≡ bytes.now) }
        ensures in_place { length bytes.now ≤ MOST_IN_PLACE → IsOk result }
    {
        let store = if bytes.len() <= MOST_IN_PLACE {
            Store::Here(Short::of(bytes))
        } else {
            Store::Block(bytes.to_vec(alloc)?)
        };
        Ok(Blob { alloc, store })
    }

    pub fn bytes(&self) -> &[u8]
        ensures { result.now ≡ self.now }
    {
        match &self.store {
            Store::Here(short) => short.bytes(),
            Store::Block(block) => block.as_slice(),
        }
    }

    pub fn len(&self) -> usize
        ensures { result ≡ length self.now }
    {
        self.bytes().len()
    }

    pub fn is_empty(&self) -> bool
        ensures { IsTrue result ↔ (self.now ≡ []) }
    {
        self.bytes().is_empty()
    }

    /// The same bytes once more, from the allocator that these are from. Up to `MOST_IN_PLACE` take no memory.
    pub fn copy(&self) -> Result<Self, Memory>
        ensures copied { IfOk result (λ blob. blob ≡ self.now) }
        ensures in_place { length self.now ≤ MOST_IN_PLACE → IsOk result }
    {
        Blob::from_slice(self.alloc, self.bytes())
    }

    /// The allocator that the bytes are from.
    pub fn allocator(&self) -> Global {
        self.alloc
    }

    /// Takes the bytes out to be edited, without a copy of a block, and leaves none.
    pub fn take(&mut self) -> Bytes
        ensures taken { result.items ≡ self.old }
        ensures none_left { self.new ≡ [] }
    {
        let store = mem::replace(&mut self.store, Store::Here(Short::of(&[])));
        opened(self.alloc, store)
    }
}

// In place as in place, a block as a block.
fn opened(alloc: Global, store: Store) -> Bytes
    ensures { result.items ≡ stored store }
{
    match store {
        Store::Here(short) => SmallVec::from_slice(alloc, short.bytes()).unwrap(),
        Store::Block(block) => SmallVec::from_vec(block),
    }
}

/// Takes the bytes over. A block with room for more than `MOST_IN_PLACE` is kept; the bytes of a smaller one are put in place.
impl From<Vec<u8>> for Blob {
    ghost from_gives = { λ bytes blob. blob ≡ bytes.items };

    fn from(bytes: Vec<u8>) -> Self {
        let alloc = *bytes.allocator();
        let store = if bytes.capacity() <= MOST_IN_PLACE {
            Store::Here(Short::of(bytes.as_slice()))
        } else {
            Store::Block(bytes)
        };
        Blob { alloc, store }
    }
}

/// Takes the bytes over, without a copy of a block.
impl From<Bytes> for Blob {
    ghost from_gives = { λ bytes blob. blob ≡ bytes.items };

    fn from(bytes: Bytes) -> Self {
        let alloc = *bytes.allocator();
        let store = if bytes.len() <= MOST_IN_PLACE && !bytes.spilled() {
            Store::Here(Short::of(bytes.as_slice()))
        } else {
            Store::Block(bytes.into_vec().unwrap())
        };
        Blob { alloc, store }
    }
}

/// Gives the bytes back, without a copy of a block.
impl From<Blob> for Bytes {
    ghost from_gives = { λ blob bytes. bytes.items ≡ blob };

    fn from(blob: Blob) -> Self {
        let Blob { alloc, store } = blob;
        opened(alloc, store)
    }
}

impl PartialEq for Blob {
    ghost eq = { bytes_eq };

    ghost laws = { partial_equiv_from_equiv nat_list_eq_equiv };

    fn eq(&self, other: &Self) -> bool {
        self.bytes() == other.bytes()
    }
}

impl Eq for Blob {
    ghost laws = { nat_list_eq_equiv };
}

impl PartialOrd for Blob {
    ghost partial_cmp = { λ blob other. Some (slice_cmp nat_cmp blob other) };

    ghost laws = { texts_po };

    fn partial_cmp(&self, other: &Self) -> Option<Ordering> {
        Some(self.cmp(other))
    }
}

/// The order of the first bytes that differ; a front stands before what it is a front of.
impl Ord for Blob {
    ghost cmp = { slice_cmp nat_cmp };

    ghost total = { nat_list_cmp_total };

    ghost matches_partial_cmp = { λ blob other. refl };

    ghost matches_eq = { texts_ties };

    fn cmp(&self, other: &Self) -> Ordering {
        compare(self.bytes(), other.bytes())
    }
}

impl Hash for Blob {
    ghost hash_input = { λ blob. blob ∷ [] };

    ghost respects_eq = { Prim.search (hashing, rules) };

    fn hash<H: Hasher>(&self, state: &mut H) {
        state.write(self.bytes());
    }
}
