// A sorted set: members with scores in order, in a block or in a tree, and beside it, once there are many, a hashed map of the same, kept in step.
ghost use Rattle.std.specs.Prelude.{◌≡◌, ◌↔◌, ◌<◌, ◌^◌, IsTrue, IfOk};
ghost use Rattle.std.specs.FinMap as finmap;

use crate::form::Form;
use crate::index::ScoreMap;
use nr_blob::{Blob, Memory};
use std::alloc::Global;
use std::hash::RandomState;
use std::marker::Model;

mod counted;
mod edits;
mod places;
mod ranges;

/// A sorted set, as a key holds it. It is seen as a finite map from members to scores. Up to 128 members of at most 64 bytes stand in one block, in
/// their order. More or longer ones make a tree, which stays, and more than 128 a map beside it, which stays too: where there is no map, a member is
/// found by a look at each of them. To drop the set is linear in its members.
///
/// In a block a member takes its bytes, two more for lengths, and of its score's 64 bits the bytes that aren't 0 from the highest on. Each call walks a
/// block from its front: what is logarithmic in a tree is linear in the at most 128 members of a block.
#[derive(Drop)]
pub struct Zset {
    // Copies, the map, and what is put into a form are made with it: a form hands its own out to nobody.
    alloc: Global,
    index: ScoreMap,
    form: Form,
}

impl Model for Zset {
    ghost use Rattle.nr_model.specs.SortedSets.{Scores, coded_scores};
    ghost use Rattle.nr_zsets.specs.Forms.{items_of};
    ghost use Rattle.nr_zsets.specs.Scores.{scores_of, IsSorted};

    ghost Value = { Scores };

    ghost coded = { coded_scores };

    ghost view = { λ z. scores_of (items_of z.form) };

    ghost invariant = { λ z. IsSorted z.index (items_of z.form) };
}

impl Zset {
    /// The empty sorted set, which finds its members by these keys. It takes no memory.
    pub fn new(alloc: Global, keys: RandomState) -> Zset
        ensures { result ≡ finmap.empty }
    {
        Zset {
            alloc,
            index: ScoreMap::new(keys),
            form: Form::new(alloc),
        }
    }

    /// How many members. Constant.
    pub fn len(&self) -> usize
        ensures len { result ≡ finmap.len self.now }
        ensures small { result < 2 ^ 63 }
    {
        self.index.len(&self.form)
    }

    pub fn is_empty(&self) -> bool
        ensures { IsTrue result ↔ (self.now ≡ finmap.empty) }
    {
        self.len() == 0
    }

    /// The score of a member. Linear in at most 128 members, and constant where there are more, or were.
    pub fn score(&self, member: &Blob) -> Option<i64>
        ensures { result ≡ finmap.get self.now member.now }
    {
        self.index.score(&self.form, member)
    }

    /// The same members and scores once more, found by the same keys. Linear in the members and their bytes.
    pub fn copy(&self) -> Result<Zset, Memory>
        ensures { IfOk result (λ copied. copied ≡ self.now) }
    {
        Ok(Zset {
            alloc: self.alloc,
            index: self.index.copy(self.alloc)?,
            form: self.form.copy(self.alloc)?,
        })
    }
}
