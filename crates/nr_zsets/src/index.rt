// The map from members to scores that stands beside the tree of a sorted set of many members.
ghost use Rattle.std.specs.Prelude.{◌≡◌, ◌<◌, ◌^◌, true, is_some, length, None, IfOk, IfSome, OnOk, OnErr};
ghost use Rattle.std.specs.Option.{option_map};
ghost use Rattle.std.specs.FinMap as finmap;
ghost use Rattle.nr_model.specs.SortedSets.{ranked};
ghost use Rattle.nr_zsets.specs.Forms.{items_of};
ghost use Rattle.nr_zsets.specs.Scores.{scores_of, IsIndexOf, HasRoom, IsPutAt};

use crate::form::Form;
use crate::order::Named;
use nr_blob::{Blob, Memory};
use std::alloc::Global;
use std::collections::HashMap;
use std::hash::RandomState;
use std::marker::Model;

/// The most members beside which there may be no map.
const MOST_UNMAPPED: usize = 128;

/// A hashed map from members to scores, if it was made. It is seen as that: up to 128 members need none, as a look at each of them finds one.
#[derive(Drop)]
pub(crate) struct ScoreMap {
    // The map is made with them.
    keys: RandomState,
    scores: Option<Box<HashMap<Blob, i64, RandomState>>>,
}

impl Model for ScoreMap {
    ghost use Rattle.std.specs.Prelude.{Option};
    ghost use Rattle.std.specs.Option.{option_map};
    ghost use Rattle.std.specs.Coded.{coded_option};
    ghost use Rattle.nr_model.specs.SortedSets.{Scores, coded_scores};
    ghost use Rattle.nr_zsets.specs.Scores.{scores_of};

    ghost Value = { Option Scores };

    ghost coded = { coded_option coded_scores };

    ghost view = { λ index. option_map (λ held. scores_of held.value.entries) index.scores };
}

impl ScoreMap {
    /// No map, and the keys for one. It takes no memory.
    pub(crate) fn new(keys: RandomState) -> ScoreMap
        ensures { result ≡ None }
    {
        ScoreMap { keys, scores: None }
    }

    fn is_made(&self) -> bool
        ensures { result ≡ is_some self.now }
    {
        self.scores.is_some()
    }

    /// How many members. Constant.
    pub(crate) fn len(&self, form: &Form) -> usize
        requires ordered { (items_of form.now) ≡ ranked (scores_of (items_of form.now)) }
        requires indexed { IsIndexOf self.now (items_of form.now) }
        ensures len { result ≡ finmap.len (scores_of (items_of form.now)) }
        ensures small { result < 2 ^ 63 }
    {
        match &self.scores {
            Some(scores) => scores.len(),
            None => form.len(),
        }
    }

    /// The score of a member. Linear in at most 128 members, and constant where there is a map.
    pub(crate) fn score(&self, form: &Form, member: &Blob) -> Option<i64>
        requires indexed { IsIndexOf self.now (items_of form.now) }
        ensures { result ≡ finmap.get (scores_of (items_of form.now)) member.now }
    {
        match &self.scores {
            Some(scores) => scores.get(member).copied(),
            None => score_in(form, member),
        }
    }

    /// Makes the map where one member more wants it. Where memory runs out nothing is changed.
    pub(crate) fn make_room(&mut self, alloc: Global, form: &Form) -> Result<(), Memory>
        requires indexed { IsIndexOf self.old (items_of form.now) }
        ensures ok { OnOk result (HasRoom self.new (items_of form.now)) }
        ensures err { OnErr result (self.new ≡ self.old) }
    {
        if form.len() < MOST_UNMAPPED || self.is_made() {
            return Ok(());
        }
        let scores = map_of(alloc, self.keys, form)?;
        self.scores = Some(Box::new(alloc, scores)?);
        Ok(())
    }

    /// Tells the map, if there is one, of a member. Where memory runs out nothing is changed.
    pub(crate) fn insert(&mut self, member: Blob, score: i64) -> Result<(), Memory>
        ensures ok { OnOk result (self.new ≡ option_map (λ scores. finmap.insert scores member score) self.old) }
        ensures err { OnErr result (self.new ≡ self.old) }
    {
        match &mut self.scores {
            Some(scores) => insert_into(scores, member, score),
            None => Ok(()),
        }
    }

    /// Gives a member that is there another score.
    pub(crate) fn write(&mut self, member: &Blob, score: i64)
        requires { IfSome self.old (λ scores. finmap.contains_key scores member.now ≡ true) }
        ensures { self.new ≡ option_map (λ scores. finmap.insert scores member.now score) self.old }
    {
        if let Some(scores) = &mut self.scores {
            write_to(scores, member, score);
        }
    }

    /// Takes a member out of the map, if there is one, and gives its score, which it finds as `score` does.
    pub(crate) fn take(&mut self, form: &Form, member: &Blob) -> Option<i64>
        requires indexed { IsIndexOf self.old (items_of form.now) }
        ensures was { result ≡ finmap.get (scores_of (items_of form.now)) member.now }
        ensures removed { self.new ≡ option_map (λ scores. finmap.remove scores member.now) self.old }
    {
        match &mut self.scores {
            Some(scores) => take_from(scores, member),
            None => score_in(form, member),
        }
    }

    /// Takes a member out of the map, if there is one.
    pub(crate) fn remove(&mut self, member: &Blob)
        ensures { self.new ≡ option_map (λ scores. finmap.remove scores member.now) self.old }
    {
        if let Some(scores) = &mut self.scores {
            take_from(scores, member);
        }
    }

    /// The same map once more, found by the same keys. Linear in the members and their bytes.
    pub(crate) fn copy(&self, alloc: Global) -> Result<ScoreMap, Memory>
        ensures { IfOk result (λ copied. copied ≡ self.now) }
    {
        let Some(scores) = &self.scores else {
            return Ok(ScoreMap::new(self.keys));
        };
        let copied = copy_scores(alloc, scores)?;
        Ok(ScoreMap {
            keys: self.keys,
            scores: Some(Box::new(alloc, copied)?),
        })
    }
}

// The score of a member by a look at one item after the other.
fn score_in(form: &Form, member: &Blob) -> Option<i64>
    ensures { result ≡ finmap.get (scores_of (items_of form.now)) member.now }
{
    let member = member.bytes();
    let Some((_, score)) = form.first(&Named { member }) else {
        return None;
    };
    Some(score)
}

// The map of all members of a tree.
fn map_of(
    alloc: Global,
    keys: RandomState,
    form: &Form,
) -> Result<HashMap<Blob, i64, RandomState>, Memory>
    ensures { IfOk result (λ scores. scores_of scores.entries ≡ scores_of (items_of form.now)) }
{
    let len = form.len();
    let mut scores = HashMap::with_capacity_and_hasher(alloc, len, keys)?;
    for place in (0..len).rev() {
        insert_item(&mut scores, alloc, form, place)?;
    }
    Ok(scores)
}

// Puts the member at a place into a map.
fn insert_item(
    scores: &mut HashMap<Blob, i64, RandomState>,
    alloc: Global,
    form: &Form,
    place: usize,
) -> Result<(), Memory>
    requires { place < length (items_of form.now) }
    ensures { OnOk result (IsPutAt (items_of form.now) place (scores_of scores.old.entries) (scores_of scores.new.entries)) }
{
    let Some((bytes, score)) = form.get(place) else {
        unreachable!()
    };
    let member = Blob::from_slice(alloc, bytes)?;
    insert_into(scores, member, score)
}

// Puts a member into a map, or writes its score anew.
fn insert_into(
    scores: &mut HashMap<Blob, i64, RandomState>,
    member: Blob,
    score: i64,
) -> Result<(), Memory>
    ensures ok { OnOk result (scores_of scores.new.entries ≡ finmap.insert (scores_of scores.old.entries) member score) }
    ensures err { OnErr result (scores_of scores.new.entries ≡ scores_of scores.old.entries) }
{
    scores.insert(member, score)?;
    Ok(())
}

// Writes another score to a member that is there.
fn write_to(scores: &mut HashMap<Blob, i64, RandomState>, member: &Blob, score: i64)
    requires { finmap.contains_key (scores_of scores.old.entries) member.now ≡ true }
    ensures { scores_of scores.new.entries ≡ finmap.insert (scores_of scores.old.entries) member.now score }
{
    if let Some(held) = scores.get_mut(member) {
        *held = score;
    }
}

// Takes a member out of a map.
fn take_from(scores: &mut HashMap<Blob, i64, RandomState>, member: &Blob) -> Option<i64>
    ensures was { result ≡ finmap.get (scores_of scores.old.entries) member.now }
    ensures removed { scores_of scores.new.entries ≡ finmap.remove (scores_of scores.old.entries) member.now }
{
    scores.remove(member)
}

// The same entries once more, found by the same keys.
fn copy_scores(
    alloc: Global,
    scores: &HashMap<Blob, i64, RandomState>,
) -> Result<HashMap<Blob, i64, RandomState>, Memory>
    ensures { IfOk result (λ copied. scores_of copied.entries ≡ scores_of scores.now.entries) }
{
    let mut copied = HashMap::with_capacity_and_hasher(alloc, scores.len(), *scores.hasher())?;
    for (member, score) in scores.iter() {
        copied.insert(member.copy()?, *score)?;
    }
    Ok(copied)
}
