// Members put in, scored anew and taken out.
ghost use Rattle.std.specs.Prelude.{◌≡◌, ◌+◌, ◌-◌, ◌≤◌, ◌<◌, ◌++◌, ◌^◌, None, Some, length, map, fold, slice_get, IfOk, IsOk, OnOk, OnErr, IfSome, IfNone};
ghost use Rattle.std.specs.List.{remove};
ghost use Rattle.std.specs.Option.{option_map, option_to_list};
ghost use Rattle.std.specs.FinMap as finmap;
ghost use Rattle.nr_model.specs.SortedSets.{ranked, told_in, without};
ghost use Rattle.nr_ordered.specs.Lists.{part, shown};
ghost use Rattle.nr_zsets.specs.Forms.{items_of};
ghost use Rattle.nr_zsets.specs.Lists.{moved};

use super::Zset;
use super::places::told;
use crate::form::{Form, MOST_ITEMS};
use crate::order::Before;
use nr_blob::{Blob, Memory};
use nr_model::command::Direction;
use std::alloc::Global;

impl Zset {
    /// Gives a member this score, and says what its score was before, if it was there. Logarithmic, and linear in at most 128 members where there is
    /// no map, and where it is made. Where memory runs out nothing is changed; a member that has this score takes none.
    pub fn insert(&mut self, member: Blob, score: i64) -> Result<Option<i64>, Memory>
        ensures before { IfOk result (λ before. before ≡ finmap.get self.old member) }
        ensures ok { OnOk result (self.new ≡ finmap.insert self.old member score) }
        ensures err { OnErr result (self.new ≡ self.old) }
        ensures same { finmap.get self.old member ≡ Some score → IsOk result }
    {
        let Some(before) = self.score(&member) else {
            self.add(member, score)?;
            return Ok(None);
        };
        self.rescore(&member, before, score)?;
        Ok(Some(before))
    }

    // Puts a member in that isn't there.
    fn add(&mut self, member: Blob, score: i64) -> Result<(), Memory>
        requires { finmap.get self.old member ≡ None }
        ensures ok { OnOk result (self.new ≡ finmap.insert self.old member score) }
        ensures err { OnErr result (self.new ≡ self.old) }
    {
        self.index.make_room(self.alloc, &self.form)?;
        let bytes = member.bytes();
        let place = self.form.find(&Before {
            member: bytes,
            score,
        });
        self.form
            .insert(self.alloc, place, bytes, score, MOST_ITEMS)?;
        if let Err(why) = self.index.insert(member, score) {
            self.form.remove(place);
            return Err(why);
        }
        Ok(())
    }

    // Gives a member that is there this score.
    fn rescore(&mut self, member: &Blob, before: i64, score: i64) -> Result<(), Memory>
        requires { finmap.get self.old member.now ≡ Some before }
        ensures ok { OnOk result (self.new ≡ finmap.insert self.old member.now score) }
        ensures err { OnErr result (self.new ≡ self.old) }
        ensures same { before ≡ score → IsOk result }
    {
        if score == before {
            return Ok(());
        }
        // Each member takes memory, so that their number fits.
        let few = self.len() < usize::MAX;
        prove!(few);
        let bytes = member.bytes();
        let from = self.form.find(&Before {
            member: bytes,
            score: before,
        });
        let to = self.form.find(&Before {
            member: bytes,
            score,
        });
        move_item(self.alloc, &mut self.form, from, to, bytes, score)?;
        self.index.write(member, score);
        Ok(())
    }

    /// Takes a member out, and gives its score, if it was there. Logarithmic, and linear in at most 128 members where there is no map.
    pub fn remove(&mut self, member: &Blob) -> Option<i64>
        ensures was { result ≡ finmap.get self.old member.now }
        ensures removed { self.new ≡ finmap.remove self.old member.now }
    {
        let score = self.index.take(&self.form, member)?;
        let bytes = member.bytes();
        let place = self.form.find(&Before {
            member: bytes,
            score,
        });
        self.form.remove(place);
        Some(score)
    }

    // Takes members out, and says how many were there.
    pub(super) fn remove_each(&mut self, members: &[Blob]) -> usize
        ensures removed { self.new ≡ fold finmap.remove self.old members.now }
        ensures gone { result ≡ finmap.len self.old - finmap.len self.new }
    {
        let before = self.len();
        for member in members {
            self.remove(member);
        }
        before.saturating_sub(self.len())
    }

    // Takes the member at a place out, of which a copy is made first.
    fn take_at(&mut self, place: usize) -> Result<(Blob, i64), Memory>
        requires { place < finmap.len self.old }
        ensures item { IfOk result (λ taken. slice_get (ranked self.old) place ≡ Some taken) }
        ensures removed { IfOk result (λ taken. self.new ≡ finmap.remove self.old taken.0) }
        ensures left { OnOk result (ranked self.new ≡ remove (ranked self.old) place) }
        ensures err { OnErr result (self.new ≡ self.old) }
    {
        let Some((bytes, score)) = self.form.get(place) else {
            unreachable!()
        };
        let member = Blob::from_slice(self.alloc, bytes)?;
        self.index.remove(&member);
        self.form.remove(place);
        Ok((member, score))
    }

    /// Takes the member out that is told first in a direction, with its score, if there is one. Logarithmic. Where memory runs out nothing is
    /// changed.
    pub fn pop_first(&mut self, direction: Direction) -> Result<Option<(Blob, i64)>, Memory>
        ensures told { IfOk result (λ popped. told_in direction (ranked self.old) ≡ option_to_list popped ++ told_in direction (ranked self.new)) }
        ensures removed { IfOk result (λ popped. IfSome popped (λ item. self.new ≡ finmap.remove self.old item.0)) }
        ensures none { IfOk result (λ popped. IfNone popped (self.old ≡ finmap.empty)) }
        ensures unchanged { IfOk result (λ popped. IfNone popped (self.new ≡ self.old)) }
        ensures err { OnErr result (self.new ≡ self.old) }
    {
        let len = self.len();
        if len == 0 {
            return Ok(None);
        }
        let popped = self.take_at(told(direction, 0, len))?;
        Ok(Some(popped))
    }

    /// Takes the members from one place to another out, and says how many they are. Each goes as by `remove`. Copies of those members are made
    /// first: where memory runs out nothing is changed.
    pub fn remove_by_place(&mut self, from: usize, to: usize) -> Result<usize, Memory>
        ensures removed { OnOk result (self.new ≡ without (part from to (ranked self.old)) self.old) }
        ensures count { IfOk result (λ count. count ≡ length (part from to (ranked self.old))) }
        ensures gone { IfOk result (λ gone. gone ≡ finmap.len self.old - finmap.len self.new) }
        ensures err { OnErr result (self.new ≡ self.old) }
    {
        let members = self.members_from(from, to)?;
        Ok(self.remove_each(&members))
    }

    // Copies of the members from one place to another.
    fn members_from(&self, from: usize, to: usize) -> Result<Vec<Blob>, Memory>
        ensures { IfOk result (λ members. members.items ≡ map (λ scored. scored.0) (part from to (ranked self.now))) }
    {
        let lent = self.by_place(Direction::Ascending, from, to)?;
        members_of(self.alloc, &lent)
    }
}

// Copies of members that are lent.
pub(super) fn members_of(alloc: Global, lent: &[(&[u8], i64)]) -> Result<Vec<Blob>, Memory>
    ensures { IfOk result (λ members. members.items ≡ map (λ scored. scored.0) (map shown lent.now)) }
{
    let mut members = Vec::with_capacity(alloc, lent.len())?;
    for (bytes, _) in lent {
        members.push(Blob::from_slice(alloc, bytes)?)?;
    }
    Ok(members)
}

// Gives the member at a place another score, and brings it to another place, which is counted as the member stands now. It is put in there before it
// is taken out here; in a tree it stays where no other stands between the two places, and takes no memory. Where that runs out the members are as they
// were.
fn move_item(
    alloc: Global,
    form: &mut Form,
    from: usize,
    to: usize,
    member: &[u8],
    score: i64,
) -> Result<(), Memory>
    requires stands { option_map (λ item. item.0) (slice_get (items_of form.old) from) ≡ Some member.now }
    requires within { to ≤ length (items_of form.old) }
    requires fits { length (items_of form.old) < 2 ^ 64 }
    ensures moved { OnOk result (items_of form.new ≡ moved (items_of form.old) from to (member.now, score)) }
    ensures err { OnErr result (items_of form.new ≡ items_of form.old) }
{
    if from <= to && to <= from + 1 {
        set_item(alloc, form, from, member, score)?;
        return Ok(());
    }
    form.insert(alloc, to, member, score, MOST_ITEMS + 1)?;
    if from < to {
        form.remove(from);
        return Ok(());
    }
    form.remove(from + 1);
    Ok(())
}

// Gives the member at a place another score. In a block it is put in anew.
fn set_item(
    alloc: Global,
    form: &mut Form,
    place: usize,
    member: &[u8],
    score: i64,
) -> Result<(), Memory>
    requires stands { option_map (λ item. item.0) (slice_get (items_of form.old) place) ≡ Some member.now }
    requires fits { length (items_of form.old) < 2 ^ 64 }
    ensures moved { OnOk result (items_of form.new ≡ moved (items_of form.old) place place (member.now, score)) }
    ensures err { OnErr result (items_of form.new ≡ items_of form.old) }
{
    if form.set(place, score) {
        return Ok(());
    }
    form.insert(alloc, place, member, score, MOST_ITEMS + 1)?;
    form.remove(place + 1);
    Ok(())
}
