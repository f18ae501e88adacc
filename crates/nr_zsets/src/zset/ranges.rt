// Members between bounds. Those stand behind one another, unless bounds of bytes are set where scores differ: then every member is looked at.
ghost use Rattle.std.specs.Prelude.{◌≡◌, ◌-◌, ◌≤◌, ◌<◌, ◌^◌, true, drop, length, map, IfSome, IfNone, IfOk, OnOk, OnErr};
ghost use Rattle.std.specs.Option.{option_map};
ghost use Rattle.std.specs.FinMap as finmap;
ghost use Rattle.nr_model.specs.SortedSets.{ranked, told_in, between, without};
ghost use Rattle.nr_zbounds.specs.Ranges.{seen_bounds};
ghost use Rattle.nr_ordered.specs.Lists.{part, shown};
ghost use Rattle.nr_zsets.specs.Lists.{at_most, fewest};
ghost use Rattle.nr_zsets.specs.Scores.{HaveOneScore, StandTogether, held_at};

use super::Zset;
use super::edits::members_of;
use super::places::told;
use crate::form::ends_told;
use crate::order::{Between, LowerEnd, UpperEnd};
use nr_blob::{Blob, Memory};
use nr_model::command::Direction;
use nr_zbounds::Bounds;

// At most so many of this many.
fn limited(count: Option<usize>, most: usize) -> usize
    ensures limited { result ≡ fewest count most }
    ensures within { result ≤ most }
{
    match count {
        Some(count) => count.min(most),
        None => most,
    }
}

impl Zset {
    // Whether all scores are equal.
    fn has_one_score(&self) -> bool
        ensures one { result ≡ true → HaveOneScore (ranked self.now) }
        ensures all { HaveOneScore (ranked self.now) → result ≡ true }
    {
        let Some((_, first)) = self.form.get(0) else {
            return true;
        };
        let Some((_, last)) = self.form.get(self.form.len() - 1) else {
            return false;
        };
        first == last
    }

    // Whether those between the bounds are known to stand behind one another.
    fn stand_together(&self, bounds: &Bounds<'_>) -> bool
        ensures they_do { result ≡ true → StandTogether (seen_bounds bounds.now) (ranked self.now) }
        ensures is_known { StandTogether (seen_bounds bounds.now) (ranked self.now) → result ≡ true }
    {
        match bounds {
            Bounds::ByScore(_, _) => true,
            Bounds::ByBytes(_, _) => self.has_one_score(),
        }
    }

    // The places from which and to which all between the bounds stand, if they are known to stand behind one another.
    fn ends(&self, bounds: &Bounds<'_>) -> Option<(usize, usize)>
        ensures between { IfSome result (λ ends. between (seen_bounds bounds.now) (ranked self.now) ≡ part ends.0 ends.1 (ranked self.now)) }
        ensures low { IfSome result (λ ends. ends.0 ≤ finmap.len self.now) }
        ensures high { IfSome result (λ ends. ends.1 ≤ finmap.len self.now) }
        ensures none { IfNone result (StandTogether (seen_bounds bounds.now) (ranked self.now) → ⊥) }
    {
        if !self.stand_together(bounds) {
            return None;
        }
        let low = self.form.find(&LowerEnd { bounds });
        let high = self.form.find(&UpperEnd { bounds });
        Some((low, high))
    }

    // The member at a place, if there is one and it is between the bounds.
    fn held_at(&self, bounds: &Bounds<'_>, place: usize) -> Option<(&[u8], i64)>
        ensures { option_map shown result ≡ held_at (seen_bounds bounds.now) place (ranked self.now) }
    {
        let Some((member, score)) = self.form.get(place) else {
            return None;
        };
        if bounds.holds(member, score) {
            Some((member, score))
        } else {
            None
        }
    }

    /// How many members are between the bounds. Logarithmic, but where bounds of bytes are set and scores differ: then linear in all members.
    pub fn count(&self, bounds: &Bounds<'_>) -> usize
        ensures count { result ≡ length (between (seen_bounds bounds.now) (ranked self.now)) }
        ensures small { result < 2 ^ 63 }
    {
        // Each member takes memory, so that their number is small.
        let len = self.len();
        prove!(len < 1 << 63);
        match self.ends(bounds) {
            Some((low, high)) => high.saturating_sub(low),
            None => self.form.count(&Between { bounds }),
        }
    }

    /// Lends the members between the bounds, as they are told in a direction: the first `offset` are passed over, and at most `count` are lent.
    /// Logarithmic, and linear in those lent, but where bounds of bytes are set and scores differ: then O(n log n) in all members.
    pub fn between(
        &self,
        bounds: &Bounds<'_>,
        direction: Direction,
        offset: usize,
        count: Option<usize>,
    ) -> Result<Vec<(&[u8], i64)>, Memory>
        ensures { IfOk result (λ lent. map shown lent.items
            ≡ at_most count (drop offset (told_in direction (between (seen_bounds bounds.now) (ranked self.now))))) }
    {
        let Some((low, high)) = self.ends(bounds) else {
            return self.sifted(bounds, direction, offset, count);
        };
        let (first, last) = ends_told(direction, low, high, self.len());
        let from = first + offset.min(last.saturating_sub(first));
        let most = limited(count, last.saturating_sub(from));
        self.by_place(direction, from, from + most)
    }

    // The same by a look at every member.
    fn sifted(
        &self,
        bounds: &Bounds<'_>,
        direction: Direction,
        offset: usize,
        count: Option<usize>,
    ) -> Result<Vec<(&[u8], i64)>, Memory>
        ensures { IfOk result (λ lent. map shown lent.items
            ≡ at_most count (drop offset (told_in direction (between (seen_bounds bounds.now) (ranked self.now))))) }
    {
        let mut passed = offset;
        let len = self.len();
        let mut left = limited(count, len);
        let mut lent = Vec::new(self.alloc);
        for place in 0..len {
            if left == 0 {
                return Ok(lent);
            }
            let Some(item) = self.held_at(bounds, told(direction, place, len)) else {
                continue;
            };
            if passed > 0 {
                passed -= 1;
                continue;
            }
            lent.push(item)?;
            left -= 1;
        }
        Ok(lent)
    }

    /// Takes the members between the bounds out, and says how many they are. Each goes as by `remove`, but where bounds of bytes are set and scores
    /// differ: then O(n log n) in all members. Copies of those members are made first: where memory runs out nothing is changed.
    pub fn remove_between(&mut self, bounds: &Bounds<'_>) -> Result<usize, Memory>
        ensures removed { OnOk result (self.new ≡ without (between (seen_bounds bounds.now) (ranked self.old)) self.old) }
        ensures gone { IfOk result (λ gone. gone ≡ finmap.len self.old - finmap.len self.new) }
        ensures err { OnErr result (self.new ≡ self.old) }
    {
        let members = self.members_between(bounds)?;
        Ok(self.remove_each(&members))
    }

    // Copies of the members between the bounds.
    fn members_between(&self, bounds: &Bounds<'_>) -> Result<Vec<Blob>, Memory>
        ensures { IfOk result (λ members. members.items ≡ map (λ scored. scored.0) (between (seen_bounds bounds.now) (ranked self.now))) }
    {
        let lent = self.between(bounds, Direction::Ascending, 0, None)?;
        members_of(self.alloc, &lent)
    }
}
