// Descents that count the nodes which they look at: for d where there are fewer than 2^d members, at most 2 d.
ghost use Rattle.std.specs.Prelude.{◌≡◌, ℕ, ◌+◌, ◌*◌, ◌^◌, ◌≤◌, ◌<◌, length, slice_get};
ghost use Rattle.std.specs.Option.{option_map};
ghost use Rattle.std.specs.FinMap as finmap;
ghost use Rattle.nr_model.specs.SortedSets.{ranked, rank_of};
ghost use Rattle.nr_model.specs.declared.command.Direction.TheVariants.{Ascending};
ghost use Rattle.nr_zbounds.specs.Seen.{seen_score};
ghost use Rattle.nr_ordered.specs.Lists.{shown};
ghost use Rattle.nr_zsets.specs.Scores.{before};

use super::Zset;
use crate::order::{Before, LowerEnd};
use nr_blob::Blob;
use nr_ordered::Ticks;
use nr_zbounds::{Bound, Bounds, ScoreBound};
use std::sync::ledger::Ledger;

impl Zset {
    /// The place of a member from the least score on, as `rank` finds it. The look for its score is not counted.
    pub fn place<L: Ledger>(&self, member: &Blob, ticks: &mut Ticks<L>) -> Option<usize>
        ensures place { result ≡ rank_of Ascending self.now member.now }
        ensures cost { (d : ℕ) → finmap.len self.now < 2 ^ d → ticks.new ≤ ticks.old + 2 * d }
    {
        let Some(score) = self.score(member) else {
            return None;
        };
        let member = member.bytes();
        Some(self.form.place_of(&Before { member, score }, ticks))
    }

    /// The member at a place from the least score on, with its score, as `by_place` finds it.
    pub fn at<L: Ledger>(&self, place: usize, ticks: &mut Ticks<L>) -> Option<(&[u8], i64)>
        ensures item { option_map shown result ≡ slice_get (ranked self.now) place }
        ensures cost { (d : ℕ) → finmap.len self.now < 2 ^ d → ticks.new ≤ ticks.old + 2 * d }
    {
        self.form.at(place, ticks)
    }

    /// How many members stand before a lower end of scores, as `count` finds them.
    pub fn below<L: Ledger>(&self, min: ScoreBound, ticks: &mut Ticks<L>) -> usize
        ensures count { result ≡ length (before (seen_score min) (ranked self.now)) }
        ensures cost { (d : ℕ) → finmap.len self.now < 2 ^ d → ticks.new ≤ ticks.old + 2 * d }
    {
        let bounds = Bounds::ByScore(min, Bound::Highest);
        self.form.place_of(&LowerEnd { bounds: &bounds }, ticks)
    }
}
