// Members by their places in the order.
ghost use Rattle.std.specs.Prelude.{◌≡◌, ◌<◌, ◌^◌, map, IfSome, IfOk};
ghost use Rattle.nr_model.specs.SortedSets.{ranked, rank_of, told_in};
ghost use Rattle.nr_ordered.specs.Lists.{part, shown, told_place};

use super::Zset;
use crate::order::Before;
use nr_blob::{Blob, Memory};
use nr_model::command::Direction;

// The place that is told as this one, among so many.
pub(super) fn told(direction: Direction, place: usize, len: usize) -> usize
    requires { place < len }
    ensures place { result ≡ told_place direction place len }
    ensures within { result < len }
{
    match direction {
        Direction::Ascending => place,
        Direction::Descending => len - 1 - place,
    }
}

impl Zset {
    /// The place of a member in a direction, from 0. Logarithmic, once the member is found as by `score`.
    pub fn rank(&self, direction: Direction, member: &Blob) -> Option<usize>
        ensures rank { result ≡ rank_of direction self.now member.now }
        ensures small { IfSome result (λ place. place < 2 ^ 63) }
    {
        let Some(score) = self.score(member) else {
            return None;
        };
        let member = member.bytes();
        let place = self.form.find(&Before { member, score });
        Some(told(direction, place, self.len()))
    }

    /// Lends the members from one place to another, both counted as they are told in a direction. Logarithmic, and linear in those members.
    pub fn by_place(
        &self,
        direction: Direction,
        from: usize,
        to: usize,
    ) -> Result<Vec<(&[u8], i64)>, Memory>
        ensures { IfOk result (λ lent. map shown lent.items ≡ part from to (told_in direction (ranked self.now))) }
    {
        let lent = self.form.lend(self.alloc, direction, from, to)?;
        Ok(lent)
    }
}
