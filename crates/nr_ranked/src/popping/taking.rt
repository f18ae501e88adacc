// The first members of a sorted set, taken out.
ghost use Rattle.std.specs.Prelude.{◌≡◌, ◌<◌, ◌≤◌, ◌^◌, ◌++◌, take, flat_map, map, IfOk, OnOk};
ghost use Rattle.std.specs.FinMap as finmap;
ghost use Rattle.nr_model.specs.SortedSets.{ranked, told_in, without};
ghost use Rattle.nr_model.specs.Commands.SortedSets.{with_score};
ghost use Rattle.nr_resp.specs.Seen.{reply_of};

use crate::changing::Change;
use nr_blob::{Blob, Memory};
use nr_keyspace::SortedSetEdit;
use nr_model::command::Direction;
use nr_model::refused::Refused;
use nr_resp::{Reply, number_bulk};
use nr_zsets::Zset;
use std::alloc::Global;

/// So many of the first members in a direction, or all, taken out.
#[derive(Clone, Copy)]
pub(super) struct Taking {
    pub(super) alloc: Global,
    pub(super) direction: Direction,
    pub(super) count: usize,
}

impl SortedSetEdit for Taking {
    type Given = Change;

    ghost use Rattle.std.specs.Prelude.{take};
    ghost use Rattle.nr_model.specs.SortedSets.{ranked, told_in};
    ghost use Rattle.nr_model.specs.Commands.SortedSets as sorted_sets;
    ghost use Rattle.nr_ranked.specs.Changing.{Gives};

    ghost edits = { λ edit old new given.
        Gives (λ keyspace key. sorted_sets.popped keyspace key old (take edit.count (told_in edit.direction (ranked old)))) new given };

    fn edit(self, zset: &mut Zset) -> Result<Result<Change, Refused>, Memory> {
        let count = self.count.min(zset.len());
        let replies = take_first(self.alloc, zset, self.direction, count)?;
        let reply = Reply::array(replies);
        Ok(Ok(Change { count, reply }))
    }
}

// Each member is moved into a reply, and its score stands behind it.
fn take_first(
    alloc: Global,
    zset: &mut Zset,
    direction: Direction,
    count: usize,
) -> Result<Vec<Reply>, Memory>
    requires small { count < 2 ^ 63 }
    requires within { count ≤ finmap.len zset.old }
    ensures replies { IfOk result (λ replies. map reply_of replies.items ≡ flat_map with_score (take count (told_in direction (ranked zset.old)))) }
    ensures left { OnOk result (zset.new ≡ without (take count (told_in direction (ranked zset.old))) zset.old) }
{
    let mut replies = Vec::with_capacity(alloc, 2 * count)?;
    for _ in 0..count {
        let popped = zset.pop_first(direction)?;
        let Some((member, score)) = popped else {
            return Ok(replies);
        };
        push_scored(alloc, &mut replies, member, score)?;
    }
    Ok(replies)
}

fn push_scored(
    alloc: Global,
    replies: &mut Vec<Reply>,
    member: Blob,
    score: i64,
) -> Result<(), Memory>
    ensures { OnOk result (map reply_of replies.new.items ≡ map reply_of replies.old.items ++ with_score (member, score)) }
{
    let score = number_bulk(alloc, score)?;
    replies.push(Reply::Bulk(member))?;
    replies.push(score)?;
    Ok(())
}
