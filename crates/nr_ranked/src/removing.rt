// The commands that take members out.
ghost use Rattle.std.specs.Prelude.{◌≡◌, ◌<◌, ◌^◌, fold, pos};
ghost use Rattle.std.specs.FinMap as finmap;
ghost use Rattle.nr_model.specs.Keyspace.{live};
ghost use Rattle.nr_model.specs.Replies.{Int};
ghost use Rattle.nr_model.specs.Commands.Shape.{staying};
ghost use Rattle.nr_model.specs.Commands.SortedSets as sorted_sets;
ghost use Rattle.nr_resp.specs.Seen.{reply_of};
ghost use Rattle.nr_resp.specs.Done.{Performs};

use crate::changing::{Change, change_at};
use crate::ranges::ends::RangeEnds;
use crate::ranges::reading::{EndsRequest, ends_request};
use crate::ranges::telling::take_out;
use nr_blob::{Blob, Memory};
use nr_keyspace::{Db, Keyspace, SortedSetEdit, Touched};
use nr_model::command::RangeBy;
use nr_model::refused::Refused;
use nr_resp::{Failure, Reply};
use nr_zsets::Zset;
use std::alloc::Global;

/// `ZREM key member [member ..]`. One look-up of the key, and each member logarithmic.
pub fn zrem<T: Touched>(
    alloc: Global,
    keyspace: &mut Keyspace,
    now: u64,
    database: Db,
    words: &[Blob],
    touched: &mut T,
) -> Result<Reply, Failure>
    requires { live keyspace.old now ≡ keyspace.old }
    ensures { Performs T.after result keyspace.new database touched.old touched.new
        (staying database (sorted_sets.zrem keyspace.old database words.now)) }
{
    let Some((name, members)) = words.split_first() else {
        return Err(Failure::Refused(Refused::Syntax));
    };
    let removal = Removal { members };
    change_at(alloc, keyspace, now, database, name, removal, touched)
}

// Members that are taken out.
#[derive(Clone, Copy)]
struct Removal<'k> {
    members: &'k [Blob],
}

impl<'k> SortedSetEdit for Removal<'k> {
    type Given = Change;

    ghost use Rattle.std.specs.Prelude.{fold};
    ghost use Rattle.std.specs.FinMap as finmap;
    ghost use Rattle.nr_model.specs.Commands.SortedSets as sorted_sets;
    ghost use Rattle.nr_ranked.specs.Changing.{Gives};

    ghost edits = { λ removal old new given.
        Gives (λ keyspace key. sorted_sets.left_with keyspace key old (fold finmap.remove old removal.members.now)) new given };

    fn edit(self, zset: &mut Zset) -> Result<Result<Change, Refused>, Memory> {
        let before = zset.len();
        remove_all(zset, self.members);
        Ok(Ok(loss(before.saturating_sub(zset.len()))))
    }
}

fn remove_all(zset: &mut Zset, members: &[Blob])
    ensures { zset.new ≡ fold finmap.remove zset.old members.now }
{
    for member in members {
        zset.remove(member);
    }
}

/// `ZREMRANGEBYRANK key start end`, `ZREMRANGEBYSCORE key min max` and `ZREMRANGEBYLEX key min max`. One look-up of the key, and each
/// member that goes logarithmic; by the bytes of members of different scores it looks at every member.
pub fn remove_range<T: Touched>(
    alloc: Global,
    by: RangeBy,
    keyspace: &mut Keyspace,
    now: u64,
    database: Db,
    words: &[Blob],
    touched: &mut T,
) -> Result<Reply, Failure>
    requires { live keyspace.old now ≡ keyspace.old }
    ensures { Performs T.after result keyspace.new database touched.old touched.new
        (staying database (sorted_sets.remove_range by keyspace.old database words.now)) }
{
    let EndsRequest { name, ends } = ends_request(by, words)?;
    let removal = RangeRemoval { ends };
    change_at(alloc, keyspace, now, database, name, removal, touched)
}

// The members of a range, which are taken out.
#[derive(Clone, Copy)]
struct RangeRemoval<'k> {
    ends: RangeEnds<'k>,
}

impl<'k> SortedSetEdit for RangeRemoval<'k> {
    type Given = Change;

    ghost use Rattle.std.specs.Prelude.{None};
    ghost use Rattle.nr_model.specs.SortedSets.{told_range, without};
    ghost use Rattle.nr_model.specs.Commands.SortedSets as sorted_sets;
    ghost use Rattle.nr_model.specs.declared.command.Direction.TheVariants.{Ascending};
    ghost use Rattle.nr_ranked.specs.Changing.{Gives};
    ghost use Rattle.nr_ranked.specs.Reading.{ends_of};

    ghost edits = { λ removal old new given.
        Gives (λ keyspace key. sorted_sets.left_with keyspace key old (without (told_range (ends_of removal.ends) Ascending None old) old)) new given };

    fn edit(self, zset: &mut Zset) -> Result<Result<Change, Refused>, Memory> {
        let before = zset.len();
        take_out(zset, &self.ends)?;
        Ok(Ok(loss(before.saturating_sub(zset.len()))))
    }
}

// So many members are gone.
fn loss(gone: usize) -> Change
    requires { gone < 2 ^ 63 }
    ensures count { result.count ≡ gone }
    ensures reply { reply_of result.reply ≡ Int (pos gone) }
{
    Change {
        count: gone,
        reply: Reply::Int(gone as i64),
    }
}
