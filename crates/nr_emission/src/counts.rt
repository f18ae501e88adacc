// Counts, as replies show them.
ghost use Rattle.std.specs.Prelude.{◌≡◌, ◌+◌, ◌<◌, ◌^◌, IfOk, IsOk, pos};
ghost use Rattle.nr_model.specs.Replies as model;
ghost use Rattle.nr_resp.specs.Seen.{reply_of};

use nr_blob::Memory;
use nr_resp::Reply;

/// A count as a reply, refused from 2^63 on alone. What is counted takes memory, so there is none left before a count is more than
/// a reply shows.
pub(crate) fn count_reply(count: usize) -> Result<Reply, Memory>
    ensures ok { IfOk result (λ reply. reply_of reply ≡ model.Int (pos count)) }
    ensures few { count < 2 ^ 63 → IsOk result }
{
    match Memory::at_last((count as u64).saturating_mul(2)) {
        Some(refused) => Err(refused),
        None => Ok(Reply::Int(count as i64)),
    }
}

/// Two counts together, refused from 2^64 - 1 on alone, which is more than any count of what is stored.
pub(crate) fn together(count: usize, more: usize) -> Result<usize, Memory>
    ensures ok { IfOk result (λ sum. sum ≡ count + more) }
    ensures few { count + more + 1 < 2 ^ 64 → IsOk result }
{
    let sum = count.saturating_add(more);
    match Memory::at_last(sum as u64) {
        Some(refused) => Err(refused),
        None => Ok(sum),
    }
}
