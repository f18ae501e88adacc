// Replies to the connections of the node that a machine answers for. For those of another nothing is made.
ghost use Rattle.std.specs.Prelude.{◌≡◌, ◌∷◌, [], OnOk, OnErr, option_to_list};
ghost use Rattle.std.specs.Option.{option_map};
ghost use Rattle.nr_model.specs.Sequential.{for_node};
ghost use Rattle.nr_resp.specs.Seen.{reply_of};
ghost use Rattle.nr_resp.specs.Shown.{shown_reply};
ghost use Rattle.nr_entry.specs.Jobs.{connection_of};
ghost use Rattle.nr_emission.specs.Emitted.{all_after, replies_to};

use nr_blob::Memory;
use nr_emission::Sink;
use nr_entry::ConnId;
use nr_resp::{Reply, Shown};

/// A reply to a connection. Where memory runs out the sink is as it was.
pub(crate) fn answer<S: Sink>(
    node: usize,
    conn: ConnId,
    shown: Shown<'_>,
    out: &mut S,
) -> Result<(), Memory>
    ensures emitted { OnOk result (out.new ≡ all_after S.after out.old (for_node node (replies_to (connection_of conn) (shown_reply shown.entry ∷ [])))) }
    ensures unchanged { OnErr result (out.new ≡ out.old) }
{
    if conn.node != node {
        return Ok(());
    }
    out.put(conn, shown)?;
    Ok(())
}

/// A reply, if there is one.
pub(crate) fn answer_some<S: Sink>(
    node: usize,
    conn: ConnId,
    reply: Option<Reply>,
    out: &mut S,
) -> Result<(), Memory>
    ensures emitted { OnOk result (out.new
        ≡ all_after S.after out.old (for_node node (replies_to (connection_of conn) (option_to_list (option_map reply_of reply))))) }
    ensures unchanged { OnErr result (out.new ≡ out.old) }
{
    match reply {
        Some(reply) => answer(node, conn, Shown::Owned(reply), out),
        None => Ok(()),
    }
}
