// The reads that lead are run behind all that was there, and noted.
ghost use Rattle.std.specs.Prelude.{◌≡◌, ◌≤◌, ◌++◌, false, length, IfOk, IfSome, List, OnOk, OnErr};
ghost use Rattle.nr_entry.specs.Jobs.{items_of};
ghost use Rattle.nr_model.specs.Entries.{read_jobs};
ghost use Rattle.nr_model.specs.Servers.{fresh, after_all};
ghost use Rattle.nr_replica.specs.Replicas.{HasRead};
ghost use Rattle.nr_log_end.specs.Standings.{AreNextReads, record_of};
ghost use Rattle.nr_node.specs.Advanced.{HasNoted};
ghost use Rattle.nr_node.specs.Lending.{AreReadyFor};
ghost use Rattle.nr_node.specs.Next.{MayBeNoted};
ghost use Rattle.nr_node.specs.Sound.{IsSound};

use crate::lending::{Prepared, replies_for};
use nr_blob::Memory;
use nr_entry::Job;
use nr_log_end::{Load, LogEnd};
use nr_oplog::{End, LogName};
use nr_replica::{Replica, Spares};

/// Runs the reads that lead, and notes each. Where replies to them were prepared, and the node has passed as many entries as it had then, these are taken. Where
/// memory runs out nothing changes.
pub(crate) fn read<B: LogName>(
    end: &mut End<B>,
    replica: &mut Replica,
    prepared: Option<Prepared<B>>,
    spares: &mut Spares,
) -> Result<Vec<Job>, Memory>
    requires up { replica.old.down ≡ false }
    requires server { replica.old.server ≡ after_all fresh (record_of end.old.standing.history) }
    requires sound { IsSound end.old.standing }
    requires ready { IfSome prepared (AreReadyFor (read_jobs (items_of replica.old.waiting))) }
    requires rising { MayBeNoted (read_jobs (items_of replica.old.waiting)) end.old.standing }
    ensures ran { IfOk result (λ ran. items_of ran.items ≡ read_jobs (items_of replica.old.waiting)) }
    ensures noted { IfOk result (λ ran. HasNoted ran.items end.old.standing end.new.standing) }
    ensures read { OnOk result (HasRead replica.old replica.new) }
    ensures looks { OnOk result ((more : List Load) × (length more ≤ 1) × (end.new.looks ≡ end.old.looks ++ more)) }
    ensures end { OnErr result (end.new ≡ end.old) }
    ensures replica { OnErr result (replica.new ≡ replica.old) }
{
    let ran = run(end, replica, prepared, spares)?;
    note_all(end, &ran);
    Ok(ran)
}

// Runs the reads that lead, or takes the replies to them that were prepared. Where memory runs out nothing changes.
fn run<B: LogName>(
    end: &mut End<B>,
    replica: &mut Replica,
    prepared: Option<Prepared<B>>,
    spares: &mut Spares,
) -> Result<Vec<Job>, Memory>
    requires up { replica.old.down ≡ false }
    requires server { replica.old.server ≡ after_all fresh (record_of end.old.standing.history) }
    requires sound { IsSound end.old.standing }
    requires ready { IfSome prepared (AreReadyFor (read_jobs (items_of replica.old.waiting))) }
    ensures ran { IfOk result (λ ran. items_of ran.items ≡ read_jobs (items_of replica.old.waiting)) }
    ensures read { OnOk result (HasRead replica.old replica.new) }
    ensures replica { OnErr result (replica.new ≡ replica.old) }
    ensures end { end.new ≡ end.old }
{
    let Some(replies) = replies_for(end, prepared) else {
        return replica.run_reads();
    };
    replica.take_reads(replies, spares)
}

// Notes that these reads were run: one load for all of them, where there are any.
fn note_all<B: LogName>(end: &mut End<B>, ran: &[Job])
    requires { AreNextReads ran.now end.old.standing }
    ensures noted { HasNoted ran.now end.old.standing end.new.standing }
    ensures looks { (more : List Load) × (length more ≤ 1) × (end.new.looks ≡ end.old.looks ++ more) }
{
    if ran.is_empty() {
        return;
    }
    end.note(ran);
}
