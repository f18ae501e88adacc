// A look of a node behind its lock, by replies that were prepared beside it.
ghost use Rattle.std.specs.Prelude.{◌≡◌, ℕ, List, true, Some, IfSome};
ghost use Rattle.nr_entry.specs.Jobs.{items_of};
ghost use Rattle.nr_entry.specs.declared.entry.Entry.{Entry};
ghost use Rattle.nr_model.specs.Entries.{read_jobs};
ghost use Rattle.nr_node.specs.Lending.{AreReadyFor};
ghost use Rattle.nr_combiner.specs.Steps.{HasLooked};

use nr_entry::Job;
use nr_node::{Core, Looked, Prepared};
use nr_oplog::LogName;
use nr_replica::Spares;

/// A look of a node, where the replies to the reads that lead may have been prepared; or none, where it is down and passes nothing.
pub(crate) fn look<B: LogName>(
    core: &mut Core<B>,
    is_halted: bool,
    prepared: Option<Prepared<B>>,
    spares: &mut Spares,
) -> Looked
    requires ready { IfSome prepared (AreReadyFor (read_jobs (items_of core.old.replica.waiting))) }
    ensures { (entries : List Entry) × ((ran : List Job) × ((tail : ℕ) × HasLooked result.round result.is_behind entries ran tail core.old core.new)) }
{
    if is_halted && core.is_down() {
        return core.stand_by();
    }
    let Some(prepared) = prepared else {
        return core.look();
    };
    core.look_with(prepared, spares)
}

/// The number of a batch that was taken in where no job waited.
pub(crate) fn where_idle(was_idle: bool, taken: Option<u64>) -> Option<u64>
    ensures { IfSome result (λ number. (was_idle ≡ true) × (taken ≡ Some number)) }
{
    if !was_idle {
        return None;
    }
    taken
}
