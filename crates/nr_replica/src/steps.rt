// The steps of a replica's calls, each over its parts: the jobs of the next entry, and the application of one.
ghost use Rattle.std.specs.Prelude.{◌≡◌, ◌↔◌, ◌<◌, ◌≤◌, ◌+◌, ◌^◌, ℕ, true, false, Some, None, Err, [], length, is_none, IfOk, OnOk, OnErr, IsTrue, IsSome};
ghost use Rattle.nr_model.specs.Sequential.{for_node};
ghost use Rattle.nr_model.specs.Servers.{after_all, emitted_all};
ghost use Rattle.nr_model.specs.Entries.{most_entry_jobs, entry_items, entry_jobs, left_by_entry};
ghost use Rattle.nr_emission.specs.Emitted.{all_after, written_after};
ghost use Rattle.nr_entry.specs.Entry.{are_of, are_updates};
ghost use Rattle.nr_entry.specs.Jobs.{items_of};
ghost use Rattle.nr_replica.specs.Replicas.{server_in};

use crate::fall::Fall;
use crate::lending::Lender;
use nr_blob::Memory;
use nr_emission::Staging;
use nr_entry::{Entry, Job, Waiting};
use std::alloc::Global;

/// Takes the jobs of the next entry. They wait no more.
pub(crate) fn take_updates(waiting: &mut Waiting) -> Result<Vec<Job>, Memory>
    requires { waiting.old.gaps ≡ [] }
    ensures taken { IfOk result (λ taken. items_of taken.items ≡ entry_jobs (items_of waiting.old.jobs)) }
    ensures left { OnOk result (items_of waiting.new.jobs ≡ left_by_entry (items_of waiting.old.jobs)) }
    ensures whole { OnOk result (waiting.new.gaps ≡ []) }
    ensures updates { IfOk result (λ taken. IsTrue (are_updates (items_of taken.items))) }
    ensures most { IfOk result (λ taken. length taken.items ≤ most_entry_jobs) }
    ensures own { (node : ℕ) → IsTrue (are_of node (items_of waiting.old.jobs)) → IfOk result (λ taken. IsTrue (are_of node (items_of taken.items))) }
    ensures unchanged { OnErr result (waiting.new ≡ waiting.old) }
{
    let jobs = waiting.lend_updates()?;
    waiting.take_lent();
    Ok(jobs)
}

/// Applies an entry behind so many others, and holds back what it emits for the node. Where that is refused what is held back isn't to be sent, and the
/// machine is let go of.
pub(crate) fn stage(
    alloc: Global,
    entry: &Entry,
    node: usize,
    applied: u64,
    is_refused: bool,
    machine: &mut Lender,
    staging: &mut Staging,
) -> Result<(), Fall>
    requires up { is_none machine.old ≡ false }
    ensures unrefused { OnOk result (is_refused ≡ false) }
    ensures few { OnOk result (applied + 1 < 2 ^ 64) }
    ensures applied { OnOk result (machine.new ≡ Some (record { state = after_all (server_in machine.old) (entry_items (items_of entry.now.jobs.items)); failed = false })) }
    ensures emitted { OnOk result (staging.new
        ≡ all_after written_after staging.old (for_node node (emitted_all (server_in machine.old) (entry_items (items_of entry.now.jobs.items))))) }
    ensures dropped { OnErr result (machine.new ≡ None) }
    ensures refused { (result ≡ Err Fall.Refused) ↔ (is_refused ≡ true) }
{
    match try_entry(alloc, entry, node, applied, is_refused, machine, staging) {
        Ok(()) => Ok(()),
        Err(fall) => {
            *machine = Lender::none();
            Err(fall)
        }
    }
}

// Applies an entry behind so many others, unless it is to be refused.
fn try_entry(
    alloc: Global,
    entry: &Entry,
    node: usize,
    applied: u64,
    is_refused: bool,
    machine: &mut Lender,
    staging: &mut Staging,
) -> Result<(), Fall>
    requires up { is_none machine.old ≡ false }
    ensures unrefused { OnOk result (is_refused ≡ false) }
    ensures few { OnOk result (applied + 1 < 2 ^ 64) }
    ensures applied { OnOk result (machine.new ≡ Some (record { state = after_all (server_in machine.old) (entry_items (items_of entry.now.jobs.items)); failed = false })) }
    ensures emitted { OnOk result (staging.new
        ≡ all_after written_after staging.old (for_node node (emitted_all (server_in machine.old) (entry_items (items_of entry.now.jobs.items))))) }
    ensures refused { (result ≡ Err Fall.Refused) ↔ (is_refused ≡ true) }
{
    if is_refused {
        return Err(Fall::Refused);
    }
    if let Some(memory) = Memory::at_last(applied) {
        return Err(Fall::Memory(memory));
    }
    match machine.apply(alloc, entry, node, staging) {
        Ok(()) => Ok(()),
        Err(memory) => Err(Fall::Memory(memory)),
    }
}
