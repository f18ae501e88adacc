// A replica goes on along its end of the log.
ghost use Rattle.std.specs.Prelude.{◌≡◌, ◌<◌, ◌≤◌, ◌+◌, ◌-◌, [], ◌∷◌, ◌++◌, length, true, false, None, List};
ghost use Rattle.nr_entry.specs.declared.entry.Entry.{Entry};
ghost use Rattle.nr_entry.specs.Jobs.{items_of};
ghost use Rattle.nr_log_end.specs.Standings.{StandsInLog, passed_of};
ghost use Rattle.nr_job_numbers.specs.Book.{without_ended, HasGoneBack};
ghost use Rattle.nr_replica.specs.Backlogs.{HasBacklog};
ghost use Rattle.nr_node.specs.OwnEntries.{Frees};
ghost use Rattle.nr_node.specs.Level.{IsLevel};
ghost use Rattle.nr_node.specs.Next.{jobs_next, HasFirst};
ghost use Rattle.nr_node.specs.Advanced.{IsTakenIn, GoesOn, MeetsNoTail, HasAsked, HasStopped};

use crate::falling::drop_lifted;
use crate::next::Next;
use crate::own_entries::OwnEntries;
use nr_entry::Entry;
use nr_job_numbers::JobNumbers;
use nr_log_end::{Load, LogEnd};
use nr_oplog::{End, LogName};
use nr_replica::Replica;
use std::hint;

// How many times it is asked whether a server is still lent: with the pauses between some 50 microseconds, in which a worker beside changes has run its reads.
const MOST_ASKED: u64 = 1_000;

/// Lets go of the shares that are kept of entries which all nodes have passed. Takes all entries in that there are when it begins, and passes them, and the next
/// one where that is there. It stops, and answers false, where one isn't there yet, or where the replica holds the others back, since much waits for a connection:
/// see [`Replica::holds_back`](nr_replica::Replica::holds_back). While its server is lent it takes none in: where there are some it waits for the loans to end, some
/// 50 microseconds at most, and stops where one is still out. The account of each connection whose end is among them goes. A replica that is down passes them
/// too, executes none, and holds none back. Where the replica falls over one of them, what waits and the next entry of its own are dropped, and the accounts go
/// back by that: see [`drop_lifted`].
pub(crate) fn catch_up<B: LogName>(
    end: &mut End<B>,
    kept: &mut OwnEntries,
    replica: &mut Replica,
    accounts: &mut JobNumbers,
    next: &mut Option<Next>,
) -> bool
    requires idle { end.old.standing.held ≡ None }
    requires level { IsLevel end.old.standing replica.old }
    requires next { HasFirst next.old }
    ensures idle { end.new.standing.held ≡ None }
    ensures goes { (entries : List Entry) × GoesOn entries end.old.standing end.new.standing replica.old replica.new next.old next.new accounts.old accounts.new }
    ensures looks { (more : List Load) × (end.new.looks ≡ end.old.looks ++ Load.Tail end.new.standing.seen ∷ more) }
    ensures freed { Frees kept.old.kept kept.new.kept end.old.standing.nodes end.old.looks end.new.looks }
    ensures last { kept.new.last ≡ kept.old.last }
    ensures reached { result ≡ true → (end.new.standing.seen ≤ passed_of end.new.standing) × StandsInLog end.new.standing }
    ensures behind { result ≡ false → passed_of end.new.standing < end.new.standing.seen }
    ensures stopped { result ≡ false → HasStopped end.old.looks end.new replica.new }
    ensures few { passed_of end.new.standing ≤ (passed_of end.old.standing + (end.new.standing.seen - passed_of end.old.standing)) + 1 }
    ensures lent { replica.new.lent ≡ true → replica.new.down ≡ false → passed_of end.new.standing ≡ passed_of end.old.standing }
{
    let tail = end.tail();
    kept.let_go(end);
    let count = tail.saturating_sub(end.passed());
    if is_lent_out(replica, count) {
        return count == 0;
    }
    if !advance_by(end, replica, accounts, next, count) {
        return false;
    }
    advance_further(end, replica, accounts, next, count);
    true
}

// Whether a replica's server is lent, so that it takes no entry in. Where entries wait for that, so many, the loans have some time to end. One that is down isn't asked.
fn is_lent_out(replica: &mut Replica, count: u64) -> bool
    ensures lent { result ≡ true → (replica.new.down ≡ false) × (replica.new.lent ≡ true) }
    ensures back { result ≡ false → replica.new.down ≡ false → replica.new.lent ≡ false }
    ensures asked { HasAsked replica.old replica.new }
{
    if replica.is_down() {
        return false;
    }
    if count == 0 {
        return replica.is_lent();
    }
    outlasts(replica)
}

// Whether a loan of a replica's server is still out after some 50 microseconds.
fn outlasts(replica: &mut Replica) -> bool
    ensures lent { result ≡ replica.new.lent }
    ensures was { result ≡ true → replica.old.lent ≡ true }
    ensures replica { replica.new ≡ record replica.old { lent = result } }
{
    for _ in 0..MOST_ASKED {
        if !replica.is_lent() {
            return false;
        }
        hint::spin_loop();
    }
    replica.is_lent()
}

/// Takes so many entries in, one after the other. False where one isn't there yet, or is held back.
pub(crate) fn advance_by<B: LogName>(
    end: &mut End<B>,
    replica: &mut Replica,
    accounts: &mut JobNumbers,
    next: &mut Option<Next>,
    count: u64,
) -> bool
    requires idle { end.old.standing.held ≡ None }
    requires next { HasFirst next.old }
    ensures idle { end.new.standing.held ≡ None }
    ensures met { MeetsNoTail end.old end.new }
    ensures stopped { result ≡ false → HasStopped end.old.looks end.new replica.new }
    ensures log { result ≡ true → 0 < count → StandsInLog end.new.standing }
    ensures all { result ≡ true → (entries : List Entry) × (length entries ≡ count) × GoesOn entries end.old.standing end.new.standing replica.old replica.new next.old next.new accounts.old accounts.new }
    ensures fewer { result ≡ false → (entries : List Entry) × (length entries < count) × GoesOn entries end.old.standing end.new.standing replica.old replica.new next.old next.new accounts.old accounts.new }
{
    for _ in 0..count {
        if !advance_unless_held(end, replica, accounts, next) {
            return false;
        }
    }
    true
}

// Takes the entry in that stands behind so many that were taken in, and passes it, where it is there. Behind one that was taken in it may be held back.
fn advance_further<B: LogName>(
    end: &mut End<B>,
    replica: &mut Replica,
    accounts: &mut JobNumbers,
    next: &mut Option<Next>,
    count: u64,
) -> bool
    requires idle { end.old.standing.held ≡ None }
    requires next { HasFirst next.old }
    requires log { 0 < count → StandsInLog end.old.standing }
    ensures idle { end.new.standing.held ≡ None }
    ensures met { MeetsNoTail end.old end.new }
    ensures stopped { result ≡ false → HasStopped end.old.looks end.new replica.new }
    ensures log { StandsInLog end.new.standing }
    ensures some { result ≡ true → (entry : Entry) × GoesOn (entry ∷ []) end.old.standing end.new.standing replica.old replica.new next.old next.new accounts.old accounts.new }
    ensures none { result ≡ false → (end.new.standing ≡ end.old.standing) × (replica.new ≡ replica.old) × (next.new ≡ next.old) × (accounts.new ≡ accounts.old) }
{
    if count > 0 {
        return advance_unless_held(end, replica, accounts, next);
    }
    advance(end, replica, accounts, next)
}

// Takes the next entry in, and passes it. False where it isn't there yet, or is held back.
fn advance_unless_held<B: LogName>(
    end: &mut End<B>,
    replica: &mut Replica,
    accounts: &mut JobNumbers,
    next: &mut Option<Next>,
) -> bool
    requires idle { end.old.standing.held ≡ None }
    requires next { HasFirst next.old }
    ensures idle { end.new.standing.held ≡ None }
    ensures met { MeetsNoTail end.old end.new }
    ensures stopped { result ≡ false → HasStopped end.old.looks end.new replica.new }
    ensures log { result ≡ true → StandsInLog end.new.standing }
    ensures some { result ≡ true → (entry : Entry) × GoesOn (entry ∷ []) end.old.standing end.new.standing replica.old replica.new next.old next.new accounts.old accounts.new }
    ensures none { result ≡ false → (end.new.standing ≡ end.old.standing) × (replica.new ≡ replica.old) × (next.new ≡ next.old) × (accounts.new ≡ accounts.old) }
{
    if is_held_back(replica) {
        return false;
    }
    advance(end, replica, accounts, next)
}

// Whether the replica takes no entry in yet, since much waits for a connection. One that is down takes all.
fn is_held_back(replica: &mut Replica) -> bool
    ensures up { result ≡ true → replica.old.down ≡ false }
    ensures reason { result ≡ true → HasBacklog replica.old.members }
    ensures same { replica.new ≡ replica.old }
{
    !replica.is_down() && replica.holds_back()
}

// Takes the next entry in, and passes it. False where it isn't there yet.
fn advance<B: LogName>(
    end: &mut End<B>,
    replica: &mut Replica,
    accounts: &mut JobNumbers,
    next: &mut Option<Next>,
) -> bool
    requires idle { end.old.standing.held ≡ None }
    requires next { HasFirst next.old }
    ensures idle { end.new.standing.held ≡ None }
    ensures met { MeetsNoTail end.old end.new }
    ensures stopped { result ≡ false → HasStopped end.old.looks end.new replica.new }
    ensures log { StandsInLog end.new.standing }
    ensures some { result ≡ true → (entry : Entry) × GoesOn (entry ∷ []) end.old.standing end.new.standing replica.old replica.new next.old next.new accounts.old accounts.new }
    ensures none { result ≡ false → (end.new.standing ≡ end.old.standing) × (replica.new ≡ replica.old) × (next.new ≡ next.old) × (accounts.new ≡ accounts.old) }
{
    let Some(entry) = end.fetch() else {
        return false;
    };
    take_in(replica, accounts, next, &entry);
    close_ended(accounts, &entry);
    end.pass();
    true
}

// Takes an entry in, unless the replica is down. Where it falls over it, what it has lifted is dropped, and the accounts go back by that.
fn take_in(replica: &mut Replica, accounts: &mut JobNumbers, next: &mut Option<Next>, entry: &Entry)
    requires { HasFirst next.old }
    ensures replica { IsTakenIn entry.now replica.old replica.new }
    ensures stays { replica.new.down ≡ replica.old.down → (next.new ≡ next.old) × (accounts.new ≡ accounts.old) }
    ensures drops { replica.old.down ≡ false → replica.new.down ≡ true → (next.new ≡ None) × HasGoneBack (items_of (jobs_next next.old) ++ items_of replica.old.waiting) accounts.old accounts.new }
{
    if replica.is_down() {
        return;
    }
    let Err(_fall) = replica.apply_or_stop(entry, true) else {
        return;
    };
    drop_lifted(replica, accounts, next);
}

// The account of each connection whose end is in an entry goes.
fn close_ended(accounts: &mut JobNumbers, entry: &Entry)
    ensures { accounts.new ≡ without_ended (items_of entry.now.jobs.items) accounts.old }
{
    accounts.close(&entry.jobs);
}
