// A worker's mark, and that marks meet.
ghost use Rattle.std.specs.Prelude.{◌≡◌, ◌<◌, ◌≤◌, ℕ, length, None, Some, IfSome};
ghost use Rattle.std.specs.List.{AllByRecursion};
ghost use Rattle.nr_node.specs.Sound.{IsSound};
ghost use Rattle.nr_taps.specs.Marks.{Adopts, HasMetFrom, IsMarked, MeetsOthers, later_with, mark_of, standings_of};
ghost use Rattle.nr_taps.specs.Sequence.{AreAllOfOneLog};
ghost use Rattle.nr_taps.specs.Taps.{HaveMet, standing_of};

use nr_oplog::{LogName, Oplog, Token};
use std::marker::Model;
use std::mem;

/// What a worker's node had done when it last handed something out to that worker: one token for all connections of the worker, whether they are still open or
/// not. Contracts see its standing. It takes no memory.
#[derive(Drop)]
pub struct Mark<B: LogName> {
    token: Option<Token<B>>,
}

impl<B: LogName> Model for Mark<B> {
    ghost use Rattle.nr_taps.specs.Marks.{MarkState, IsMarked, coded_mark};
    ghost use Rattle.nr_taps.specs.Taps.{standing_of};

    ghost Value = { MarkState };

    ghost coded = { coded_mark };

    ghost view = { λ m. record { standing = standing_of m.token } };

    ghost invariant = { λ m. IsMarked (record { standing = standing_of m.token }) };
}

impl<B: LogName> Mark<B> {
    /// One that keeps nothing yet.
    pub fn new() -> Mark<B>
        ensures { result ≡ record { standing = None } }
    {
        Mark { token: None }
    }

    /// One that keeps how a node stood.
    pub fn of(token: Token<B>) -> Mark<B>
        requires { IsSound token.standing }
        ensures { result ≡ mark_of token.standing }
    {
        Mark { token: Some(token) }
    }

    /// Keeps the later of what it kept and a token of the same node, whichever was made first: all that the other one knows, it knows too. It takes three loads
    /// of the log's tail, or none where it kept nothing.
    pub fn adopt(&mut self, log: &Oplog<B>, token: Token<B>)
        requires sound { IsSound token.standing }
        requires node { IfSome self.old.standing (λ s. s.node ≡ token.standing.node) }
        ensures adopted { Adopts self.old.standing token.standing self.new.standing }
        ensures met { HaveMet self.old.standing (Some token.standing) }
    {
        keep_later(log, &mut self.token, token);
    }

    // Compares the tokens of two, where both have one. Nothing that contracts see changes.
    fn meet(&mut self, log: &Oplog<B>, other: &mut Mark<B>)
        ensures met { HaveMet self.old.standing other.old.standing }
        ensures same { self.new ≡ self.old }
        ensures other { other.new ≡ other.old }
    {
        let Some(token) = &mut self.token else {
            return;
        };
        let Some(another) = &mut other.token else {
            return;
        };
        token.order(log, another);
    }
}

// Puts a token in the place of the one that is held, or beside it, so that the later one is known.
fn keep_later<B: LogName>(log: &Oplog<B>, held: &mut Option<Token<B>>, token: Token<B>)
    requires sound { IsSound token.standing × IfSome (standing_of held.old) IsSound }
    requires node { IfSome (standing_of held.old) (λ s. s.node ≡ token.standing.node) }
    ensures adopted { Adopts (standing_of held.old) token.standing (standing_of held.new) }
    ensures met { HaveMet (standing_of held.old) (Some token.standing) }
{
    match held {
        Some(last) => {
            let mut token = token;
            last.adopt(log, &mut token);
        }
        None => *held = Some(token),
    }
}

/// Lets each two of these marks meet: then one sequence explains all that the nodes of their workers handed out to these
/// ([`sequence_law`](crate::sequence_law)). Its cost is three loads for each two marks: quadratic in their number.
pub fn meet_marks<B: LogName>(log: &Oplog<B>, marks: &mut [Mark<B>])
    ensures same { marks.new ≡ marks.old }
    ensures sound { AllByRecursion IsSound (standings_of marks.old) }
    ensures one_log { AreAllOfOneLog (standings_of marks.old) }
{
    for place in 0..marks.len() {
        meet_others(log, marks, place);
    }
}

// Lets the mark in a place meet each one behind it. It is taken out meanwhile, so that two can be changed at once.
fn meet_others<B: LogName>(log: &Oplog<B>, marks: &mut [Mark<B>], place: usize)
    requires { place < length marks.old }
    ensures same { marks.new ≡ marks.old }
    ensures met { MeetsOthers place marks.old }
{
    let mut one = mem::replace(&mut marks[place], Mark::new());
    meet_from(log, &mut one, marks, place + 1);
    marks[place] = one;
}

// Lets a mark meet each of these from a place on.
fn meet_from<B: LogName>(log: &Oplog<B>, one: &mut Mark<B>, marks: &mut [Mark<B>], from: usize)
    requires { from ≤ length marks.old }
    ensures one { one.new ≡ one.old }
    ensures same { marks.new ≡ marks.old }
    ensures marked { IsMarked one.old }
    ensures met { HasMetFrom from (length marks.old) one.old marks.old }
{
    // What holds of a mark is known once a field of it is read.
    let _kept = one.token.is_some();
    for other in from..marks.len() {
        one.meet(log, &mut marks[other]);
    }
}
