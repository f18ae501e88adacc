// Where the connections of a server come from that is served by several threads, and what wakes these.
ghost use Rattle.std.specs.Prelude.{◌≡◌, ◌∷◌, ◌++◌, [], Some, None};
ghost use Rattle.nr_service.specs.Dealt.{Deals};

use nr_blob::Memory;

/// Whether the threads of a server go on, as the one that deals connections out is told.
#[derive(Clone, Copy, Debug, PartialEq, Eq)]
pub enum Ends {
    /// They go on.
    Not,
    /// They end in order: nothing more is taken or read, and they end once what was read is executed, and what was answered is written.
    InOrder,
    /// They end at once.
    AtOnce,
}

/// What became of a try to bring a node back that was down.
#[derive(Clone, Copy, Debug, PartialEq, Eq)]
pub enum Revival {
    /// It is up again, with so many keys.
    Back(u64),
    /// There was no memory for a copy of another node's server.
    Memory(Memory),
    /// No node is up that could give one, or it is to be tried again.
    NotYet,
}

/// Where connections come from, for the thread that deals them out to those that serve them: the lanes, numbered from 0 on.
pub trait Accepts {
    ghost use Rattle.std.specs.Prelude.{ℕ, Option, None, List};

    // What became of the connections that it took, in order, where that is known: the lane to which each was dealt, none where it was turned away.
    ghost dealt: { Self → Option (List (Option ℕ)) } = { λ _. None };

    /// Every lane is served by now. False where whoever is to hear of that can't be told: then all end.
    fn begin(&mut self) -> bool
        ensures { dealt self.new ≡ dealt self.old }
    {
        true
    }

    /// Takes the next connection that waits, and holds it until it is dealt or turned away. Whether there was one.
    fn accept(&mut self) -> bool
        ensures { dealt self.new ≡ dealt self.old };

    /// Hands the one that it holds to a lane, and wakes that. Where memory is refused it is closed.
    fn deal(&mut self, lane: usize)
        ensures { Deals (Some lane ∷ []) (dealt self.old) (dealt self.new) };

    /// Closes the one that it holds: there is no room for it.
    fn turn_away(&mut self)
        ensures { Deals (None ∷ []) (dealt self.old) (dealt self.new) };

    /// Waits until a connection may wait to be taken, at most 10 milliseconds. False where none can come any more.
    fn wait(&mut self) -> bool
        ensures { dealt self.new ≡ dealt self.old };

    /// Whether the threads go on. It is asked behind each wait.
    fn ending(&mut self) -> Ends
        ensures { dealt self.new ≡ dealt self.old }
    {
        Ends::Not
    }

    /// Hears that a node is down, by which so many of its connections are closed.
    fn hear_of_fall(&mut self, _: usize, _: usize)
        ensures { dealt self.new ≡ dealt self.old }
    {}

    /// Whether it is time to try to bring a node back, which is down. It is asked behind each wait.
    fn is_time_to_revive(&mut self, _: usize) -> bool
        ensures { dealt self.new ≡ dealt self.old }
    {
        false
    }

    /// Hears what became of such a try.
    fn hear_of_revival(&mut self, _: usize, _: Revival)
        ensures { dealt self.new ≡ dealt self.old }
    {}

    /// Whether a node is to refuse the next entry that it applies, as where memory runs out, and to fall by that. It is asked first, behind each wait, and before each try
    /// to bring one back. It is for tests.
    fn refuses(&mut self, _: usize) -> bool
        ensures { dealt self.new ≡ dealt self.old }
    {
        false
    }
}

/// Wakes the threads of a server. Nothing that is proved rests on it: one that isn't woken looks by itself, at most 10 milliseconds later.
pub trait Rings {
    /// The thread of this lane looks soon at what is put before it.
    fn ring(&self, lane: usize);

    /// How many connections that were dealt to this lane became none there since this was last asked, since memory or the system refused it.
    fn take_lost(&self, _: usize) -> u64 {
        0
    }
}

/// Nobody is woken.
#[derive(Clone, Copy, Debug, Drop)]
pub struct Silent;

impl Rings for Silent {
    fn ring(&self, _: usize) {}
}
