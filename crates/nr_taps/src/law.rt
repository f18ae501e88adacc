// That one sequence explains standings of one log.
ghost use Rattle.nr_taps.specs.Sequence.{HaveOneSequence};

/// A law: sound standings, each two of which are of one log, are explained by one sequence of what was taken from the jobs of all nodes.
pub fn sequence_law()
    ensures { HaveOneSequence }
{}
