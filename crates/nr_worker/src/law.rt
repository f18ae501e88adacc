// What workers know together.
ghost use Rattle.nr_worker.specs.Law.{HoldsOfDesks};

/// A law, of what a worker's calls say: what holds of a worker holds of one that has done nothing, and each step keeps it: a connection is
/// opened, its bytes ask for jobs, it gets an end as its node came back, jobs are posted, a turn hands pieces out. And where the marks of some workers, and how the ends
/// of some nodes stood, are of one log, there is one sequence, of nothing but what these know, that explains those ends, and by which each connection that was ever opened at one of them, whether it is still open or gone, was answered: what was handed out for it
/// begins what one sequential Redis emits for it along the sequence, and its first items there are, one by one, the first that its bytes asked for. The numbers of
/// all its items rise along the sequence. And they stand in it in the order of time: what a worker's mark knew at one moment stands in front of all that is fed to
/// its connections behind that moment.
pub fn desk_law()
    ensures { HoldsOfDesks }
{}
