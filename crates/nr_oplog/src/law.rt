// What the rule of the log says of counts that were met, and of whose each entry is.
ghost use Rattle.nr_oplog.specs.Law.{HoldsOfCounts, HoldsOfEntries};

/// A law: whenever the rule of the log holds, which is between any two steps, a count of passed entries that any seat has met is at most what
/// that node has passed, and each number below the tail was reserved by one node, once.
pub fn log_law()
    ensures counts { HoldsOfCounts }
    ensures entries { HoldsOfEntries }
{}
