// Worked rows, as laws: what the definitions give for bytes and sequences that were written down apart from them.

ghost use Rattle.nr_model.specs.Rows.Modes.{ModeRows};
ghost use Rattle.nr_model.specs.Rows.Sequential.{MessageRows, SequentialRows};
ghost use Rattle.nr_model.specs.Rows.Keys.{KeysRows};
ghost use Rattle.nr_model.specs.Rows.Strings.{StringRows};
ghost use Rattle.nr_model.specs.Rows.Lists.{ListRows};
ghost use Rattle.nr_model.specs.Rows.Hashes.{HashRows};
ghost use Rattle.nr_model.specs.Rows.Sets.{SetRows};
ghost use Rattle.nr_model.specs.Rows.SortedSets.{SortedSetRows};
ghost use Rattle.nr_model.specs.Rows.Nodes.{NodesRows};

/// What the bytes of a connection ask for: transactions, subscriptions, unknown names and ends.
fn mode_rows()
    ensures { ModeRows }
{}

/// Who gets which messages, and the answers of the subscribing commands and PUBLISH.
fn message_rows()
    ensures { MessageRows }
{}

/// Moments, watches, and reads between writes.
fn sequential_rows()
    ensures { SequentialRows }
{}

/// Steps of several nodes: why they are idle, reads off the log, a full circle, a node that falls, one that comes back, and closes.
fn nodes_rows()
    ensures { NodesRows }
{}

/// Keys: the names of a database that match a pattern, in byte order.
fn keys_rows()
    ensures { KeysRows }
{}

/// Strings: ranges, bits and their counts, and strings joined bit by bit.
fn string_rows()
    ensures { StringRows }
{}

/// Lists: ends, indexes, pivots, what is removed by a count, and where an item stands.
fn list_rows()
    ensures { ListRows }
{}

/// Hashes: their fields and values in byte order.
fn hash_rows()
    ensures { HashRows }
{}

/// Sets: what all of them have, one of them, and the first alone.
fn set_rows()
    ensures { SetRows }
{}

/// Sorted sets: their order, ranges by places and bounds, texts of scores, conditions, and several as one.
fn sorted_set_rows()
    ensures { SortedSetRows }
{}
