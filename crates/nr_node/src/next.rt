// The entry that a node takes to the log next.
use nr_entry::{Shares, Unshared};

/// An entry on its way into the log. It goes there as shares, one for each node, which come back where it finds no place.
#[derive(Drop)]
pub(crate) enum Next {
    Unshared(Unshared),
    Shared(Shares),
}
