// What is held for a while, and let go here.
use nr_combiner::{Combiner, ServerName};

/// Lets a node go that is behind no lock.
pub fn let_go<B: ServerName>(combiner: Combiner<B>) {
    let _combiner = combiner;
}
