//! What commands on sorted sets do. A body reads the words behind the name of its command, and looks at the keyspace or changes it.
#![tactic(auto)]

mod changing;
mod edited;
mod stored;
/// The commands that look members up by name.
pub mod looks;
/// ZPOPMIN and ZPOPMAX.
pub mod popping;
/// The commands that tell of ranges.
pub mod ranges;
/// The commands that take members out.
pub mod removing;
/// ZADD and ZINCRBY.
pub mod scoring;
/// ZUNIONSTORE and ZINTERSTORE.
pub mod storing;
