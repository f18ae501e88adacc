//! What the commands on lists do. A body reads the words behind the name of its command, and looks at the keyspace or changes it.
#![tactic(auto)]

mod stored;
/// The commands that only look.
pub mod looks;
/// LMOVE and RPOPLPUSH.
pub mod moving;
mod places;
/// LPOP, RPOP and LMPOP.
pub mod popping;
/// LPUSH, RPUSH, LPUSHX and RPUSHX.
pub mod pushing;
mod words;
/// LSET, LTRIM, LINSERT and LREM.
pub mod writing;
