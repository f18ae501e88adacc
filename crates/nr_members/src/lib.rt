//! What commands on fields and members do. A body reads the words behind the name of its command, and looks at the keyspace or changes it.
#![tactic(auto)]

/// The commands on hashes.
pub mod hashes;
/// The commands on sets.
pub mod sets;
