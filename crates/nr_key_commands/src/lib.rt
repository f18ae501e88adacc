//! What commands do: those on connections and the server, on keys of any kind, and on strings. A body reads the words behind the name of
//! its command, and looks at the keyspace or changes it.
#![tactic(auto)]

mod databases;
/// The commands on keys, whatever they hold.
pub mod keys;
/// The commands on connections and the server.
pub mod server;
/// The commands on strings.
pub mod strings;
