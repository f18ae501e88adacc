//! Keys, their values and deadlines, in sixteen databases. A machine owns one keyspace, and commands read and change it. It touches
//! memory alone, and knows no clock: each call is handed its moment.
#![tactic(auto)]

pub use collections::{
    HashEdit, ListEdit, OnHash, OnList, OnSet, OnSortedSet, SetEdit, SortedSetEdit,
};
pub use db::Db;
pub use edit::{Edit, OnString, StringEdit};
pub use keyspace::Keyspace;
pub use moment::is_live;
pub use touched::{Nobody, Touched};
pub use value::Value;

mod collections;
mod cuts;
mod database;
mod databases;
mod db;
mod deadlines;
mod edit;
mod emptied;
mod kept_deadline;
mod keyspace;
mod moment;
mod touched;
mod value;

/// What becomes of a key with another deadline.
pub mod deadline;
