//! Sets, as keys hold them: members in byte order, and several sets as one.
#![tactic(auto)]

pub use members::Members;
pub use set::Set;
pub use several::{difference, has, intersection, union};

mod each;
mod form;
mod members;
mod set;
mod several;
