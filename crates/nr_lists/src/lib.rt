//! Lists, as keys hold them: items that are put in and taken out at both ends.
#![tactic(auto)]

pub use list::List;
pub use walk::Items;

mod block;
mod blocks;
mod buffer;
mod chain;
mod few;
mod form;
mod items;
mod list;
mod matches;
mod places;
mod small;
mod walk;
