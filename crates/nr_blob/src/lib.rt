//! Bytes and numbers: owned bytes, integers as texts, ends of ranges, and the refusal for want of memory.
#![tactic(auto)]

pub use blob::{Blob, Bytes, MOST_IN_PLACE};
pub use front::{drop_front, remove_range};
pub use integer::{int_text, read_int};
pub use memory::Memory;
pub use order::compare;
pub use quoted::{on_one_line, push_quoted};
pub use range::{end_of, start_of};

mod blob;
mod front;
mod integer;
mod memory;
mod order;
mod quoted;
mod range;
mod short;
