//! The slots in which the workers of a node hand batches to the node's combiner, and get their answers.
//!
//! Each worker has one slot: a word, and a place for one parcel, a batch or an answer. Words and places of two workers lie 128 bytes or
//! more apart, so that no two workers write to one cache line.
//!
//! ```text
//!                 word          place
//!            +-------------+-------------------+
//!   worker 0 | 0 empty     |                   |   the worker may post
//!            +-------------+-------------------+
//!   worker 1 | 1 offered   | batch             |   the combiner may lift it
//!            +-------------+-------------------+
//!   worker 2 | 1 offered   |                   |   lifted: the combiner has the batch, and hasn't answered
//!            +-------------+-------------------+
//!   worker 3 | 2 ready     | answer            |   the worker may collect it
//!            +-------------+-------------------+
//! ```
//!
//! The life of one batch. Its jobs are moved, and nothing is copied.
//!
//! ```text
//!   worker                            slot               combiner
//!   post:     takes the place         0
//!             puts the batch in       0  batch
//!             stores 1                1  batch
//!                                     1  batch           lift:    finds 1, takes the place
//!                                     1                           takes the batch out
//!                                     1                           gives the place back
//!                                     1                  answer:  takes the place
//!                                     1  answer                   puts the answer in
//!                                     2  answer                   stores 2
//!   collect:  finds 2, takes the      2  answer
//!             place, and the answer   2
//!             out of it; stores 0     0
//! ```
//!
//! Only the side whose turn it is, by the word and by what it did itself, touches the place, so no call waits. That each batch is
//! lifted once, and that each answer is that of the worker's own last batch, holds between any two steps, whatever the threads do.
//!
//! A note keeps what the combiner had done at one moment. A worker that hears it knows that what was lifted is what it posted first.
#![tactic(auto)]

pub use combiner::CombinerSeat;
pub use law::slots_law;
pub use note::Note;
pub use slots::Slots;
pub use steps::Unanswered;
pub use view::{CombinerPast, Found, Grip, Hand, WorkerPast};
pub use worker::{Uncollected, WorkerSeat};

mod combiner;
mod law;
mod note;
mod opening;
mod plays;
mod slots;
mod steps;
mod view;
mod worker;
