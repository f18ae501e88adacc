//! The operation log on atomic words: one log of entries, which all nodes share, in a circle of places.
//!
//! Entry number x stands in place x mod `places`. Each node has a cell of its own in each place: a slot for its share of the entry, and
//! beside it a stamp, the number of the entry last put there and 1. Three nodes, four places, seven entries reserved:
//!
//! ```text
//!                    word 0: tail = 7, how many entries were reserved
//!
//!              passed    place 0      place 1      place 2      place 3
//!     node 0     4      4 | stamp 5  5 | stamp 6  6 | stamp 3  3 | stamp 4
//!                       [share of 4] [share of 5] [   none   ] [   none   ]
//!                         its next     filled       reserved,     passed
//!                                                   not filled
//!     node 1     7      4 | stamp 5  5 | stamp 6  6 | stamp 7  3 | stamp 4
//!                       [   none   ] [   none   ] [   none   ] [   none   ]
//!                         has passed all that there is: its next is 7
//!     node 2     3      4 | stamp 5  5 | stamp 6  6 | stamp 7  3 | stamp 4
//!                       [share of 4] [share of 5] [share of 6] [share of 3]
//!                         its next is 3. The circle is full: 7 - 3 = 4 places
//! ```
//!
//! The life of an entry, by the node that appends it and then by each node:
//!
//! ```text
//!     reserve   load the tail x; if the least passed count met is too old, load the counts again: Full if one is `places` behind
//!               exchange the tail x for x + 1: Lost if it moved in between. The entry has the number x from here on
//!     fill      for each node: load the stamp, which takes the slot; put the share in; store the stamp x + 1, which gives the slot back
//!     fetch     load the stamp of the own next cell: if it is x + 1 this takes the slot; take the share out
//!     pass      store the own passed count x + 1, which gives the slot back, empty. Once all nodes passed x, its place is free for
//!               x + places
//! ```
//!
//! A read takes no entry: `note` puts it into its node's history, behind what was passed. A token keeps what a node knew at one moment.
//! No call waits, and none takes memory once the log has its name. The rule that holds between any two steps stands in `specs/Rule.antt`, and
//! each step's proof in a file of `proofs/`: `Looks` (tail, counts, reads), `Claims` (reservations), `Fills`, `Fetches` and `Passes` (cells,
//! stamps and what is known) and `Comings` (seats and tokens).
#![tactic(auto)]

pub use end::End;
pub use law::log_law;
pub use log::{LogName, Oplog};
pub use open::OpenedLog;
pub use seat::{LogSeat, MOST_ENTRIES};
pub use token::Token;
pub use view::{LogShape, LogView};

mod end;
mod law;
mod log;
mod open;
mod opening;
mod plays;
mod seat;
mod steps;
mod token;
mod view;
