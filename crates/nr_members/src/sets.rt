// The commands of the section on sets.

/// SADD and SREM.
pub mod changing;
/// SINTER, SUNION and SDIFF, with and without STORE.
pub mod combining;
/// SINTERCARD.
pub mod counting;
mod stored;
/// The commands that look at one set.
pub mod looks;
/// SMOVE.
pub mod moving;
