// The commands of the section on strings.

/// BITOP.
pub mod bits;
mod stored;
/// The commands that only look.
pub mod looks;
/// INCR and its like.
pub mod numbers;
mod options;
/// SET and its like.
pub mod setting;
/// MSET and MSETNX.
pub mod several;
/// GETDEL and GETEX.
pub mod taking;
/// APPEND, SETRANGE and SETBIT.
pub mod writing;
