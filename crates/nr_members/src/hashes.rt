// The commands of the section on hashes.

mod edited;
mod stored;
/// The commands that only look.
pub mod looks;
/// HINCRBY.
pub mod numbers;
/// HDEL.
pub mod removing;
/// HSET and its like.
pub mod setting;
