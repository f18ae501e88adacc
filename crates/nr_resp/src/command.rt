// Requests whose command is known, as sessions hand them on. Words are moved.
ghost use Rattle.std.specs.Prelude.{◌≡◌, drop};

use nr_blob::Blob;
use nr_model::command::Command;

/// A request whose name was found and whose words are as many as its command asks for.
#[derive(Debug, Drop)]
pub struct Cmd {
    pub command: Command,
    /// All words, the name first, as it was sent.
    pub words: Vec<Blob>,
}

/// The words behind a request's name.
pub fn arguments(words: &[Blob]) -> &[Blob]
    ensures { result.now ≡ drop 1 words.now }
{
    match words.split_first() {
        Some((_, arguments)) => arguments,
        None => words,
    }
}
