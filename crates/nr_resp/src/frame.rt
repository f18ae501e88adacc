// A request: its words, as the reader hands them on.
use nr_blob::Blob;

/// One request: its words, the name first. It has at least one.
#[derive(Debug, Drop)]
pub struct Frame {
    pub words: Vec<Blob>,
}
