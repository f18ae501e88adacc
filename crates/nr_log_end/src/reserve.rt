// What came of a try to reserve.
use nr_entry::Shares;

/// What came of a try to reserve a place for an entry.
#[derive(Drop)]
pub enum Reserve {
    /// The entry has this number. The end keeps the shares until their cells are filled.
    Taken(u64),
    /// All places are taken by entries that some node hasn't passed. The shares come back.
    Full(Shares),
    /// Another node reserved in between. The shares come back.
    Lost(Shares),
}
