// What the turns of a worker find for others.
use nr_combiner::Turned;
use nr_node::Round;

/// What the turns of a worker found for others since they were told last.
#[derive(Clone, Copy, Debug)]
pub(crate) struct News {
    /// The other workers of its node that got something: a bit for each, worker 0's the lowest.
    pub others: u16,
    /// An entry was put into the log.
    pub has_put: bool,
    /// The log was full.
    pub was_full: bool,
}

impl News {
    /// Nothing.
    pub(crate) fn none() -> News {
        News {
            others: 0,
            has_put: false,
            was_full: false,
        }
    }

    /// Whether there is none.
    pub(crate) fn is_none(&self) -> bool {
        self.others == 0 && !self.has_put && !self.was_full
    }

    /// What a turn found is added.
    pub(crate) fn add(&mut self, turned: Turned) {
        self.others |= turned.others;
        self.has_put |= turned.has_put;
        self.was_full |= matches!(turned.combined, Ok(Round::Full));
    }

    /// This and what others found.
    pub(crate) fn with(self, more: News) -> News {
        News {
            others: self.others | more.others,
            has_put: self.has_put | more.has_put,
            was_full: self.was_full | more.was_full,
        }
    }
}
