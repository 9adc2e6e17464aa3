/// A kind of call that changes what a crash may leave of a journal, with its outcome.
#[derive(Clone, Copy, Debug, PartialEq, Eq)]
pub(crate) enum Kind {
    Created,
    NotCreated,
    Put,
    NotPut,
    Synced,
}

/// A call: where it wrote, and how many bytes.
#[derive(Clone, Copy, Debug, PartialEq, Eq)]
pub(crate) struct Mark {
    pub(crate) kind: Kind,
    pub(crate) pos: u64,
    pub(crate) len: usize,
}
