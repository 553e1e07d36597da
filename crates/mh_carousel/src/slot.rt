//! `Slot` and `Chain`: a place in the order of coming, and the places of those that wait for one file.

/// A place in the order in which objects came to wait.
#[derive(Clone, Copy)]
pub(crate) struct Slot {
    /// Where the object stands in the table of objects.
    pub object: usize,
    /// Where the name of its file stands in the table of names.
    pub name: usize,
    /// The place before this one for the same file.
    pub older: Option<usize>,
}

/// The places of those that wait for one file.
#[derive(Clone, Copy)]
pub(crate) struct Chain {
    /// The last of them. Each leads to the one before it.
    pub newest: Option<usize>,
    /// Nobody waits at the places before this one any more: the file came then.
    pub from: usize,
}
