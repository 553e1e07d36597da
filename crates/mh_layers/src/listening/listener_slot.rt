//! `ListenerSlot`: what the links of one list have in common, by numbers.

/// A source, by its number, and the number of a type of its events.
#[derive(Clone, Copy, PartialEq, Eq, Hash)]
pub(crate) struct EventKey {
    pub source: usize,
    pub kind: u32,
}

/// A group, by its number, and the number of the value that is named; none for the links that name none.
#[derive(Clone, Copy, PartialEq, Eq, Hash)]
pub(crate) struct Share {
    pub group: usize,
    pub value: Option<usize>,
}

/// The links of one group that wait for the same events, and have no data or the same.
#[derive(Clone, Copy, PartialEq, Eq, Hash)]
pub(crate) struct ListenerSlot {
    pub ear: EventKey,
    pub share: Share,
}
