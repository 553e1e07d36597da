//! `Session`: what is kept from one message to the next.
use crate::documents::Documents;
use mh_protocol::Unit;
use std::alloc::Global;

/// How far the conversation is.
#[derive(Clone, Copy, PartialEq, Eq)]
pub(crate) enum Phase {
    /// Nothing was initialized.
    Fresh,
    Running,
    /// The editor asked for the end.
    Closing,
    Ended,
}

/// A file of which something was told: its path, and the folder of its service.
#[derive(Drop)]
pub(crate) struct Told {
    pub(crate) folder: Vec<u8>,
    pub(crate) path: Vec<u8>,
}

#[derive(Drop)]
pub(crate) struct Session {
    pub(crate) phase: Phase,
    /// Whether the end was asked for before it came.
    pub(crate) is_closed_well: bool,
    pub(crate) unit: Unit,
    pub(crate) documents: Documents,
    pub(crate) told: Vec<Told>,
}

impl Session {
    pub(crate) fn new(alloc: Global) -> Session {
        Session {
            phase: Phase::Fresh,
            is_closed_well: false,
            unit: Unit::Utf16,
            documents: Documents::new(alloc),
            told: Vec::new(alloc),
        }
    }
}
