//! `Seal`: what is told of a service.
use crate::Digest;
use mh_base::{GroupName, Seq};

/// A group of a sealed service.
#[derive(Drop)]
pub struct SealedGroup {
    pub name: GroupName,
    pub digest: Digest,
    /// Whether it is a scene whose file may come after the start.
    pub is_late: bool,
}

/// The most steps to which the start and an input of each kind can lead, as the seal states them.
#[derive(Clone, Copy)]
pub struct SealedBounds {
    pub start: u64,
    pub key: u64,
    pub tick: u64,
    pub stream: u64,
    pub engine: u64,
    pub arrive: u64,
}

/// What is told of a service.
#[derive(Drop)]
pub struct Seal {
    /// The application to start with.
    pub start: GroupName,
    /// The groups, in the order of the service.
    pub groups: Seq<SealedGroup>,
    /// The names of the content files that its groups name.
    pub contents: Seq<GroupName>,
    pub bounds: SealedBounds,
    /// The digest of the file that names the tags of the binary notation; of no octets where there is none.
    pub tags: Digest,
}
