//! A bucket of the index of links: the links whose sources have numbers that are alike to the index.
ghost use Rattle.std.specs.Prelude.{◌≡◌, ◌++◌, ◌∷◌, ◌%◌, ◌^◌, [], true, OnOk, OnErr};
ghost use Rattle.mh_work.specs.Listening.{hears_for, waiting_in};

use smallvec::SmallVec;
use std::alloc::{AllocError, Global};
use std::marker::Model;

/// A link as the index knows it: the number of the object whose events it waits for, that of their type,
/// and its place among the objects that are present.
#[derive(Clone, Copy, Default, Drop)]
pub struct Listener {
    pub source: u32,
    pub kind: u32,
    pub place: usize,
}

impl Listener {
    /// Whether it waits for events of this type from an object of this number.
    pub fn hears(self, source: u32, kind: u32) -> bool
        ensures { result ≡ hears_for source kind self }
    {
        self.source == source && self.kind == kind
    }
}

/// Listeners, in the order in which they were put. A contract sees their list.
#[derive(Drop)]
pub(crate) struct Bucket {
    /// A bit for each type, by its number modulo 32, that one of them waits for at least.
    types: u32,
    listeners: SmallVec<Listener, 2>,
}

impl Model for Bucket {
    ghost use Rattle.std.specs.Prelude.{List};
    ghost use Rattle.mh_work.specs.Listening.{AreMarked};
    ghost use Rattle.mh_work.specs.declared.bucket.Listener.{Listener};

    ghost Value = { List Listener };

    ghost view = { λ bucket. bucket.listeners.items };

    ghost invariant = { λ bucket. AreMarked bucket.types bucket.listeners.items };
}

impl Bucket {
    /// A bucket with no listener. It takes no memory.
    pub fn new(alloc: Global) -> Bucket
        ensures { result ≡ [] }
    {
        Bucket {
            types: 0,
            listeners: SmallVec::new(alloc),
        }
    }

    /// Puts a listener at the end. Where memory is refused, the bucket stays as it was.
    pub fn push(&mut self, listener: Listener) -> Result<(), AllocError>
        ensures added { OnOk result (self.new ≡ self.old ++ listener ∷ []) }
        ensures kept { OnErr result (self.new ≡ self.old) }
    {
        self.listeners.push(listener)?;
        self.types |= type_bit(listener.kind);
        Ok(())
    }

    pub fn as_slice(&self) -> &[Listener]
        ensures { result.now ≡ self.now }
    {
        self.listeners.as_slice()
    }

    /// Whether the bits alone tell that none of them waits for this type.
    pub fn has_none(&self, kind: u32) -> bool
        ensures { result ≡ true → (n : _) → waiting_in n kind self.now ≡ [] }
    {
        self.types & type_bit(kind) == 0
    }
}

/// The bit of a type.
fn type_bit(kind: u32) -> u32
    ensures { result ≡ 2 ^ (kind % 32) }
{
    1 << (kind % 32)
}
