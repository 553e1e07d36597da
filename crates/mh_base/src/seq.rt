//! `Seq`: a list that contracts see as a list.
ghost use Rattle.std.specs.Prelude.{◌≡◌, ◌==◌, ◌++◌, ◌∷◌, [], length, IfOk, OnOk, OnErr};

use std::alloc::{AllocError, Global};
use std::marker::Model;

/// A list that grows at its end. A contract sees the list of its members.
#[derive(Drop)]
pub struct Seq<T> {
    vector: Vec<T>,
}

impl<T> Model for Seq<T> {
    ghost use Rattle.std.specs.Prelude.{List};
    ghost use Rattle.std.specs.Coded.{coded_list};

    ghost Value = { List T };

    ghost coded = { coded_list T.code };

    ghost view = { λ a. a.vector.items };
}

impl<T> Seq<T> {
    /// A list with no member. It takes no memory.
    pub fn new(alloc: Global) -> Self
        ensures { result ≡ [] }
    {
        Seq {
            vector: Vec::new(alloc),
        }
    }

    /// A list with no member, and with room for so many.
    pub fn with_capacity(alloc: Global, capacity: usize) -> Result<Self, AllocError>
        ensures { IfOk result (λ list. list ≡ []) }
    {
        Ok(Seq {
            vector: Vec::with_capacity(alloc, capacity)?,
        })
    }

    /// The members of a vector, which it takes over as they lie.
    pub fn from_vec(vector: Vec<T>) -> Self
        ensures { result ≡ vector.items }
    {
        Seq { vector }
    }

    /// The vector of the members, handed over as they lie.
    pub fn into_vec(self) -> Vec<T>
        ensures { result.items ≡ self }
    {
        let Seq { vector } = self;
        vector
    }

    pub fn as_slice(&self) -> &[T]
        ensures { result.now ≡ self.now }
    {
        self.vector.as_slice()
    }

    pub fn len(&self) -> usize
        ensures { result ≡ length self.now }
    {
        self.vector.len()
    }

    pub fn is_empty(&self) -> bool
        ensures { result ≡ (length self.now == 0) }
    {
        self.vector.is_empty()
    }

    /// Puts a member at the end. Where memory is refused, the list stays as it was.
    pub fn push(&mut self, member: T) -> Result<(), AllocError>
    where
        T: Drop,
        ensures added { OnOk result (self.new ≡ self.old ++ member ∷ []) }
        ensures kept { OnErr result (self.new ≡ self.old) }
    {
        self.vector.push(member)?;
        Ok(())
    }
}
