//! Sets of numbers, as rows of bits.
//!
//! Promise: whether a set has a member is one look, and its members are listed from the smallest up. A set that is not
//! there has none.
ghost use Rattle.std.specs.Prelude.{◌≡◌, true, length, IfOk};
ghost use Rattle.mh_flow.specs.Rows.{has, row};
ghost use Rattle.mh_flow.specs.Sets.{members_of};

use crate::fixpoint::bits::Bits;
use std::alloc::{AllocError, Global};
use std::marker::Model;

/// Sets of numbers, each under a number of its own.
#[derive(Drop)]
pub struct Sets {
    rows: Vec<Bits>,
}

impl Model for Sets {
    ghost use Rattle.std.specs.Prelude.{List, Bool};

    ghost Value = { List (List Bool) };

    ghost view = { λ s. s.rows.items };
}

impl Sets {
    /// The sets of these rows.
    pub(crate) fn of(rows: Vec<Bits>) -> Self
        ensures { result ≡ rows.items }
    {
        Sets { rows }
    }

    /// Whether the set has this member.
    pub fn has(&self, node: usize, member: usize) -> bool
        ensures { result ≡ has self.now node member }
    {
        node < self.rows.len() && self.rows[node].has(member)
    }

    /// The members of the set, from the smallest up.
    pub fn members(&self, alloc: Global, node: usize) -> Result<Vec<usize>, AllocError>
        ensures { IfOk result (λ found. found.items ≡ members_of self.now node) }
    {
        if node < self.rows.len() {
            self.rows[node].places(alloc)
        } else {
            Ok(Vec::new(alloc))
        }
    }

    /// How many sets there are.
    pub fn len(&self) -> usize
        ensures { result ≡ length self.now }
    {
        self.rows.len()
    }

    /// Whether both sets are known to have the same members.
    pub fn are_alike(&self, first: usize, second: usize) -> bool
        ensures { result ≡ true → row self.now first ≡ row self.now second }
    {
        if self.rows.len() <= first || self.rows.len() <= second {
            return false;
        }
        self.rows[first].is_alike(&self.rows[second])
    }

    /// A number that is the same for sets with the same members.
    pub fn mark(&self, node: usize) -> u64 {
        match self.rows.get(node) {
            None => 0,
            Some(row) => row.mark(),
        }
    }
}
