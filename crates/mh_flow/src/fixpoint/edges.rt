//! Edges between sets: to which sets the members of a set go.
//!
//! Promise: whether an edge that may come again is there is one look into a table, and the ends of a set's edges stand in
//! the order in which they came.
ghost use Rattle.std.specs.Prelude.{◌≡◌, ◌<◌, [], length, replicate, true, false, IfOk, OnOk};
ghost use Rattle.std.specs.List.{Contains, slice_index};
ghost use Rattle.mh_flow.specs.Rows.{row, number_rows};
ghost use Rattle.mh_flow.specs.Edging.{ends, HasEdge, AreTabled};

use crate::fixpoint::rows::{count_at, empty_rows, number_at, push_at};
use indexmap::IndexSet;
use std::alloc::{AllocError, Global};

/// An edge from a set to a set.
#[derive(Clone, Copy, PartialEq, Eq, Hash)]
pub struct Edge {
    pub from: usize,
    pub to: usize,
}

/// Edges. The rows have the ends of each set's edges; the table tells of those that may come again that one is there.
#[derive(Drop)]
pub struct Edges {
    table: IndexSet<Edge>,
    rows: Vec<Vec<usize>>,
}

impl Edges {
    /// No edges between so many sets.
    pub fn none(alloc: Global, nodes: usize) -> Result<Self, AllocError>
        ensures ends { IfOk result (λ edges. ends edges ≡ replicate nodes []) }
        ensures tabled { IfOk result AreTabled }
    {
        Ok(Edges {
            table: IndexSet::new(alloc),
            rows: empty_rows(alloc, nodes)?,
        })
    }

    /// Puts an edge in, and tells whether it is new. The table is asked where it may come again.
    pub fn insert(&mut self, from: usize, to: usize, recurs: bool) -> Result<bool, AllocError>
        requires tabled { AreTabled self.old }
        requires from { from < length (ends self.old) }
        ensures tabled { IfOk result (λ is_new. AreTabled self.new) }
        ensures put { IfOk result (λ is_new. HasEdge from to is_new (ends self.old) (ends self.new)) }
    {
        if recurs {
            self.insert_recurring(from, to)
        } else {
            self.push(from, to)?;
            Ok(true)
        }
    }

    /// Puts in an edge that comes once.
    fn push(&mut self, from: usize, to: usize) -> Result<(), AllocError>
        requires tabled { AreTabled self.old }
        requires from { from < length (ends self.old) }
        ensures tabled { OnOk result (AreTabled self.new) }
        ensures put { OnOk result (HasEdge from to true (ends self.old) (ends self.new)) }
    {
        push_at(&mut self.rows, from, to)?;
        Ok(())
    }

    /// Puts in an edge that may have come before.
    fn insert_recurring(&mut self, from: usize, to: usize) -> Result<bool, AllocError>
        requires tabled { AreTabled self.old }
        requires from { from < length (ends self.old) }
        ensures tabled { IfOk result (λ is_new. AreTabled self.new) }
        ensures put { IfOk result (λ is_new. HasEdge from to is_new (ends self.old) (ends self.new)) }
    {
        let is_new = self.table.insert(Edge { from, to })?;
        if is_new {
            push_at(&mut self.rows, from, to)?;
        }
        Ok(is_new)
    }

    /// How many edges lead away from a set.
    pub fn count(&self, from: usize) -> usize
        requires { from < length (ends self.now) }
        ensures { result ≡ length (row (ends self.now) from) }
    {
        count_at(self.rows.as_slice(), from)
    }

    /// The end of the edge at this place of a set.
    pub fn end_at(&self, from: usize, place: usize) -> usize
        requires from { from < length (ends self.now) }
        requires place { place < length (row (ends self.now) from) }
        ensures { result ≡ slice_index (row (ends self.now) from) place }
    {
        number_at(self.rows.as_slice(), from, place)
    }
}
