//! What is known so far: members and edges.
//!
//! Promise: all that is known is derived, each call keeps what was known, what is new is fresh, and all that is known but
//! what is fresh has its consequences known.
ghost use Rattle.std.specs.Prelude.{◌≡◌, ◌<◌, ℕ, true, IfOk, OnOk};
ghost use Rattle.std.specs.List.{Contains};
ghost use Rattle.mh_flow.specs.declared.fixpoint.constraints.Item.TheVariants as item;
ghost use Rattle.mh_flow.specs.Rows.{has};
ghost use Rattle.mh_flow.specs.Constraints.{Derived, fits, IsFit};
ghost use Rattle.mh_flow.specs.Gathering.{
  view,
  IsIn,
  IsBegun,
  IsSound,
  IsStep,
  IsKnown,
  AreOpened,
  AreAllOpened,
  IsSpread,
  IsFollowed,
};

use crate::fixpoint::bits::Bits;
use crate::fixpoint::constraints::{Fact, Item, Rules};
use crate::fixpoint::edges::Edges;
use crate::fixpoint::members::Members;
use crate::fixpoint::sets::Sets;
use std::alloc::{AllocError, Global};

/// What is known so far.
#[derive(Drop)]
pub struct Gathered {
    pub members: Members,
    pub edges: Edges,
}

impl Gathered {
    /// Nothing is known of so many sets, of numbers below this width.
    pub fn nothing(alloc: Global, nodes: usize, width: usize) -> Result<Self, AllocError>
        ensures { IfOk result (λ gathered. IsBegun nodes width (view gathered)) }
    {
        Ok(Gathered {
            members: Members::nothing(alloc, nodes, width)?,
            edges: Edges::none(alloc, nodes)?,
        })
    }

    /// A member that may be known.
    fn add<R: Rules>(&mut self, rules: &R, fact: Fact) -> Result<(), AllocError>
        requires sound { IsSound (R.system rules.now) (view self.old) }
        requires fits { fits (R.system rules.now) (item.Member fact) }
        requires derived { Derived (R.system rules.now) (item.Member fact) }
        ensures sound { OnOk result (IsSound (R.system rules.now) (view self.new)) }
        ensures step { OnOk result (IsStep (R.system rules.now) (view self.old) (view self.new)) }
        ensures put { OnOk result (IsIn (view self.new) (item.Member fact)) }
    {
        self.members.add(fact)?;
        Ok(())
    }

    /// An edge that may be known; all that is known goes along it at once.
    fn add_edge<R: Rules>(&mut self, rules: &R, from: usize, to: usize) -> Result<(), AllocError>
        requires sound { IsSound (R.system rules.now) (view self.old) }
        requires fits { fits (R.system rules.now) (item.Edge from to) }
        requires derived { Derived (R.system rules.now) (item.Edge from to) }
        ensures sound { OnOk result (IsSound (R.system rules.now) (view self.new)) }
        ensures step { OnOk result (IsStep (R.system rules.now) (view self.old) (view self.new)) }
        ensures put { OnOk result (IsIn (view self.new) (item.Edge from to)) }
    {
        // Rules may open an edge many times; its members go along it once.
        let is_new = self.edges.insert(from, to, rules.recurs(from, to))?;
        if is_new {
            self.members.carry(from, to)?;
        }
        Ok(())
    }

    /// A member or an edge.
    fn put<R: Rules>(&mut self, rules: &R, item: Item) -> Result<(), AllocError>
        requires sound { IsSound (R.system rules.now) (view self.old) }
        requires fits { fits (R.system rules.now) item }
        requires derived { Derived (R.system rules.now) item }
        ensures sound { OnOk result (IsSound (R.system rules.now) (view self.new)) }
        ensures step { OnOk result (IsStep (R.system rules.now) (view self.old) (view self.new)) }
        ensures put { OnOk result (IsIn (view self.new) item) }
    {
        match item {
            Item::Member(fact) => self.add(rules, fact)?,
            Item::Edge(from, to) => self.add_edge(rules, from, to)?,
        }
        Ok(())
    }

    /// All these.
    pub fn put_each<R: Rules>(&mut self, rules: &R, items: &[Item]) -> Result<(), AllocError>
        requires sound { IsSound (R.system rules.now) (view self.old) }
        requires fits { (x : _) → Contains items.now x → fits (R.system rules.now) x }
        requires derived { (x : _) → Contains items.now x → Derived (R.system rules.now) x }
        ensures sound { OnOk result (IsSound (R.system rules.now) (view self.new)) }
        ensures step { OnOk result (IsStep (R.system rules.now) (view self.old) (view self.new)) }
        ensures put { OnOk result ((x : _) → Contains items.now x → IsIn (view self.new) x) }
    {
        for item in items {
            self.put(rules, *item)?;
        }
        Ok(())
    }

    /// What a member opens that is known; the list is room for it.
    fn open<R: Rules>(
        &mut self,
        rules: &R,
        fact: Fact,
        items: &mut Vec<Item>,
    ) -> Result<(), AllocError>
        requires fit { IsFit (R.system rules.now) }
        requires sound { IsSound (R.system rules.now) (view self.old) }
        requires known { IsIn (view self.old) (item.Member fact) }
        ensures sound { OnOk result (IsSound (R.system rules.now) (view self.new)) }
        ensures step { OnOk result (IsStep (R.system rules.now) (view self.old) (view self.new)) }
        ensures opened { OnOk result ((x : _) → Contains ((R.system rules.now).opens fact) x → IsIn (view self.new) x) }
    {
        items.clear();
        rules.open(fact, items)?;
        self.put_each(rules, items.as_slice())?;
        Ok(())
    }

    /// What these members open, all of which are known of the set.
    fn open_each<R: Rules>(
        &mut self,
        rules: &R,
        node: usize,
        members: &[usize],
        items: &mut Vec<Item>,
    ) -> Result<(), AllocError>
        requires fit { IsFit (R.system rules.now) }
        requires sound { IsSound (R.system rules.now) (view self.old) }
        requires known { (q : ℕ) → Contains members.now q → has (view self.old).members.known node q ≡ true }
        ensures sound { OnOk result (IsSound (R.system rules.now) (view self.new)) }
        ensures step { OnOk result (IsStep (R.system rules.now) (view self.old) (view self.new)) }
        ensures opened { OnOk result (AreAllOpened (R.system rules.now) (view self.new) node members.now) }
    {
        for member in members {
            self.open(
                rules,
                Fact {
                    node,
                    member: *member,
                },
                items,
            )?;
        }
        Ok(())
    }

    /// What the members of a row open, all of which are known of the set.
    fn open_row<R: Rules>(
        &mut self,
        rules: &R,
        node: usize,
        row: &Bits,
        items: &mut Vec<Item>,
    ) -> Result<(), AllocError>
        requires fit { IsFit (R.system rules.now) }
        requires sound { IsSound (R.system rules.now) (view self.old) }
        requires known { IsKnown (view self.old) node row.now }
        ensures sound { OnOk result (IsSound (R.system rules.now) (view self.new)) }
        ensures step { OnOk result (IsStep (R.system rules.now) (view self.old) (view self.new)) }
        ensures opened { OnOk result (AreOpened (R.system rules.now) (view self.new) node row.now) }
    {
        // Most sets have members that open nothing.
        if !rules.opens_at(node) {
            return Ok(());
        }
        let members = row.places(self.members.alloc)?;
        self.open_each(rules, node, members.as_slice(), items)?;
        Ok(())
    }

    /// The members of a row, all of which are known of the set, along all its edges.
    fn spread<R: Rules>(&mut self, rules: &R, node: usize, row: &Bits) -> Result<(), AllocError>
        requires fit { IsFit (R.system rules.now) }
        requires sound { IsSound (R.system rules.now) (view self.old) }
        requires node { node < (R.system rules.now).nodes }
        requires known { IsKnown (view self.old) node row.now }
        ensures sound { OnOk result (IsSound (R.system rules.now) (view self.new)) }
        ensures step { OnOk result (IsStep (R.system rules.now) (view self.old) (view self.new)) }
        ensures gone { OnOk result (IsSpread (view self.new) node row.now) }
    {
        for place in 0..self.edges.count(node) {
            let to = self.edges.end_at(node, place);
            self.members.pass(row, to)?;
        }
        Ok(())
    }

    /// What follows from the members of a row, all of which are known of the set; the list is room for what they open.
    pub fn follow<R: Rules>(
        &mut self,
        rules: &R,
        node: usize,
        row: &Bits,
        items: &mut Vec<Item>,
    ) -> Result<(), AllocError>
        requires fit { IsFit (R.system rules.now) }
        requires sound { IsSound (R.system rules.now) (view self.old) }
        requires node { node < (R.system rules.now).nodes }
        requires known { IsKnown (view self.old) node row.now }
        ensures sound { OnOk result (IsSound (R.system rules.now) (view self.new)) }
        ensures step { OnOk result (IsStep (R.system rules.now) (view self.old) (view self.new)) }
        ensures closed { OnOk result (IsFollowed (R.system rules.now) (view self.old) (view self.new) node row.now) }
    {
        self.open_row(rules, node, row, items)?;
        self.spread(rules, node, row)?;
        Ok(())
    }

    /// The members of all sets.
    pub fn into_sets(self) -> Sets
        ensures { result ≡ self.members.known.items }
    {
        Sets::of(self.members.known)
    }
}
