//! `Lists`: what each set has, as references. Sets that are alike share one list.
//!
//! Promise: there is a list for each row of bits, of the references whose bits are set.
ghost use Rattle.std.specs.Prelude.{◌≡◌, ◌<◌, ◌+◌, ◌++◌, ◌∷◌, [], length, map, slice_get, take, unwrap_or, IfOk, IfSome, OnOk};
ghost use Rattle.mh_flow.specs.Rows.{row};
ghost use Rattle.mh_flow.specs.Sets.{members_of};
ghost use Rattle.mh_flow.specs.Solved.{list_at, named, named_in};

use crate::chart::Chart;
use crate::fixpoint::sets::Sets;
use indexmap::IndexMap;
use mh_base::{ObjRef, Shared};
use std::alloc::{AllocError, Global};
use std::marker::Model;

/// What each set has, as references.
#[derive(Drop)]
pub(crate) struct Lists {
    lists: Vec<Shared<ObjRef>>,
    /// The number of the list of each set.
    numbers: Vec<usize>,
}

impl Model for Lists {
    ghost use Rattle.std.specs.Prelude.{List, map};
    ghost use Rattle.mh_base.specs.declared.obj_ref.ObjRef.{ObjRef as ObjRefValue};
    ghost use Rattle.mh_flow.specs.Solved.{AreWithin, list_at};

    ghost Value = { List (List ObjRefValue) };

    ghost view = { λ l. map (list_at l.lists.items) l.numbers.items };

    ghost invariant = { λ l. AreWithin l.lists.items l.numbers.items };
}

/// The sets that are met so far, each under a number that sets which are alike have in common.
type Met = IndexMap<u64, usize>;

impl Lists {
    /// No lists.
    fn new(alloc: Global) -> Lists
        ensures { result ≡ [] }
    {
        Lists {
            lists: Vec::new(alloc),
            numbers: Vec::new(alloc),
        }
    }

    /// What the sets have.
    pub fn of(alloc: Global, chart: &Chart, sets: &Sets) -> Result<Lists, AllocError>
        ensures { IfOk result (λ lists. lists ≡ map (named_in chart.now.members) sets.now) }
    {
        let mut lists = Lists::new(alloc);
        let mut met = IndexMap::new(alloc);
        for node in 0..sets.len() {
            lists.push_set(alloc, &mut met, chart, sets, node)?;
        }
        Ok(lists)
    }

    /// The list of the set with this number, if there is one.
    pub fn share(&self, node: usize) -> Result<Option<Shared<ObjRef>>, AllocError>
        ensures { IfOk result (λ list. unwrap_or list [] ≡ unwrap_or (slice_get self.now node) []) }
    {
        match self.numbers.get(node) {
            None => Ok(None),
            Some(number) => shared_at(self.lists.as_slice(), *number),
        }
    }

    /// Puts a list behind these that one of them has already.
    fn push_again(&mut self, first: usize) -> Result<(), AllocError>
        requires { first < length self.old }
        ensures { OnOk result (self.new ≡ self.old ++ unwrap_or (slice_get self.old first) [] ∷ []) }
    {
        let number = self.numbers[first];
        self.numbers.push(number)?;
        Ok(())
    }

    /// Puts a list behind these.
    fn push(&mut self, list: Shared<ObjRef>) -> Result<(), AllocError>
        ensures { OnOk result (self.new ≡ self.old ++ list ∷ []) }
    {
        let number = self.lists.len();
        self.lists.push(list)?;
        self.numbers.push(number)?;
        Ok(())
    }

    /// Puts the list of the set behind those of the sets before it: that of one which is alike, if one was met.
    fn push_set(
        &mut self,
        alloc: Global,
        met: &mut Met,
        chart: &Chart,
        sets: &Sets,
        node: usize,
    ) -> Result<(), AllocError>
        requires there { node < length sets.now }
        requires before { self.old ≡ map (named_in chart.now.members) (take node sets.now) }
        ensures { OnOk result (self.new ≡ map (named_in chart.now.members) (take (node + 1) sets.now)) }
    {
        let mark = sets.mark(node);
        match alike(sets, met.get(&mark).copied(), node) {
            Some(first) => {
                self.push_again(first)?;
                Ok(())
            }
            None => {
                met.insert(mark, node)?;
                let list = references(alloc, chart, sets, node)?;
                self.push(Shared::from_vec(alloc, list)?)?;
                Ok(())
            }
        }
    }
}

/// The list with this number, if there is one.
fn shared_at(lists: &[Shared<ObjRef>], number: usize) -> Result<Option<Shared<ObjRef>>, AllocError>
    ensures { IfOk result (λ list. unwrap_or list [] ≡ list_at lists.now number) }
{
    match lists.get(number) {
        None => Ok(None),
        Some(list) => Ok(Some(list.clone()?)),
    }
}

/// The set that was met, if it stands before this one and both are alike.
fn alike(sets: &Sets, met: Option<usize>, node: usize) -> Option<usize>
    ensures { IfSome result (λ first. (first < node) × (row sets.now first ≡ row sets.now node)) }
{
    match met {
        None => None,
        Some(first) => {
            if first < node && sets.are_alike(first, node) {
                Some(first)
            } else {
                None
            }
        }
    }
}

/// What the set has.
fn references(
    alloc: Global,
    chart: &Chart,
    sets: &Sets,
    node: usize,
) -> Result<Vec<ObjRef>, AllocError>
    ensures { IfOk result (λ list. list.items ≡ named chart.now.members (members_of sets.now node)) }
{
    let numbers = sets.members(alloc, node)?;
    named_by(alloc, chart, numbers.as_slice())
}

/// The references with these numbers.
fn named_by(alloc: Global, chart: &Chart, numbers: &[usize]) -> Result<Vec<ObjRef>, AllocError>
    ensures { IfOk result (λ list. list.items ≡ named chart.now.members numbers.now) }
{
    let mut list = Vec::with_capacity(alloc, numbers.len())?;
    for number in numbers {
        if let Some(at) = chart.member_at(*number) {
            list.push(at.clone()?)?;
        }
    }
    Ok(list)
}
