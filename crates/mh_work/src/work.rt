//! The work list, as a stack of portions: looking at its first item, and putting batches in the place of
//! that item, cost the same however long the list is.
ghost use Rattle.std.specs.Prelude.{◌≡◌, ◌∷◌, ◌++◌, ◌+◌, ◌<◌, ◌≤◌, true, drop, vec_len, []};
ghost use Rattle.std.specs.Prelude.{IfOk, IfSome, OnOk, Some, slice_get};
ghost use Rattle.std.specs.VecDeque.{deque_len, deque_capacity};
ghost use Rattle.mh_work.specs.Listed.{listed};
ghost use Rattle.mh_model.specs.Items.{acts};
ghost use Rattle.mh_model.specs.Step.{is_empty};
ghost use Rattle.mh_work.specs.Batches.{items_of, written};
ghost use Rattle.mh_work.specs.Portions.{AreLive, IsFront, flat, goes_on, has_more, is_live, left_of};
ghost use Rattle.mh_work.specs.Portions.{passed, passed_first};

use crate::batch::Batch;
use crate::portion::{Front, Portion, act_in, event_of, front_in, pass};
use crate::put::Put;
use mh_model::{Act, Effect, Event, Item};
use std::alloc::{AllocError, Global};
use std::collections::VecDeque;
use std::marker::Model;
use std::mem;

/// The work that is to be done. A contract sees the items, and for how many more batches there is
/// room.
#[derive(Drop)]
pub struct Work {
    /// The first one in front.
    portions: VecDeque<Portion>,
    /// A list of nothing, in whose memory the next batches are made.
    spare: Vec<Batch>,
}

impl Model for Work {
    ghost use Rattle.std.specs.Prelude.{◌≡◌, ◌-◌, []};
    ghost use Rattle.std.specs.VecDeque.{deque_len, deque_capacity};
    ghost use Rattle.mh_work.specs.Portions.{AreLive, WorkList, flat};

    ghost Value = { WorkList };

    ghost view = { λ w. record {
      items = flat w.portions.items;
      room = deque_capacity w.portions - deque_len w.portions;
    } };

    ghost invariant = { λ w. AreLive w.portions.items × (w.spare.items ≡ []) };
}

impl Work {
    /// A list with these batches, written out.
    pub fn of_batches(alloc: Global, batches: Vec<Batch>) -> Result<Work, AllocError>
        ensures items { IfOk result (λ work. work.items ≡ written batches.items) }
    {
        let mut portions = VecDeque::with_capacity(alloc, batches.len())?;
        let spare = put_in_front(&mut portions, batches);
        Ok(Work { portions, spare })
    }

    pub fn is_empty(&self) -> bool
        ensures { result ≡ is_empty self.now.items }
    {
        holds_nothing(&self.portions)
    }

    /// What comes first. An action is not copied: the effect that holds it is shared.
    pub fn front(&self) -> Result<Option<Front>, AllocError>
        ensures { IfOk result (λ front. IsFront front self.now.items) }
    {
        front_of(&self.portions)
    }

    /// The first item, where that is an action of an effect. It is lent, and nothing is copied.
    pub fn first_act(&self) -> Option<&Act>
        ensures { IfSome result (λ act. slice_get self.now.items 0 ≡ Some (Item.Act act.now)) }
    {
        first_act_of(&self.portions)
    }

    /// The first item, where that is an event to emit.
    pub fn first_event(&self) -> Option<&Event>
        ensures { IfSome result (λ event. IsFront (Some (Front.Item (Item.Emit event.now))) self.now.items) }
    {
        first_event_of(&self.portions)
    }

    /// Makes room for so many more batches.
    pub fn reserve(&mut self, count: usize) -> Result<(), AllocError>
        ensures same { self.new.items ≡ self.old.items }
        ensures room { OnOk result (count ≤ self.new.room) }
    {
        self.portions.reserve(count)
    }

    /// Takes the first item away, if there is one. It takes no memory.
    #[inline(always)]
    pub fn take_first(&mut self)
        ensures { self.new.items ≡ drop 1 self.old.items }
    {
        drop_first(&mut self.portions);
    }

    /// Puts what an action puts in the place of the first item. There is room for as much as one
    /// action can put, and it takes no memory.
    #[inline(always)]
    pub fn put_by_act(&mut self, put: Put)
        requires { 2 ≤ self.old.room }
        ensures { self.new.items ≡ listed put ++ drop 1 self.old.items }
    {
        drop_first(&mut self.portions);
        match put {
            Put::Nothing => {}
            Put::One(item) => put_item(&mut self.portions, item),
            Put::Two(first, second) => {
                put_item(&mut self.portions, second);
                put_item(&mut self.portions, first);
            }
            Put::Acts(effect) => put_effect(&mut self.portions, effect),
        }
    }

    /// Puts these batches, for which there is room, in the place of the first item. It takes no
    /// memory.
    pub fn put_for_first(&mut self, batches: Vec<Batch>)
        requires { vec_len batches ≤ self.old.room }
        ensures { self.new.items ≡ written batches.items ++ drop 1 self.old.items }
    {
        drop_first(&mut self.portions);
        self.spare = put_in_front(&mut self.portions, batches);
    }

    /// A list of nothing, for batches that are put next: mostly in memory that earlier batches have left.
    pub fn spare(&mut self, alloc: Global) -> Vec<Batch>
        ensures empty { result.items ≡ [] }
        ensures same { self.new ≡ self.old }
    {
        mem::replace(&mut self.spare, Vec::new(alloc))
    }
}

#[tactic(auto, using(crate::proofs::PortionLemmas::flat_empty))]
fn holds_nothing(portions: &VecDeque<Portion>) -> bool
    requires { AreLive portions.now.items }
    ensures { result ≡ is_empty (flat portions.now.items) }
{
    portions.is_empty()
}

fn first_act_of(portions: &VecDeque<Portion>) -> Option<&Act>
    requires { AreLive portions.now.items }
    ensures { IfSome result (λ act. slice_get (flat portions.now.items) 0 ≡ Some (Item.Act act.now)) }
{
    match portions.front() {
        Some(portion) => act_in(portion),
        None => None,
    }
}

fn first_event_of(portions: &VecDeque<Portion>) -> Option<&Event>
    requires { AreLive portions.now.items }
    ensures { IfSome result (λ event. IsFront (Some (Front.Item (Item.Emit event.now))) (flat portions.now.items)) }
{
    match portions.front() {
        Some(portion) => event_of(portion),
        None => None,
    }
}

fn front_of(portions: &VecDeque<Portion>) -> Result<Option<Front>, AllocError>
    requires { AreLive portions.now.items }
    ensures { IfOk result (λ front. IsFront front (flat portions.now.items)) }
{
    match portions.front() {
        Some(portion) => Ok(Some(front_in(portion)?)),
        None => Ok(None),
    }
}

/// Takes the first item away, if there is one.
#[tactic(auto, using(crate::proofs::PortionLemmas::passing))]
#[inline(always)]
fn drop_first(portions: &mut VecDeque<Portion>)
    requires { AreLive portions.old.items }
    ensures items { flat portions.new.items ≡ drop 1 (flat portions.old.items) }
    ensures live { AreLive portions.new.items }
    ensures len { deque_len portions.new ≤ deque_len portions.old }
    ensures capacity { deque_capacity portions.new ≡ deque_capacity portions.old }
{
    if portions.is_empty() {
        return;
    }
    if !pass_first(portions) {
        drop_portion(portions);
    }
}

/// Passes over the first item of the first portion. Whether that portion holds another one.
#[inline(always)]
fn pass_first(portions: &mut VecDeque<Portion>) -> bool
    requires live { AreLive portions.old.items }
    requires some { 0 < deque_len portions.old }
    ensures more { result ≡ goes_on portions.old.items }
    ensures items { portions.new.items ≡ passed_first portions.old.items }
    ensures len { deque_len portions.new ≡ deque_len portions.old }
    ensures capacity { deque_capacity portions.new ≡ deque_capacity portions.old }
{
    pass(&mut portions[0])
}

#[inline(never)]
fn drop_portion(portions: &mut VecDeque<Portion>)
    ensures items { portions.new.items ≡ drop 1 portions.old.items }
    ensures len { deque_len portions.new ≤ deque_len portions.old }
    ensures capacity { deque_capacity portions.new ≡ deque_capacity portions.old }
{
    let _ = portions.pop_front();
}

/// Puts these batches in front, for which there is room. What is left of their list comes back.
fn put_in_front(portions: &mut VecDeque<Portion>, batches: Vec<Batch>) -> Vec<Batch>
    requires live { AreLive portions.old.items }
    requires room { deque_len portions.old + vec_len batches ≤ deque_capacity portions.old }
    ensures items { flat portions.new.items ≡ written batches.items ++ flat portions.old.items }
    ensures live { AreLive portions.new.items }
    ensures empty { result.items ≡ [] }
{
    let mut left = batches;
    while let Some(batch) = left.pop() {
        put_batch(portions, batch);
    }
    left
}

#[inline(always)]
fn put_batch(portions: &mut VecDeque<Portion>, batch: Batch)
    requires live { AreLive portions.old.items }
    requires room { deque_len portions.old < deque_capacity portions.old }
    ensures items { flat portions.new.items ≡ items_of batch ++ flat portions.old.items }
    ensures live { AreLive portions.new.items }
    ensures len { deque_len portions.new ≤ deque_len portions.old + 1 }
    ensures capacity { deque_capacity portions.new ≡ deque_capacity portions.old }
{
    match batch {
        Batch::Acts(effect) => put_effect(portions, effect),
        Batch::One(item) => put_item(portions, item),
    }
}

#[inline(always)]
fn put_item(portions: &mut VecDeque<Portion>, item: Item)
    requires live { AreLive portions.old.items }
    requires room { deque_len portions.old < deque_capacity portions.old }
    ensures items { flat portions.new.items ≡ item ∷ flat portions.old.items }
    ensures live { AreLive portions.new.items }
    ensures len { deque_len portions.new ≡ deque_len portions.old + 1 }
    ensures capacity { deque_capacity portions.new ≡ deque_capacity portions.old }
{
    portions.push_front_reserved(Portion::One(item));
}

/// An effect without actions makes no portion, so that the first item stands in the first portion.
#[inline(always)]
fn put_effect(portions: &mut VecDeque<Portion>, effect: Effect)
    requires live { AreLive portions.old.items }
    requires room { deque_len portions.old < deque_capacity portions.old }
    ensures items { flat portions.new.items ≡ acts effect ++ flat portions.old.items }
    ensures live { AreLive portions.new.items }
    ensures len { deque_len portions.new ≤ deque_len portions.old + 1 }
    ensures capacity { deque_capacity portions.new ≡ deque_capacity portions.old }
{
    if !effect.as_slice().is_empty() {
        portions.push_front_reserved(Portion::Acts(effect, 0));
    }
}
