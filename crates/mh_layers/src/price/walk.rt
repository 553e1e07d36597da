//! `Walk`: a configuration of a numbered service, and what the nodes that are counted there are added up to.
//!
//! Promise: each answer adds what its price comes to, by the numbers of nodes. The walk over prices is that of `mh_prices`.
ghost use Rattle.std.specs.Prelude.{◌≡◌, ◌+◌, ◌<◌, ◌^◌, if◌then◌else◌, IfOk};
ghost use Rattle.std.specs.List.{range_with_len};
ghost use Rattle.mh_laws.specs.Costs as costs;
ghost use Rattle.mh_base.specs.Event.{is_sync};
ghost use Rattle.mh_laws.specs.Price.{Nothing, One, most_price};
ghost use Rattle.mh_prices.specs.Meter.{Adds, onto, raise};
ghost use Rattle.mh_layers.specs.CostNodes.{effect, group_effect as group_effect_lem};
ghost use Rattle.mh_layers.specs.Numbered.{through};
ghost use Rattle.mh_layers.specs.Reading.{dealt_by, fired_by, number as number_of, object_number, there_by};

use crate::effects::slot_count;
use crate::numbered::at::At;
use crate::numbered_node::{Hears, NumberedNode};
use crate::price::meter::Meter;
use mh_base::{EventType, GroupName, ObjRef};
use mh_model::Fixed;
use mh_model::parts::group_ref;
use mh_prices::{Around, Groups, Lists, Told, View};
use std::alloc::AllocError;

/// A configuration of a numbered service, and a meter.
#[derive(Drop)]
pub(crate) struct Walk<'a, M> {
    pub here: &'a At<'a>,
    pub meter: &'a M,
}

impl<'a, M: Meter> Walk<'a, M> {
    /// An effect of the object, whether or not it is present.
    pub fn effect_of(&self, part: &Fixed, index: usize, sum: M::Sum) -> Result<M::Sum, AllocError>
        ensures { let s = self.now.here.now in let m = through (number_of s.reading) (M.meter self.now.meter.now) in
            Adds M.seen m (effect s.config index part.now) sum result }
    {
        self.meter
            .node(self.here.effect_node(&part.key, index), sum)
    }

    /// The same, where the object has this number.
    fn effect_numbered(
        &self,
        part: &Fixed,
        object: usize,
        index: usize,
        sum: M::Sum,
    ) -> Result<M::Sum, AllocError>
        requires { object ≡ object_number self.now.here.now.reading part.now.key }
        ensures { let s = self.now.here.now in let m = through (number_of s.reading) (M.meter self.now.meter.now) in
            Adds M.seen m (effect s.config index part.now) sum result }
    {
        self.meter
            .node(self.here.numbered_effect(object, index), sum)
    }

    /// An effect of a group of the configuration.
    fn group_effect(
        &self,
        group: &GroupName,
        index: usize,
        sum: M::Sum,
    ) -> Result<M::Sum, AllocError>
        ensures { let s = self.now.here.now in let m = through (number_of s.reading) (M.meter self.now.meter.now) in
            Adds M.seen m (group_effect_lem s.reading.service s.config index group.now) sum result }
    {
        let at = group_ref(group)?;
        if self.here.has(&at) {
            self.meter.node(self.here.effect_node(&at, index), sum)
        } else {
            Ok(sum)
        }
    }

    /// What an event sets going whose hearing has this number.
    fn fired(
        &self,
        at: &ObjRef,
        kind: EventType,
        hears: Hears,
        sum: M::Sum,
    ) -> Result<M::Sum, AllocError>
        ensures { Adds M.seen (M.meter self.now.meter.now) (fired_by self.now.here.now at.now kind hears) sum result }
    {
        match hears {
            Hears::With(_) => {
                let plain = self.here.fired_node(at, kind, Hears::Plain);
                let sum = self.meter.node(plain, sum)?;
                self.meter.node(self.here.fired_node(at, kind, hears), sum)
            }
            _ => self.meter.node(self.here.fired_node(at, kind, hears), sum),
        }
    }

    /// The same, if its source is there.
    pub fn fired_if_there(
        &self,
        at: &ObjRef,
        kind: EventType,
        hears: Hears,
        sum: M::Sum,
    ) -> Result<M::Sum, AllocError>
        ensures { Adds M.seen (M.meter self.now.meter.now) (there_by self.now.here.now at.now kind hears) sum result }
    {
        if self.here.has(at) {
            self.fired(at, kind, hears, sum)
        } else {
            Ok(sum)
        }
    }

    /// An event that links hear is dealt with at once, or waits.
    fn heard(
        &self,
        at: &ObjRef,
        kind: EventType,
        hears: Hears,
        sum: M::Sum,
    ) -> Result<M::Sum, AllocError>
        ensures { Adds M.seen (M.meter self.now.meter.now) (dealt_by self.now.here.now at.now kind hears) sum result }
    {
        if kind.is_sync() {
            self.fired_if_there(at, kind, hears, sum)
        } else {
            let source = self.here.numbered_service().object_number(at);
            self.meter
                .node(NumberedNode::Entry(source, kind, hears), sum)
        }
    }

    /// An event that no link hears is only taken, if it waits.
    fn unheard(&self, kind: EventType, sum: M::Sum) -> M::Sum
        ensures { M.seen result ≡ onto (M.meter self.now.meter.now) (if is_sync kind then Nothing else One) (M.seen sum) }
    {
        if kind.is_sync() {
            sum
        } else {
            self.meter.one(sum)
        }
    }

    /// So many effects of the object, which has this number, from this effect on: the largest of these.
    #[tactic(auto, using(crate::proofs::OntoLemmas::next_number))]
    fn effects_from(
        &self,
        part: &Fixed,
        object: usize,
        first: usize,
        count: usize,
        mark: M::Mark,
        sum: M::Sum,
    ) -> Result<(M::Mark, M::Sum), AllocError>
        requires count { first + count < 2 ^ 64 }
        requires object { object ≡ object_number self.now.here.now.reading part.now.key }
        ensures { let s = self.now.here.now in let m = through (number_of s.reading) (M.meter self.now.meter.now) in
            let p = most_price (λ n. effect s.config n part.now) (range_with_len first count) in
            IfOk result (λ x. (M.marked x.0, M.seen x.1) ≡ raise m p (M.marked mark, M.seen sum)) }
    {
        let mut mark = mark;
        let mut sum = sum;
        let mut number = first;
        let mut left = count;
        while left > 0 {
            sum = self.effect_numbered(part, object, number, sum)?;
            (mark, sum) = self.meter.next(mark, sum);
            number += 1;
            left -= 1;
        }
        Ok((mark, sum))
    }

    /// So many slots of the object.
    fn slots_to(&self, part: &Fixed, count: usize, sum: M::Sum) -> Result<M::Sum, AllocError>
        requires { count < 2 ^ 63 }
        ensures { let s = self.now.here.now in let m = through (number_of s.reading) (M.meter self.now.meter.now) in
            let p = most_price (λ n. effect s.config n part.now) (range_with_len costs.first_slot count) in
            Adds M.seen m p sum result }
    {
        if count == 0 {
            return Ok(sum);
        }
        let (mark, sum) = self.meter.aside(sum);
        let object = self.here.numbered_service().object_number(&part.key);
        let (mark, sum) = self.effects_from(part, object, 3, count, mark, sum)?;
        Ok(self.meter.close(mark, sum))
    }
}

impl<'a, M: Meter> View for Walk<'a, M> {
    ghost use Rattle.mh_laws.specs.Costs as costs;
    ghost use Rattle.mh_layers.specs.CostNode.{CostNode as CostNodeLem};
    ghost use Rattle.mh_layers.specs.CostNodes.{group_effect};
    ghost use Rattle.mh_layers.specs.Numbered.{through};
    ghost use Rattle.mh_layers.specs.Reading.{around_at, number as number_of};

    type Sum = M::Sum;

    type Mark = M::Mark;

    type Cursor = &'a [ObjRef];

    type Stop = AllocError;

    ghost Key = { CostNodeLem };

    ghost Seen = { M.Seen };

    ghost Marked = { M.Marked };

    ghost seen = { M.seen };

    ghost marked = { M.marked };

    ghost meter = { λ w. through (number_of w.here.now.reading) (M.meter w.meter.now) };

    ghost around = { λ w. around_at w.here.now };

    ghost left = { λ w r c. c.now };

    ghost starts = { λ w g. group_effect w.here.now.reading.service w.here.now.config costs.on_start_up g };

    ghost closes = { λ w g. group_effect w.here.now.reading.service w.here.now.config costs.on_close_down g };

    fn one(&self, sum: M::Sum) -> M::Sum {
        self.meter.one(sum)
    }

    fn aside(&self, sum: M::Sum) -> (M::Mark, M::Sum) {
        self.meter.aside(sum)
    }

    fn next(&self, mark: M::Mark, sum: M::Sum) -> (M::Mark, M::Sum) {
        self.meter.next(mark, sum)
    }

    fn close(&self, mark: M::Mark, sum: M::Sum) -> M::Sum {
        self.meter.close(mark, sum)
    }

    fn part(&self, at: &ObjRef) -> Option<&Fixed> {
        self.here.find(at)
    }

    fn begin(&self, at: &ObjRef) -> &'a [ObjRef] {
        self.here.set(at)
    }

    fn item(&self, _at: &ObjRef, place: &'a [ObjRef]) -> Option<(&ObjRef, &'a [ObjRef])> {
        match place {
            [] => None,
            [item, behind @ ..] => Some((item, behind)),
        }
    }

    #[tactic(auto, using(crate::proofs::OntoLemmas::unheard_adds))]
    fn dealt_with(
        &self,
        at: &ObjRef,
        kind: EventType,
        told: &Told<'_>,
        sum: M::Sum,
    ) -> Result<M::Sum, AllocError> {
        match self.here.hears(at, kind, told) {
            None => Ok(self.unheard(kind, sum)),
            Some(hears) => self.heard(at, kind, hears, sum),
        }
    }

    fn slots(&self, part: &Fixed, sum: M::Sum) -> Result<M::Sum, AllocError> {
        let count = slot_count(self.here.numbered_service().allocator(), part)?;
        self.slots_to(part, count, sum)
    }
}

impl<'a, M: Meter> Lists for Walk<'a, M> {
    fn change(&self, at: &ObjRef, sum: M::Sum) -> Result<M::Sum, AllocError> {
        if self.here.has_list(at) {
            self.meter.node(self.here.change_node(at), sum)
        } else {
            mh_prices::change(self, at, sum)
        }
    }
}

impl<'a, M: Meter> Groups for Walk<'a, M> {
    fn start_up(&self, group: &GroupName, sum: M::Sum) -> Result<M::Sum, AllocError> {
        self.group_effect(group, 0, sum)
    }

    fn close_down(&self, group: &GroupName, sum: M::Sum) -> Result<M::Sum, AllocError> {
        self.group_effect(group, 1, sum)
    }

    fn group_dealt_with(
        &self,
        group: &GroupName,
        kind: EventType,
        sum: M::Sum,
    ) -> Result<M::Sum, AllocError> {
        let at = group_ref(group)?;
        self.dealt_with(&at, kind, &Told::sure(None), sum)
    }
}

impl<'a, M: Meter> Around for Walk<'a, M> {
    fn leave(&self, all: bool, sum: M::Sum) -> Result<M::Sum, AllocError> {
        self.meter.node(self.here.leave_node(all), sum)
    }

    #[tactic(auto, using(crate::proofs::ContextLemmas::reached_numbered))]
    fn exchange(&self, group: &GroupName, sum: M::Sum) -> Result<M::Sum, AllocError> {
        let sum = self.meter.one(sum);
        match self.here.exchanged(group) {
            None => Ok(sum),
            Some(number) => self.meter.node(NumberedNode::Enter(number), sum),
        }
    }
}
