//! `EffectRow`: the effects of an object by their numbers.
//!
//! Promise: each effect, and the number of its first action, is found at once. It is made by one pass over the slots.
ghost use Rattle.std.specs.Prelude.{◌≡◌, ◌+◌, ◌<◌, [], true, suc, get_or, length, map, slice_get, take, Some, IfOk, IfSome};
ghost use Rattle.std.specs.List.{flat_map};
ghost use Rattle.std.specs.Option.{option_copied};
ghost use Rattle.mh_laws.specs.Costs.{effects};
ghost use Rattle.mh_model.specs.Reference.{same_ref};
ghost use Rattle.mh_model.specs.Service.{group_parts, part_at};
ghost use Rattle.mh_layers.specs.NumberedEffects.{effects_at};

use crate::effects::effects_of;
use crate::numbering::first_numbers;
use mh_base::ObjRef;
use mh_flow::Equipped;
use mh_model::parts::same_ref;
use mh_model::{Act, Fixed, FixedPart};
use std::alloc::{AllocError, Global};
use std::marker::Model;

/// The effects of an object. A contract sees the list of them.
#[derive(Drop)]
pub(crate) struct EffectRow<'a> {
    effects: Vec<&'a [Act]>,
    /// The number of the first action of each, and of what would come behind the last.
    firsts: Vec<usize>,
}

impl<'a> Model for EffectRow<'a> {
    ghost use Rattle.std.specs.Prelude.{◌≡◌, List, map};
    ghost use Rattle.mh_model.specs.declared.act.Act.{Act as ActLem};
    ghost use Rattle.mh_layers.specs.NumberedEffects.{first_numbers};

    ghost Value = { List (List ActLem) };

    ghost view = { λ r. map (λ e. e.now) r.effects.items };

    ghost invariant = { λ r. r.firsts.items ≡ first_numbers 1 (map (λ e. e.now) r.effects.items) };
}

impl<'a> EffectRow<'a> {
    /// The effects of the object of which this is said.
    pub fn of(alloc: Global, part: &'a Fixed) -> Result<EffectRow<'a>, AllocError>
        ensures { IfOk result (λ row. row ≡ effects part.now) }
    {
        let effects = effects_of(alloc, part)?;
        let firsts = first_numbers(alloc, effects.as_slice())?;
        Ok(EffectRow { effects, firsts })
    }

    /// None.
    fn empty(alloc: Global) -> Result<EffectRow<'a>, AllocError>
        ensures { IfOk result (λ row. row ≡ []) }
    {
        let effects = Vec::new(alloc);
        let firsts = first_numbers(alloc, effects.as_slice())?;
        Ok(EffectRow { effects, firsts })
    }

    /// The effects of the object that the service has at the reference; none where it has none.
    pub fn at(
        alloc: Global,
        service: &Equipped<'a>,
        at: &ObjRef,
    ) -> Result<EffectRow<'a>, AllocError>
        ensures { IfOk result (λ row. row ≡ effects_at service.now at.now) }
    {
        match part_of(service, at) {
            None => EffectRow::empty(alloc),
            Some(part) => EffectRow::of(alloc, part),
        }
    }

    /// What the effect with this number puts.
    pub fn acts(&self, number: usize) -> &'a [Act]
        ensures { result.now ≡ get_or self.now number [] }
    {
        match self.effects.get(number) {
            None => &[],
            Some(acts) => acts,
        }
    }

    /// The number of the first action of the effect with this number, from 1 on.
    pub fn first(&self, number: usize) -> usize
        ensures { result ≡ suc (length (flat_map (λ e. e) (take number self.now))) }
    {
        self.firsts[number.min(self.effects.len())]
    }

    /// The number of the action of the effect that stands so far behind its first.
    pub fn behind_first(&self, number: usize, offset: usize) -> usize
        requires { offset < length (get_or self.now number []) }
        ensures { result ≡ suc (length (flat_map (λ e. e) (take number self.now))) + offset }
    {
        // it comes before the first action of the next effect, which has a number
        let _ = self.effects.len();
        let _ = self.first(number + 1);
        self.first(number) + offset
    }
}

/// What the service says of the object: it mostly stands at the place that its number tells, and is searched for else.
fn part_of<'a>(service: &Equipped<'a>, at: &ObjRef) -> Option<&'a Fixed>
    ensures { option_copied result ≡ part_at at.now (group_parts service.now at.now.group) }
{
    // that no two objects of a group have one key is known where there are groups
    let _ = service.groups();
    let parts = service.parts(&at.group);
    match part_with(parts, likely_place(parts, at.number), at) {
        None => service.find(at),
        Some(part) => Some(part),
    }
}

/// The part at the place, if it is that of the object.
fn part_with<'a>(parts: &'a [FixedPart], place: usize, at: &ObjRef) -> Option<&'a Fixed>
    ensures { IfSome result (λ part. (slice_get parts.now place ≡ Some part.now) × (same_ref at.now part.now.key ≡ true)) }
{
    match parts.get(place) {
        None => None,
        Some(part) => {
            if same_ref(at, &part.get().key) {
                Some(part.get())
            } else {
                None
            }
        }
    }
}

/// The place of the object with this number, where these stand in the order of their numbers. It is advice.
fn likely_place(parts: &[FixedPart], number: u32) -> usize {
    let same = number as usize;
    if has_number(parts, same, number) {
        return same;
    }
    parts.partition_point(|part| is_before(part, number))
}

fn has_number(parts: &[FixedPart], place: usize, number: u32) -> bool {
    match parts.get(place) {
        None => false,
        Some(part) => part.get().key.number == number,
    }
}

fn is_before(part: &FixedPart, number: u32) -> bool {
    part.get().key.number < number
}
