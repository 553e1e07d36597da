//! A portion of the work list: what was put as one batch, as far as it is not done.
ghost use Rattle.std.specs.Prelude.{◌≡◌, slice_get, true, IfOk, IfSome, Some};
ghost use Rattle.mh_work.specs.Portions.{IsFront, has_more, is_live, left_of, passed};

use mh_model::{Act, Effect, Event, Item};
use std::alloc::AllocError;

/// What was put as one batch, as far as it is not done.
#[derive(Drop)]
pub(crate) enum Portion {
    /// The actions of an effect from this place on; there is one at least.
    Acts(Effect, usize),
    One(Item),
}

/// What comes first: an action, at its place in the effect that holds it, or an item.
#[derive(Drop)]
pub enum Front {
    Act(Effect, usize),
    Item(Item),
}

/// What comes first in a portion.
pub(crate) fn front_in(portion: &Portion) -> Result<Front, AllocError>
    requires { is_live portion.now ≡ true }
    ensures { IfOk result (λ front. IsFront (Some front) (left_of portion.now)) }
{
    match portion {
        Portion::Acts(effect, next) => Ok(Front::Act(effect.clone()?, *next)),
        Portion::One(item) => Ok(Front::Item(copied(item)?)),
    }
}

/// The action that comes first in a portion, if one does.
pub(crate) fn act_in(portion: &Portion) -> Option<&Act>
    ensures { IfSome result (λ act. slice_get (left_of portion.now) 0 ≡ Some (Item.Act act.now)) }
{
    match portion {
        Portion::Acts(effect, next) => effect.as_slice().get(*next),
        _ => None,
    }
}

/// The event of a portion that is one event to emit.
pub(crate) fn event_of(portion: &Portion) -> Option<&Event>
    ensures { IfSome result (λ event. IsFront (Some (Front.Item (Item.Emit event.now))) (left_of portion.now)) }
{
    match portion {
        Portion::One(Item::Emit(event)) => Some(event),
        _ => None,
    }
}

fn copied(item: &Item) -> Result<Item, AllocError>
    ensures { IfOk result (λ copy. copy ≡ item.now) }
{
    item.clone()
}

/// Passes over the first item of a portion. Whether the portion holds another one.
#[inline(always)]
pub(crate) fn pass(portion: &mut Portion) -> bool
    requires { is_live portion.old ≡ true }
    ensures more { result ≡ has_more portion.old }
    ensures after { portion.new ≡ passed portion.old }
{
    match portion {
        Portion::Acts(effect, next) => {
            let count = effect.as_slice().len();
            *next += 1;
            *next < count
        }
        Portion::One(_) => false,
    }
}
