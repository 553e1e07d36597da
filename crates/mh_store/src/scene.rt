//! The objects of the current scene, where there is one; where there is none it has no objects.
ghost use Rattle.std.specs.Prelude.{◌≡◌, ◌<◌, ◌^◌, IfOk, length, slice_get};
ghost use Rattle.std.specs.Option.{option_copied};
ghost use Rattle.mh_model.specs.Service.{object_at};
ghost use Rattle.mh_store.specs.Apart.{AreOfOthers};
ghost use Rattle.mh_store.specs.Bringing.{ready_from, all_put, keys_of, AreOwn};
ghost use Rattle.mh_store.specs.Places.{is_among, places_from};
ghost use Rattle.mh_store.specs.Placing.{renewed_in};
ghost use Rattle.mh_store.specs.Trying.{of_scene};

use crate::ready::Ready;
use crate::{Boxed, Group};
use mh_base::{GroupName, ObjRef, Octets};
use mh_model::Object;
use std::alloc::{AllocError, Global};

/// The object of the scene, if there is one, to which the reference leads.
pub(crate) fn boxed_in<'a>(scene: &'a Option<Group>, at: &ObjRef) -> Option<&'a Boxed>
    ensures { option_copied result ≡ object_at at.now (of_scene scene.now) }
{
    match scene {
        Some(group) => group.boxed(at),
        None => None,
    }
}

/// The object at this place of the scene, if there is one.
pub(crate) fn at_in(scene: &Option<Group>, place: usize) -> Option<&Object>
    ensures { option_copied result ≡ slice_get (of_scene scene.now) place }
{
    match scene {
        Some(group) => group.at(place),
        None => None,
    }
}

/// Whether the scene, if there is one, is another group than the one of the name.
pub(crate) fn is_other_in(scene: &Option<Group>, name: &GroupName) -> bool
    ensures { AreOfOthers result name.now (of_scene scene.now) }
{
    match scene {
        Some(group) => group.is_other(name),
        None => true,
    }
}

/// How many objects the scene has, if there is one.
pub(crate) fn len_in(scene: &Option<Group>) -> usize
    ensures all { result ≡ length (of_scene scene.now) }
    ensures small { result < 2 ^ 63 }
{
    match scene {
        Some(group) => group.len(),
        None => 0,
    }
}

/// The places of the scene's objects that have these references; its first object stands at `first`.
pub(crate) fn places_in(
    alloc: Global,
    scene: &Option<Group>,
    first: usize,
    named: &[ObjRef],
) -> Result<Vec<usize>, AllocError>
    requires { first < 2 ^ 63 }
    ensures { IfOk result (λ places. places.items ≡ places_from first (is_among named.now) (of_scene scene.now)) }
{
    match scene {
        Some(group) => group.places(first, named),
        None => Ok(Vec::new(alloc)),
    }
}

/// The objects of the scene to which a text is brought, with it, and with their places.
pub(crate) fn ready_in(
    alloc: Global,
    scene: &Option<Group>,
    waiting: &[ObjRef],
    text: &Octets,
) -> Result<Vec<Ready>, AllocError>
    ensures { IfOk result (λ ready. ready.items
        ≡ ready_from 0 (is_among waiting.now) text.now (of_scene scene.now)) }
{
    match scene {
        Some(group) => group.ready(waiting, text),
        None => Ok(Vec::new(alloc)),
    }
}

/// Puts these at their places among the objects of the scene.
pub(crate) fn put_in(scene: &mut Option<Group>, ready: Vec<Ready>)
    requires { AreOwn ready.items (keys_of (of_scene scene.old)) }
    ensures { of_scene scene.new ≡ all_put ready.items (of_scene scene.old) }
{
    if let Some(group) = scene {
        group.put(ready);
    }
}

/// Puts this where the scene's object with its reference is.
pub(crate) fn renew_in(scene: &mut Option<Group>, kept: Boxed)
    ensures { of_scene scene.new ≡ renewed_in kept (of_scene scene.old) }
{
    match scene {
        Some(group) => drop(group.renew(kept)),
        None => drop(kept),
    }
}
