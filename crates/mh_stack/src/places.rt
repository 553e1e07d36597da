//! References in a list, each as often as it rose: what is done where one is there twice.
ghost use Rattle.std.specs.Prelude.{◌≡◌, ◌++◌, ◌∷◌, ◌+◌, ◌<◌, ◌≤◌, [], filter, vec_len};
ghost use Rattle.std.specs.List.{insert, position};
ghost use Rattle.std.specs.Str.{bytes_eq};
ghost use Rattle.std.specs.Vec.{vec_capacity};
ghost use Rattle.mh_model.specs.Stack.{without, just_above, just_below};
ghost use Rattle.mh_model.specs.Reference.{same_ref};

use mh_base::{GroupName, ObjRef};
use mh_model::parts::same_ref;

/// Takes a reference off, wherever it stands. All are gone over, from the top down, and only those above it are
/// moved, at once.
pub(crate) fn take_off(places: &mut Vec<ObjRef>, at: &ObjRef)
    ensures places { places.new.items ≡ without at.now places.old.items }
    ensures fewer { vec_len places.new ≤ vec_len places.old }
    ensures room { vec_capacity places.new ≡ vec_capacity places.old }
{
    let mut left = places.len();
    while 0 < left {
        left -= 1;
        if same_ref(at, &places[left]) {
            drop(places.remove(left));
        }
    }
}

pub(crate) fn keep_of(places: &mut Vec<ObjRef>, application: &GroupName)
    ensures { places.new.items ≡ filter (λ r. bytes_eq r.group application.now) places.old.items }
{
    places.retain(|at| at.group == *application);
}

/// Puts a reference at a place, for which there is room.
fn insert_at(places: &mut Vec<ObjRef>, place: usize, at: ObjRef)
    requires inside { place ≤ vec_len places.old }
    requires room { vec_len places.old < vec_capacity places.old }
    ensures { places.new.items ≡ insert places.old.items place at }
{
    match places.insert(place, at) {
        Ok(()) => {}
        Err(_) => unreachable!(),
    }
}

pub(crate) fn insert_above(places: &mut Vec<ObjRef>, at: ObjRef, other: &ObjRef)
    requires { vec_len places.old < vec_capacity places.old }
    ensures { places.new.items ≡ just_above at other.now places.old.items }
{
    match place_of(places.as_slice(), other) {
        Some(place) => insert_at(places, place + 1, at),
        None => places.push_reserved(at),
    }
}

pub(crate) fn insert_below(places: &mut Vec<ObjRef>, at: ObjRef, other: &ObjRef)
    requires { vec_len places.old < vec_capacity places.old }
    ensures { places.new.items ≡ just_below at other.now places.old.items }
{
    match place_of(places.as_slice(), other) {
        Some(place) => insert_at(places, place, at),
        None => places.push_reserved(at),
    }
}

fn place_of(places: &[ObjRef], at: &ObjRef) -> Option<usize>
    ensures { result ≡ position (same_ref at.now) places.now }
{
    places.iter().position(|place| same_ref(at, place))
}
