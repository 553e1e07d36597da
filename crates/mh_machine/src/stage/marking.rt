//! The cells in which objects can be seen are marked, so that they are painted anew.
ghost use Rattle.std.specs.Prelude.{◌≡◌, ◌∷◌, [], map};
ghost use Rattle.mh_display.specs.Surface.{Spoils};
ghost use Rattle.mh_model.specs.Service.{object_at};
ghost use Rattle.mh_model.specs.State.{all};
ghost use Rattle.mh_machine.specs.Marks.{SpoilsEach, SpoilsOthers, SpoilsUnless};

use mh_base::{GroupName, ObjRef};
use mh_display::{Screen, Walk};
use mh_group::Position;
use mh_store::Objects;

/// The object at this reference is to be painted anew. Where all is, the object is not even looked for.
pub(crate) fn spoil_at(screen: &mut Screen, objects: &Objects, at: &ObjRef)
    ensures same { screen.new.planes ≡ screen.old.planes }
    ensures spoilt { Spoils (object_at at.now (all objects.now)) screen.old.marks screen.new.marks }
{
    if !screen.is_all_stale() {
        screen.spoil(objects.get(at));
    }
}

/// The objects at these references are to be painted anew.
pub(crate) fn spoil_each(screen: &mut Screen, objects: &Objects, each: &[ObjRef])
    ensures same { screen.new.planes ≡ screen.old.planes }
    ensures spoilt { SpoilsEach (all objects.now) each.now screen.old.marks screen.new.marks }
{
    for at in each {
        spoil_at(screen, objects, at);
    }
}

/// The objects that are placed are to be painted anew.
pub(crate) fn spoil_placed(screen: &mut Screen, objects: &Objects, placed: &[(ObjRef, Position)])
    ensures same { screen.new.planes ≡ screen.old.planes }
    ensures spoilt { SpoilsEach (all objects.now) (map (λ p. p.0) placed.now) screen.old.marks screen.new.marks }
{
    for place in placed {
        spoil_at(screen, objects, &place.0);
    }
}

/// The objects at these references that are of other groups than this one are to be painted anew. Where all is, none is
/// looked for.
pub(crate) fn spoil_others(
    screen: &mut Screen,
    objects: &Objects,
    stack: Walk<'_>,
    group: &GroupName,
)
    ensures same { screen.new.planes ≡ screen.old.planes }
    ensures spoilt { SpoilsOthers (all objects.now) group.now stack.entry screen.old.marks screen.new.marks }
{
    if screen.is_all_stale() {
        return;
    }
    let mut left = stack;
    while let Some(at) = left.next() {
        spoil_other(screen, objects, at, group);
    }
}

/// The object at this reference is to be painted anew, unless it is of this group.
fn spoil_other(screen: &mut Screen, objects: &Objects, at: &ObjRef, group: &GroupName)
    ensures same { screen.new.planes ≡ screen.old.planes }
    ensures spoilt { SpoilsOthers (all objects.now) group.now (at.now ∷ []) screen.old.marks screen.new.marks }
{
    if at.group != *group {
        spoil_at(screen, objects, at);
    }
}

/// All is to be painted anew, unless what is seen is known to be marked.
pub(crate) fn spoil_unless(screen: &mut Screen, is_marked: bool)
    ensures same { screen.new.planes ≡ screen.old.planes }
    ensures spoilt { SpoilsUnless is_marked screen.old.marks screen.new.marks }
{
    if !is_marked {
        screen.spoil_all();
    }
}
