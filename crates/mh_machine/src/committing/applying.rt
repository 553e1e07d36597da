//! What a plan changes of the bodies of objects is carried out. Where memory is refused, all bodies stay
//! as they were.
ghost use Rattle.std.specs.Prelude.{◌≡◌, OnOk, OnErr, Some};
ghost use Rattle.mh_model.specs.Bodies.{stored};
ghost use Rattle.mh_model.specs.Rules.{changed};
ghost use Rattle.mh_model.specs.Service.{parts};
ghost use Rattle.mh_machine.specs.Plans.{change_with, changed_as, given_all};

use crate::plan::{Change, Gift};
use crate::stage::Stage;
use mh_actions::fits_value;
use mh_base::{ObjRef, Octets};
use mh_group::Position;
use mh_model::Edit;
use mh_work::lifecycle::is_visible;
use std::alloc::AllocError;

/// Changes bodies.
pub(crate) fn apply(stage: &mut Stage, change: Change) -> Result<(), AllocError>
    ensures changed { OnOk result (stage.new.objects ≡ changed_as change stage.old.objects) }
    ensures stack { stage.new.stack ≡ stage.old.stack }
    ensures room { stage.new.room ≡ stage.old.room }
    ensures own { parts stage.new.objects.application ≡ parts stage.old.objects.application }
    ensures others { parts stage.new.objects.scene ≡ parts stage.old.objects.scene }
    ensures kept { OnErr result (stage.new.objects ≡ stage.old.objects) }
{
    match change {
        Change::Nothing => Ok(()),
        Change::Edit(at, edit) => stage.edit(&at, edit),
        Change::Give(gifts) => {
            give(stage, gifts.into_vec());
            Ok(())
        }
        Change::Place(at, edit, placed) => place(stage, &at, edit, placed.as_slice()),
    }
}

/// An object runs, with this as its text; and, where it is no visible, these are placed.
#[inline(always)]
pub(crate) fn start(
    stage: &mut Stage,
    at: &ObjRef,
    text: Option<Octets>,
    places: Vec<(ObjRef, Position)>,
) -> Result<(), AllocError>
    ensures changed { OnOk result (stage.new.objects
        ≡ changed_as (change_with at.now (Some (Edit.Start text)) places.items) stage.old.objects) }
    ensures stack { stage.new.stack ≡ stage.old.stack }
    ensures room { stage.new.room ≡ stage.old.room }
    ensures own { parts stage.new.objects.application ≡ parts stage.old.objects.application }
    ensures others { parts stage.new.objects.scene ≡ parts stage.old.objects.scene }
    ensures kept { OnErr result (stage.new.objects ≡ stage.old.objects) }
{
    if places.is_empty() {
        stage.edit(at, Edit::Start(text))
    } else {
        place(stage, at, Edit::Start(text), places.as_slice())
    }
}

/// Changes the body of an object, and places these where that is no visible.
fn place(
    stage: &mut Stage,
    at: &ObjRef,
    edit: Edit,
    placed: &[(ObjRef, Position)],
) -> Result<(), AllocError>
    ensures changed { OnOk result (stage.new.objects
        ≡ changed_as (Change.Place at.now edit placed.now) stage.old.objects) }
    ensures stack { stage.new.stack ≡ stage.old.stack }
    ensures room { stage.new.room ≡ stage.old.room }
    ensures own { parts stage.new.objects.application ≡ parts stage.old.objects.application }
    ensures others { parts stage.new.objects.scene ≡ parts stage.old.objects.scene }
    ensures kept { OnErr result (stage.new.objects ≡ stage.old.objects) }
{
    if is_visible(stage.objects().get(at)) {
        stage.edit(at, edit)
    } else {
        stage.edit_and_place(at, edit, placed)
    }
}

/// Gives variables their values, one after another.
fn give(stage: &mut Stage, gifts: Vec<Gift>)
    ensures given { stage.new.objects ≡ given_all gifts.items stage.old.objects }
    ensures stack { stage.new.stack ≡ stage.old.stack }
    ensures room { stage.new.room ≡ stage.old.room }
    ensures own { parts stage.new.objects.application ≡ parts stage.old.objects.application }
    ensures others { parts stage.new.objects.scene ≡ parts stage.old.objects.scene }
{
    for gift in gifts {
        give_one(stage, gift);
    }
}

/// Gives a variable its value, where it can hold it.
fn give_one(stage: &mut Stage, gift: Gift)
    ensures given { stage.new.objects ≡ changed (λ _ b. stored gift.value b) gift.at stage.old.objects }
    ensures stack { stage.new.stack ≡ stage.old.stack }
    ensures room { stage.new.room ≡ stage.old.room }
    ensures own { parts stage.new.objects.application ≡ parts stage.old.objects.application }
    ensures others { parts stage.new.objects.scene ≡ parts stage.old.objects.scene }
{
    let Gift { at, value } = gift;
    if !fits_value(&value) {
        return;
    }
    stage.give(&at, value);
}
