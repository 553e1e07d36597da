//! A change of one object, or of one variable: it is given to one group, and to the other where it comes back.
ghost use Rattle.std.specs.Prelude.{◌≡◌, IfOk, OnOk, OnErr, true};
ghost use Rattle.mh_model.specs.Bodies.{given};
ghost use Rattle.mh_model.specs.Edits.{edited};
ghost use Rattle.mh_model.specs.Rules.{changed};
ghost use Rattle.mh_model.specs.Service.{object_at};
ghost use Rattle.mh_store.specs.Apart.{AreApart};
ghost use Rattle.mh_store.specs.Trying.{of_scene, with_scene, edited_in, given_in, left_over};

use crate::Group;
use mh_base::{ObjRef, Value};
use mh_model::Edit;
use std::alloc::AllocError;

/// Changes the body of the object at this reference, where the two are apart.
#[inline(always)]
pub(crate) fn edit_scene_first(
    application: &mut Group,
    scene: &mut Option<Group>,
    at: &ObjRef,
    edit: Edit,
) -> Result<(), AllocError>
    requires { AreApart true application.old (of_scene scene.old) }
    ensures done { OnOk result (with_scene application.new scene.new
        ≡ changed (edited edit) at.now (with_scene application.old scene.old)) }
    ensures kept { OnErr result (with_scene application.new scene.new ≡ with_scene application.old scene.old) }
{
    match edit_in(scene, at, edit)? {
        None => Ok(()),
        Some(edit) => edit_alone(application, at, edit),
    }
}

/// The same where a reference may lead into both: then the application's object is meant.
pub(crate) fn edit_application_first(
    application: &mut Group,
    scene: &mut Option<Group>,
    at: &ObjRef,
    edit: Edit,
) -> Result<(), AllocError>
    ensures done { OnOk result (with_scene application.new scene.new
        ≡ changed (edited edit) at.now (with_scene application.old scene.old)) }
    ensures kept { OnErr result (with_scene application.new scene.new ≡ with_scene application.old scene.old) }
{
    match application.edit(at, edit)? {
        None => Ok(()),
        Some(edit) => edit_scene(scene, at, edit),
    }
}

/// Changes the body of the application's object at this reference; where there is none, nothing.
fn edit_alone(application: &mut Group, at: &ObjRef, edit: Edit) -> Result<(), AllocError>
    ensures done { OnOk result (application.new ≡ edited_in edit at.now application.old) }
    ensures kept { OnErr result (application.new ≡ application.old) }
{
    application.edit(at, edit).and(Ok(()))
}

/// Changes the body of the scene's object at this reference; where there is none, nothing.
fn edit_scene(scene: &mut Option<Group>, at: &ObjRef, edit: Edit) -> Result<(), AllocError>
    ensures done { OnOk result (of_scene scene.new ≡ edited_in edit at.now (of_scene scene.old)) }
    ensures kept { OnErr result (of_scene scene.new ≡ of_scene scene.old) }
{
    edit_in(scene, at, edit).and(Ok(()))
}

/// Changes the body of the scene's object at this reference. Where there is none the change comes back.
#[inline(always)]
fn edit_in(scene: &mut Option<Group>, at: &ObjRef, edit: Edit) -> Result<Option<Edit>, AllocError>
    ensures done { OnOk result (of_scene scene.new ≡ edited_in edit at.now (of_scene scene.old)) }
    ensures back { IfOk result (λ back. back ≡ left_over edit (object_at at.now (of_scene scene.old))) }
    ensures kept { OnErr result (of_scene scene.new ≡ of_scene scene.old) }
{
    match scene {
        Some(group) => group.edit(at, edit),
        None => Ok(Some(edit)),
    }
}

/// Gives the variable at this reference a value, where the two are apart.
#[inline(always)]
pub(crate) fn give_scene_first(
    application: &mut Group,
    scene: &mut Option<Group>,
    at: &ObjRef,
    value: Value,
)
    requires { AreApart true application.old (of_scene scene.old) }
    ensures { with_scene application.new scene.new
        ≡ changed (λ _ b. given value b) at.now (with_scene application.old scene.old) }
{
    if let Some(value) = give_in(scene, at, value) {
        application.give(at, value);
    }
}

/// The same where a reference may lead into both: then the application's variable is meant.
pub(crate) fn give_application_first(
    application: &mut Group,
    scene: &mut Option<Group>,
    at: &ObjRef,
    value: Value,
)
    ensures { with_scene application.new scene.new
        ≡ changed (λ _ b. given value b) at.now (with_scene application.old scene.old) }
{
    if let Some(value) = application.give(at, value) {
        give_in(scene, at, value);
    }
}

/// Gives the scene's variable at this reference a value. Where there is none the value comes back.
#[inline(always)]
fn give_in(scene: &mut Option<Group>, at: &ObjRef, value: Value) -> Option<Value>
    ensures done { of_scene scene.new ≡ given_in value at.now (of_scene scene.old) }
    ensures back { result ≡ left_over value (object_at at.now (of_scene scene.old)) }
{
    match scene {
        Some(group) => group.give(at, value),
        None => Some(value),
    }
}
