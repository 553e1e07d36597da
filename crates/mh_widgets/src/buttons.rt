//! Push buttons, and the highlight that fields have as well: what an action makes of them, and what a key does to
//! a button that interacts (ISO/IEC 13522-5, Interactible and PushButton).
ghost use Rattle.std.specs.Prelude.{◌≡◌, ◌∷◌, [], IfOk, true};
ghost use Rattle.mh_group.specs.Table.{is_visible};
ghost use Rattle.mh_model.specs.EntryFields as spec;
ghost use Rattle.mh_model.specs.EntryFields.{button_worked};
ghost use Rattle.mh_model.specs.Items.{plain_event};
ghost use Rattle.mh_widgets.specs.Does.{Does, Presses, placed_by, placed_with};

use crate::done::{Done, Pressed};
use crate::events::one_event;
use mh_base::{EventType, ObjRef, Value, both};
use mh_group::ActionName;
use mh_model::{Edit, Key, Object};
use std::alloc::{AllocError, Global};

/// What SetHighlightStatus, Select or Deselect makes of the field or button at this reference. Only a
/// change is told.
pub fn button_worked(
    alloc: Global,
    name: ActionName,
    values: &[Value],
    at: &ObjRef,
    object: &Object,
) -> Result<Done, AllocError>
    ensures done { let said = button_worked name values.now at.now object.now.fixed object.now.body in
        IfOk result (λ done. Does object.now said done) }
    ensures edited { IfOk result (λ done. done.placed.items ≡ placed_with done.edit done.placed.items) }
    ensures unseen { let seen = is_visible object.now.fixed.class in
        IfOk result (λ done. done.placed.items ≡ placed_by done.placed.items seen) }
{
    match (name, values) {
        (ActionName::SetHighlightStatus, [Value::Bool(on)]) => highlit(alloc, at, object, *on),
        (ActionName::Select, _) => button_set(alloc, at, object, true),
        (ActionName::Deselect, _) => button_set(alloc, at, object, false),
        _ => Ok(Done::nothing(alloc)),
    }
}

fn highlit(alloc: Global, at: &ObjRef, object: &Object, on: bool) -> Result<Done, AllocError>
    ensures done { let said = spec.highlit on at.now object.now.body in
        IfOk result (λ done. Does object.now said done) }
    ensures edited { IfOk result (λ done. done.placed.items ≡ placed_with done.edit done.placed.items) }
    ensures unseen { let seen = is_visible object.now.fixed.class in
        IfOk result (λ done. done.placed.items ≡ placed_by done.placed.items seen) }
{
    if object.body.highlighted == on {
        return Ok(Done::nothing(alloc));
    }
    let kind = if on {
        EventType::HighlightOn
    } else {
        EventType::HighlightOff
    };
    let items = one_event(alloc, at, kind)?;
    Ok(Done {
        edit: Some(Edit::Highlight(on)),
        placed: Vec::new(alloc),
        items,
    })
}

fn button_set(alloc: Global, at: &ObjRef, object: &Object, on: bool) -> Result<Done, AllocError>
    ensures done { let said = spec.button_set on at.now object.now.body in
        IfOk result (λ done. Does object.now said done) }
    ensures edited { IfOk result (λ done. done.placed.items ≡ placed_with done.edit done.placed.items) }
    ensures unseen { let seen = is_visible object.now.fixed.class in
        IfOk result (λ done. done.placed.items ≡ placed_by done.placed.items seen) }
{
    if object.body.selected == on {
        return Ok(Done::nothing(alloc));
    }
    let kind = if on {
        EventType::IsSelected
    } else {
        EventType::IsDeselected
    };
    let items = one_event(alloc, at, kind)?;
    Ok(Done {
        edit: Some(Edit::Select(on)),
        placed: Vec::new(alloc),
        items,
    })
}

/// What a key does to a button that interacts.
pub fn button_pressed(
    alloc: Global,
    key: Key,
    at: &ObjRef,
    object: &Object,
) -> Result<Pressed, AllocError>
    ensures { let said = spec.button_pressed key at.now object.now.body in
        IfOk result (λ pressed. Presses object.now said pressed) }
{
    match key {
        Key::Select => {
            let done = button_set(alloc, at, object, true)?;
            Ok(Pressed {
                edit: done.edit,
                items: done.items,
                ends: false,
            })
        }
        Key::Cancel => completed(alloc, at, None),
        _ => Ok(Pressed::only(alloc, None)),
    }
}

/// Interaction ends with this change, which is told.
pub fn completed(alloc: Global, at: &ObjRef, edit: Option<Edit>) -> Result<Pressed, AllocError>
    ensures edit { IfOk result (λ pressed. pressed.edit ≡ edit) }
    ensures items { IfOk result (λ pressed.
        pressed.items.items ≡ plain_event at.now EventType.InteractionCompleted ∷ []) }
    ensures ends { IfOk result (λ pressed. pressed.ends ≡ true) }
{
    let items = one_event(alloc, at, EventType::InteractionCompleted);
    let (items, edit) = both(items, Ok(edit))?;
    Ok(Pressed {
        edit,
        items,
        ends: true,
    })
}
