//! Entry fields: what a key does to the field, or the button, that interacts (ISO/IEC 13522-5, EntryField).
ghost use Rattle.std.specs.Prelude.{◌≡◌, ◌++◌, ◌∷◌, ◌+◌, ◌<◌, ◌≤◌, IfOk, length, take, drop, slice_set, pos, int_lt, nat_lt, ◌&&◌, ◌-◌, [], true};
ghost use Rattle.std.specs.Ordering.{int_eq};
ghost use Rattle.mh_model.specs.EntryFields as spec;
ghost use Rattle.mh_model.specs.EntryFields.{pressed_of};
ghost use Rattle.mh_model.specs.Bodies.{text_of};
ghost use Rattle.mh_widgets.specs.Does.{Presses};

use crate::buttons::{button_pressed, completed};
use crate::done::Pressed;
use crate::events::one_event;
use crate::slices::{behind_of, front_of};
use mh_base::{EventType, ObjRef, Octets};
use mh_group::{Attribute, Class};
use mh_model::held::as_int;
use mh_model::{Edit, Fixed, Key, Object};
use std::alloc::{AllocError, Global};

/// How many octets can be typed into a field of which the files do not say it.
const MOST_TYPED: i32 = 255;

/// What a key makes of the field or button at this reference, which interacts and had this text when that
/// began.
pub fn pressed(
    alloc: Global,
    key: Key,
    before: &Octets,
    at: &ObjRef,
    object: &Object,
) -> Result<Pressed, AllocError>
    ensures { let said = pressed_of object.now.fixed.class key before.now at.now object.now.fixed object.now.body in
        IfOk result (λ pressed. Presses object.now said pressed) }
{
    match object.fixed.get().class {
        Class::EntryField => field_pressed(alloc, key, before, at, object),
        Class::PushButton => button_pressed(alloc, key, at, object),
        _ => Ok(Pressed::only(alloc, None)),
    }
}

fn field_pressed(
    alloc: Global,
    key: Key,
    before: &Octets,
    at: &ObjRef,
    object: &Object,
) -> Result<Pressed, AllocError>
    ensures { let said = spec.field_pressed key before.now at.now object.now.fixed object.now.body in
        IfOk result (λ pressed. Presses object.now said pressed) }
{
    match key {
        Key::Digit0 => typed(alloc, b'0', at, object),
        Key::Digit1 => typed(alloc, b'1', at, object),
        Key::Digit2 => typed(alloc, b'2', at, object),
        Key::Digit3 => typed(alloc, b'3', at, object),
        Key::Digit4 => typed(alloc, b'4', at, object),
        Key::Digit5 => typed(alloc, b'5', at, object),
        Key::Digit6 => typed(alloc, b'6', at, object),
        Key::Digit7 => typed(alloc, b'7', at, object),
        Key::Digit8 => typed(alloc, b'8', at, object),
        Key::Digit9 => typed(alloc, b'9', at, object),
        Key::Left => Ok(Pressed::only(alloc, Some(Edit::Point(left_of(object))))),
        Key::Right => Ok(Pressed::only(alloc, Some(Edit::Point(right_of(object))))),
        Key::Select => completed(alloc, at, None),
        Key::Cancel => completed(alloc, at, Some(restored(before)?)),
        _ => Ok(Pressed::only(alloc, None)),
    }
}

/// The text is again the one that there was when interaction began.
fn restored(before: &Octets) -> Result<Edit, AllocError>
    ensures { IfOk result (λ edit. edit ≡ Edit.Type before.now (length before.now)) }
{
    let point = before.as_slice().len();
    Ok(Edit::Type(before.clone()?, point))
}

fn left_of(object: &Object) -> usize
    ensures { result ≡ object.now.body.point - 1 }
{
    object.body.point.saturating_sub(1)
}

/// To the right within the text.
fn right_of(object: &Object) -> usize
    ensures { result ≡ spec.right_of object.now.body }
{
    let point = object.body.point;
    if point < object.text().len() {
        point + 1
    } else {
        point
    }
}

/// What typing an octet makes of the field.
fn typed(alloc: Global, octet: u8, at: &ObjRef, object: &Object) -> Result<Pressed, AllocError>
    ensures { let said = spec.typed octet at.now object.now.fixed object.now.body in
        IfOk result (λ pressed. Presses object.now said pressed) }
{
    if replaces(object) {
        return Ok(Pressed::only(alloc, Some(overtyped(alloc, octet, object)?)));
    }
    if has_room(object) {
        put_in(alloc, octet, at, object)
    } else {
        Ok(Pressed::only(alloc, None))
    }
}

/// Whether what is typed replaces the octet at the entry point: there has to be one.
fn replaces(object: &Object) -> bool
    ensures { let text = text_of object.now.body in
        result ≡ (object.now.body.overwrites && nat_lt object.now.body.point (length text)) }
{
    object.body.overwrites && object.body.point < object.text().len()
}

/// Whether one more octet can be typed.
fn has_room(object: &Object) -> bool
    ensures { let text = text_of object.now.body in
        result ≡ int_lt (pos (length text)) (spec.most_typed object.now.fixed) }
{
    let most = most_typed(object.fixed.get());
    most >= 0 && object.text().len() < most.unsigned_abs() as usize
}

/// Whether one more octet fills the field.
fn is_filled_by_one(object: &Object) -> bool
    ensures { let text = text_of object.now.body in
        result ≡ int_eq (pos (length text + 1)) (spec.most_typed object.now.fixed) }
{
    let most = most_typed(object.fixed.get());
    most >= 0 && object.text().len() + 1 == most.unsigned_abs() as usize
}

/// The most octets that can be typed into the field.
fn most_typed(fixed: &Fixed) -> i32
    ensures { result ≡ spec.most_typed fixed.now }
{
    as_int(fixed.properties.get(Attribute::MaxLength), MOST_TYPED)
}

/// The octet replaces the one at the entry point.
fn overtyped(alloc: Global, octet: u8, object: &Object) -> Result<Edit, AllocError>
    requires { object.now.body.point < length (text_of object.now.body) }
    ensures { let point = object.now.body.point in
        let text = slice_set (text_of object.now.body) point octet in
        IfOk result (λ edit. edit ≡ Edit.Type text (point + 1)) }
{
    let point = object.body.point;
    let mut text = Vec::from_slice(alloc, object.text())?;
    text[point] = octet;
    Ok(Edit::Type(Octets::from_vec(alloc, text)?, point + 1))
}

/// The octet is put in at the entry point, which is told where the field is full by that.
fn put_in(alloc: Global, octet: u8, at: &ObjRef, object: &Object) -> Result<Pressed, AllocError>
    ensures { let said = spec.put_in octet at.now object.now.fixed object.now.body in
        IfOk result (λ pressed. Presses object.now said pressed) }
{
    let items = if is_filled_by_one(object) {
        one_event(alloc, at, EventType::EntryFieldFull)?
    } else {
        Vec::new(alloc)
    };
    let point = point_in(object);
    let text = with_octet(alloc, octet, object.text(), point)?;
    Ok(Pressed {
        edit: Some(Edit::Type(text, point + 1)),
        items,
        ends: false,
    })
}

/// The entry point, within the text.
fn point_in(object: &Object) -> usize
    ensures is { result ≡ spec.point_in object.now.body }
    ensures within { result ≤ length (text_of object.now.body) }
{
    let point = object.body.point;
    let end = object.text().len();
    if point < end { point } else { end }
}

/// The text with the octet behind so many of its octets.
fn with_octet(alloc: Global, octet: u8, text: &[u8], point: usize) -> Result<Octets, AllocError>
    ensures { IfOk result (λ octets. octets ≡ take point text.now ++ octet ∷ drop point text.now) }
{
    let mut octets = Vec::with_capacity(alloc, text.len() + 1)?;
    octets.extend_from_slice(front_of(text, point))?;
    octets.push(octet)?;
    octets.extend_from_slice(behind_of(text, point))?;
    Octets::from_vec(alloc, octets)
}
