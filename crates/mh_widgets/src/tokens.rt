//! The token of a group of objects, and the slots of its members (ISO/IEC 13522-5, TokenManager and
//! TokenGroup).
ghost use Rattle.std.specs.Prelude.{◌≡◌, IfOk, Some, pos};
ghost use Rattle.std.specs.Option.{option_copied};
ghost use Rattle.mh_group.specs.Table.{is_visible};
ghost use Rattle.mh_model.specs.Items.{acts};
ghost use Rattle.mh_model.specs.Tokens as spec;
ghost use Rattle.mh_model.specs.Tokens.{slot_items, token_worked};
ghost use Rattle.mh_widgets.specs.Does.{Does, acts_of, placed_by, placed_with};

use crate::counts::numbered;
use crate::done::Done;
use crate::events::count_event;
use mh_base::{EventType, ObjRef, Value};
use mh_group::{ActionName, Attribute, Class};
use mh_model::held::{as_positions, as_rows};
use mh_model::parts::members;
use mh_model::{Edit, Effect, Fixed, Object};
use std::alloc::{AllocError, Global};

/// What Move or MoveTo makes of the group at this reference: where there is another position to which
/// the token goes, it does, and that is told.
pub fn token_worked(
    alloc: Global,
    name: ActionName,
    values: &[Value],
    at: &ObjRef,
    object: &Object,
) -> Result<Done, AllocError>
    ensures done { let said = token_worked name values.now at.now object.now.fixed object.now.body in
        IfOk result (λ done. Does object.now said done) }
    ensures edited { IfOk result (λ done. done.placed.items ≡ placed_with done.edit done.placed.items) }
    ensures unseen { let seen = is_visible object.now.fixed.class in
        IfOk result (λ done. done.placed.items ≡ placed_by done.placed.items seen) }
{
    match token_wanted(name, values, object) {
        Some(wanted) => turned(alloc, at, object, wanted),
        None => Ok(Done::nothing(alloc)),
    }
}

/// Where the token is to go, if anywhere.
fn token_wanted(name: ActionName, values: &[Value], object: &Object) -> Option<i32>
    ensures { result ≡ spec.token_wanted name values.now object.now.fixed object.now.body }
{
    match (name, values) {
        (ActionName::Move, [Value::Int(row)]) => {
            if *row < 0 {
                return None;
            }
            by_row(object, row.unsigned_abs() as usize)
        }
        (ActionName::MoveTo, [Value::Int(position)]) => Some(*position),
        _ => None,
    }
}

/// Where it goes by a row of the movement table.
fn by_row(object: &Object, row: usize) -> Option<i32>
    ensures { result ≡ spec.by_row object.now.fixed row object.now.body.token }
{
    let rows = as_rows(object.fixed.get().properties.get(Attribute::MovementTable));
    let row = numbered(rows, row)?;
    numbered(row.as_slice(), object.body.token).copied()
}

/// What comes of a token that is to go there.
fn turned(alloc: Global, at: &ObjRef, object: &Object, wanted: i32) -> Result<Done, AllocError>
    ensures done { let said = spec.turned at.now object.now.fixed object.now.body (Some wanted) in
        IfOk result (λ done. Does object.now said done) }
    ensures edited { IfOk result (λ done. done.placed.items ≡ placed_with done.edit done.placed.items) }
    ensures unseen { let seen = is_visible object.now.fixed.class in
        IfOk result (λ done. done.placed.items ≡ placed_by done.placed.items seen) }
{
    if wanted < 0 {
        return Ok(Done::nothing(alloc));
    }
    turned_to(alloc, at, object, wanted.unsigned_abs() as usize)
}

fn turned_to(
    alloc: Global,
    at: &ObjRef,
    object: &Object,
    position: usize,
) -> Result<Done, AllocError>
    ensures done { let said = spec.turned at.now object.now.fixed object.now.body (Some (pos position)) in
        IfOk result (λ done. Does object.now said done) }
    ensures edited { IfOk result (λ done. done.placed.items ≡ placed_with done.edit done.placed.items) }
    ensures unseen { let seen = is_visible object.now.fixed.class in
        IfOk result (λ done. done.placed.items ≡ placed_by done.placed.items seen) }
{
    if !can_turn(object, position) {
        return Ok(Done::nothing(alloc));
    }
    let mut items = Vec::new(alloc);
    items.push(count_event(at, EventType::TokenMovedFrom, object.body.token)?)?;
    items.push(count_event(at, EventType::TokenMovedTo, position)?)?;
    Ok(Done {
        edit: Some(Edit::Turn(position)),
        placed: Vec::new(alloc),
        items,
    })
}

/// Whether this is another position that there is.
fn can_turn(object: &Object, position: usize) -> bool
    ensures { result ≡ spec.can_turn object.now.fixed object.now.body position }
{
    position <= token_places(object.fixed.get()) && position != object.body.token
}

/// How many positions there are: in a list group cells, else members.
fn token_places(fixed: &Fixed) -> usize
    ensures { result ≡ spec.token_places fixed.now }
{
    match fixed.class {
        Class::ListGroup => as_positions(fixed.properties.get(Attribute::Positions)).len(),
        _ => members(fixed).len(),
    }
}

/// What CallActionSlot puts: what the slot with this number does, of the member that has the token.
pub fn slot_of<'a>(values: &[Value], object: &'a Object) -> Option<&'a Effect>
    ensures { acts (acts_of (option_copied result))
        ≡ slot_items values.now object.now.fixed object.now.body }
{
    match values {
        [Value::Int(number)] if *number >= 0 => {
            let member = numbered(members(object.fixed.get()), object.body.token)?;
            numbered(member.slots.as_slice(), number.unsigned_abs() as usize)
        }
        _ => None,
    }
}
