//! What a written group says of its objects, with every reference resolved.
//!
//! Promise: the parts are those of the definitions, and `BadName` is answered exactly where a
//! written name leads to no path. Which groups make a service is left to `service`.
ghost use Rattle.std.specs.Prelude.{◌≡◌, map, IfOk};
ghost use Rattle.std.specs.List.{list_all};
ghost use Rattle.mh_service.specs.Gives.{Gives};
ghost use Rattle.mh_service.specs.Resolved.{act_of, member_of, member_leads, slots_lead, held_of, setting_leads, property_of, field_leads, new_part, part_of, ingredient_leads, parts_of, group_leads};

use crate::acts::effect;
use crate::values::{content_of_file, content_value, data_of, object_value, reference};
use mh_base::{GroupName, NameError, ObjRef, Seq, Shared, Value};
use mh_group::{
    Class, Field, Ingredient, Member as WrittenMember, Position, Setting, Written, group,
};
use mh_model::{Effect, Fixed, FixedPart, Held, Member, Properties, Property};
use std::alloc::{AllocError, Global};

/// The parts of the group of this name: the group itself, and its ingredients in Items order.
pub fn parts(
    alloc: Global,
    name: &GroupName,
    written: &Written,
) -> Result<Seq<FixedPart>, NameError>
    ensures { Gives (λ x. x) result (parts_of name.now written.now)
        (group_leads name.now written.now) }
{
    let itself = part(alloc, name, 0, written.class, written.fields.as_slice())?;
    let ingredients = group::items(written);
    // The group itself stands in front.
    let mut parts = Seq::with_capacity(alloc, ingredients.len().saturating_add(1))?;
    parts.push(itself)?;
    for ingredient in ingredients {
        parts.push(ingredient_part(alloc, name, ingredient)?)?;
    }
    Ok(parts)
}

fn ingredient_part(
    alloc: Global,
    from: &GroupName,
    written: &Ingredient,
) -> Result<FixedPart, NameError>
    ensures { Gives (λ x. x) result (part_of from.now written.now)
        (ingredient_leads from.now written.now) }
{
    let number = written.number.get();
    part(
        alloc,
        from,
        number,
        written.class,
        written.fields.as_slice(),
    )
}

fn part(
    alloc: Global,
    from: &GroupName,
    number: u32,
    class: Class,
    fields: &[Field],
) -> Result<FixedPart, NameError>
    ensures { Gives (λ x. x) result (new_part from.now number class fields.now)
        (list_all (field_leads from.now) fields.now) }
{
    let properties = properties(alloc, from, fields)?;
    let group = from.clone()?;
    let fixed = Fixed {
        key: ObjRef { group, number },
        class,
        properties,
    };
    Ok(FixedPart::new(alloc, fixed)?)
}

fn properties(alloc: Global, from: &GroupName, fields: &[Field]) -> Result<Properties, NameError>
    ensures { Gives (λ x. x) result (map (property_of from.now) fields.now)
        (list_all (field_leads from.now) fields.now) }
{
    let mut properties = Seq::with_capacity(alloc, fields.len())?;
    for field in fields {
        properties.push(property(alloc, from, field)?)?;
    }
    Ok(Properties::of_vec(properties.into_vec()))
}

fn property(alloc: Global, from: &GroupName, field: &Field) -> Result<Property, NameError>
    ensures { Gives (λ x. x) result (property_of from.now field.now)
        (field_leads from.now field.now) }
{
    Ok(Property {
        attribute: field.attribute,
        held: held(alloc, from, &field.setting)?,
    })
}

/// The value as an object holds it.
fn held(alloc: Global, from: &GroupName, setting: &Setting) -> Result<Held, NameError>
    ensures { Gives (λ x. x) result (held_of from.now setting.now)
        (setting_leads from.now setting.now) }
{
    Ok(match setting {
        Setting::Bool(truth) => Held::Value(Value::Bool(*truth)),
        Setting::Int(number) => Held::Value(Value::Int(*number)),
        Setting::Pair(first, second) => Held::Pair(*first, *second),
        Setting::Octets(octets) => Held::Value(Value::Octets(octets.clone()?)),
        Setting::Colour(colour) => Held::Colour(*colour),
        Setting::Ref(written) => Held::Value(object_value(alloc, from, written)?),
        Setting::Content(content) => Held::Value(content_of_file(alloc, from, content)?),
        Setting::ContentRef(name) => Held::Value(content_value(alloc, from, name)?),
        Setting::Event(event) => Held::Event(*event),
        Setting::Data(data) => Held::Value(data_of(data)),
        Setting::Justification(place) => Held::Value(Value::Int(place.number() as i32)),
        Setting::Effect(actions) => Held::Effect(effect(alloc, from, actions.as_slice())?),
        Setting::Members(members) => Held::Members(held_members(alloc, from, members.as_slice())?),
        Setting::MovementTable(rows) => Held::Rows(movement_table(alloc, rows.as_slice())?),
        Setting::Positions(places) => Held::Positions(positions(alloc, places.as_slice())?),
        Setting::NextScenes(_) => Held::Kept,
    })
}

/// The members of a group of objects.
fn held_members(
    alloc: Global,
    from: &GroupName,
    written: &[WrittenMember],
) -> Result<Shared<Member>, NameError>
    ensures { Gives (λ x. x) result (map (member_of from.now) written.now)
        (list_all (member_leads from.now) written.now) }
{
    let mut members = Seq::with_capacity(alloc, written.len())?;
    for one in written {
        members.push(member(alloc, from, one)?)?;
    }
    Ok(Shared::from_vec(alloc, members.into_vec())?)
}

fn member(alloc: Global, from: &GroupName, written: &WrittenMember) -> Result<Member, NameError>
    ensures { Gives (λ x. x) result (member_of from.now written.now)
        (member_leads from.now written.now) }
{
    let object = reference(alloc, from, &written.object)?;
    let slots = slots(alloc, from, written.slots.as_slice())?;
    Ok(Member { object, slots })
}

fn slots(
    alloc: Global,
    from: &GroupName,
    written: &[mh_group::Effect],
) -> Result<Shared<Effect>, NameError>
    ensures { Gives (λ x. x) result (map (map (act_of from.now)) written.now)
        (slots_lead from.now written.now) }
{
    let mut slots = Seq::with_capacity(alloc, written.len())?;
    for slot in written {
        slots.push(effect(alloc, from, slot.as_slice())?)?;
    }
    Ok(Shared::from_vec(alloc, slots.into_vec())?)
}

/// The rows of a movement table.
fn movement_table(alloc: Global, written: &[Seq<i32>]) -> Result<Shared<Shared<i32>>, AllocError>
    ensures { IfOk result (λ rows. rows ≡ written.now) }
{
    let mut rows = Seq::new(alloc);
    for row in written {
        rows.push(movement_row(alloc, row.as_slice())?)?;
    }
    Shared::from_vec(alloc, rows.into_vec())
}

fn movement_row(alloc: Global, written: &[i32]) -> Result<Shared<i32>, AllocError>
    ensures { IfOk result (λ row. row ≡ written.now) }
{
    Shared::from_vec(alloc, Vec::from_slice(alloc, written)?)
}

fn positions(alloc: Global, written: &[Position]) -> Result<Shared<Position>, AllocError>
    ensures { IfOk result (λ positions. positions ≡ written.now) }
{
    Shared::from_vec(alloc, Vec::from_slice(alloc, written)?)
}
