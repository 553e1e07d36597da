//! Written objects, whatever the tables say of them.
use mh_base::{Colour, EventType, Octets, Seq};
use mh_cases::building::{add_members, written_name};
use mh_cases::{number, word};
use mh_group::{
    Action, ActionName, Attribute, Class, Content, EventData, Field, Generic, Ingredient, Number,
    Parameter, Ref, Setting, Typed, Written,
};
use std::alloc::Global;

fn effect(alloc: Global, name: ActionName, integers: u32, typed: u32) -> Option<Setting> {
    let number = Number::new(0)?;
    let mut parameters = Seq::new(alloc);
    for at in 0..integers.saturating_add(typed) {
        let parameter = if at < integers {
            Parameter::Int(Generic::Direct(1))
        } else {
            Parameter::Typed(Typed::Int(Generic::Direct(1)))
        };
        parameters.push(parameter).ok()?;
    }
    let action = Action {
        name,
        target: Generic::Direct(Ref::Here(number)),
        parameters,
    };
    Some(Setting::Effect(Seq::from_vec(vec![in alloc; action].ok()?)))
}

/// The integer at this place.
fn int(field: &str, at: usize) -> Option<i32> {
    word(field, at).parse::<i32>().ok()
}

/// A value of one piece.
fn plain_setting(field: &str) -> Option<Setting> {
    match word(field, 1) {
        "bool" => Some(Setting::Bool(word(field, 2) == "true")),
        "int" => Some(Setting::Int(int(field, 2)?)),
        "pair" => Some(Setting::Pair(int(field, 2)?, int(field, 3)?)),
        "colour" => Some(Setting::Colour(BLACK)),
        "truth" => Some(Setting::Data(EventData::Bool(word(field, 2) == "true"))),
        "number" => Some(Setting::Data(EventData::Int(int(field, 2)?))),
        "source" => Some(Setting::Ref(Ref::Here(Number::new(0)?))),
        "event" => Some(Setting::Event(EventType::UserInput)),
        _ => None,
    }
}

const BLACK: Colour = Colour {
    red: 0,
    green: 0,
    blue: 0,
    transparency: 0,
};

fn octets(alloc: Global, field: &str) -> Option<Octets> {
    let octets = vec![in alloc; 0u8; number(field, 2)? as usize].ok()?;
    Octets::from_vec(alloc, octets).ok()
}

/// A value of many pieces: so many octets, also as content, the name of a content file, also as content,
/// so many members with so many empty slots, positions, or an action with so many integers and behind
/// them so many values with their kind.
fn large_setting(alloc: Global, field: &str) -> Option<Setting> {
    match word(field, 1) {
        "octets" => Some(Setting::Octets(octets(alloc, field)?)),
        "included" => Some(Setting::Content(Content::Included(octets(alloc, field)?))),
        "referenced" => {
            Some(Setting::Content(Content::Referenced(written_name(alloc, b"~/a")?)))
        }
        "name" => Some(Setting::ContentRef(written_name(alloc, b"~/a")?)),
        "members" => {
            let (count, slots) = number(field, 2).zip(number(field, 3))?;
            let mut list = Seq::new(alloc);
            let added = add_members(alloc, &mut list, count, slots);
            added.and(Some(Setting::Members(list)))
        }
        "positions" => Some(Setting::Positions(Seq::new(alloc))),
        "action" => {
            let name = ActionName::of_word(word(field, 2).as_bytes())?;
            effect(alloc, name, number(field, 3)?, number(field, 4)?)
        }
        _ => None,
    }
}

/// A field: an attribute and its value.
fn field(alloc: Global, field: &str) -> Option<Field> {
    let attribute = Attribute::of_word(word(field, 0).as_bytes())?;
    let setting = match plain_setting(field) {
        Some(setting) => setting,
        None => large_setting(alloc, field)?,
    };
    Some(Field { attribute, setting })
}

fn add_fields(alloc: Global, fields: &mut Seq<Field>, written: &str) -> Option<()> {
    if !written.is_empty() {
        for one in written.split("; ") {
            fields.push(field(alloc, one)?).ok()?;
        }
    }
    Some(())
}

/// What is written where a group has these fields and one ingredient.
pub fn written(alloc: Global, class: Class, own: &str, item: Ingredient) -> Option<Written> {
    let mut fields = Seq::new(alloc);
    let added = add_fields(alloc, &mut fields, own);
    let parts = added.and(Some(fields)).zip(vec![in alloc; item].ok());
    let (identifier, (fields, items)) = written_name(alloc, b"~/a").zip(parts)?;
    Some(Written {
        class,
        identifier,
        fields,
        items: Some(Seq::from_vec(items)),
    })
}

pub fn ingredient(alloc: Global, class: Class, number: u32, own: &str) -> Option<Ingredient> {
    let number = Number::new(number)?;
    let mut fields = Seq::new(alloc);
    let added = add_fields(alloc, &mut fields, own);
    added.and(Some(Ingredient {
        class,
        number,
        fields,
    }))
}
