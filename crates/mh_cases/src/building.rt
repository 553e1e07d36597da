//! Groups that no file holds, since they are larger.
use mh_base::Seq;
use mh_group::{
    Action, ActionName, Attribute, Class, Effect, Field, Generic, Group, Ingredient, Member,
    Number, Ref, Setting, Written, WrittenName,
};
use mh_text::read_group;
use std::alloc::Global;

/// The group, where the tables allow it.
fn made(written: Written) -> Option<Group> {
    Group::new(written).ok()
}

pub fn written_name(alloc: Global, bytes: &[u8]) -> Option<WrittenName> {
    WrittenName::new(Vec::from_slice(alloc, bytes).ok()?)
}

pub fn one_field(alloc: Global, attribute: Attribute, setting: Setting) -> Option<Seq<Field>> {
    Some(Seq::from_vec(vec![in alloc; Field { attribute, setting }].ok()?))
}

/// Puts so many transitions to the group of this name, or where it has none to the group itself.
fn add_transitions(alloc: Global, effect: &mut Effect, count: usize, name: &[u8]) -> Option<()> {
    let number = Number::new(0)?;
    for _ in 0..count {
        let target = if name.is_empty() {
            Ref::Here(number)
        } else {
            Ref::In(written_name(alloc, name)?, number)
        };
        let action = Action {
            name: ActionName::TransitionTo,
            target: Generic::Direct(target),
            parameters: Seq::new(alloc),
        };
        effect.push(action).ok()?;
    }
    Some(())
}

/// Makes so many transitions at the start all that stands in the fields.
fn start_up(alloc: Global, fields: &mut Seq<Field>, count: usize, name: &[u8]) -> Option<()> {
    let mut effect = Seq::new(alloc);
    let added = add_transitions(alloc, &mut effect, count, name);
    let field = one_field(alloc, Attribute::OnStartUp, Setting::Effect(effect));
    *fields = added.and(field)?;
    Some(())
}

/// An application with a name of so many letters, which goes to itself so many times when it starts.
pub fn application(alloc: Global, letters: usize, actions: usize) -> Option<Group> {
    let name = vec![in alloc; b'a'; letters].ok()?;
    let identifier = WrittenName::new(name)?;
    let mut fields = Seq::new(alloc);
    let begun = start_up(alloc, &mut fields, actions, b"");
    let written = Written {
        class: Class::Application,
        identifier,
        fields,
        items: None,
    };
    begun.and(made(written))
}

/// Puts so many members, each with so many empty slots.
pub fn add_members(alloc: Global, list: &mut Seq<Member>, members: u32, slots: u32) -> Option<()> {
    let number = Number::new(1)?;
    for _ in 0..members {
        let mut effects = Seq::new(alloc);
        for _ in 0..slots {
            effects.push(Seq::new(alloc)).ok()?;
        }
        let member = Member {
            object: Ref::Here(number),
            slots: effects,
        };
        list.push(member).ok()?;
    }
    Some(())
}

/// A scene with a token group of so many members, each with so many empty slots.
pub fn token_group(alloc: Global, count: u32, slots: u32) -> Option<Group> {
    let mut list = Seq::new(alloc);
    let added = add_members(alloc, &mut list, count, slots);
    let fields = one_field(alloc, Attribute::TokenGroupItems, Setting::Members(list));
    let (number, fields) = added.and(Number::new(1)).zip(fields)?;
    let item = Ingredient {
        class: Class::TokenGroup,
        number,
        fields,
    };
    let items = vec![in alloc; item].ok();
    let (identifier, items) = written_name(alloc, b"~/s").zip(items)?;
    let written = Written {
        class: Class::Scene,
        identifier,
        fields: Seq::new(alloc),
        items: Some(Seq::from_vec(items)),
    };
    made(written)
}

/// Puts so many variables, from the number 1 on.
fn add_variables(alloc: Global, items: &mut Seq<Ingredient>, count: u32) -> Option<()> {
    for before in 0..count {
        let fields = one_field(alloc, Attribute::OrigValue, Setting::Int(0));
        let (number, fields) = Number::new(before.saturating_add(1)).zip(fields)?;
        let variable = Ingredient {
            class: Class::IntegerVar,
            number,
            fields,
        };
        items.push(variable).ok()?;
    }
    Some(())
}

/// The group of the text with so many variables more, from the number 1 on; and which, if there are
/// such, does so many actions at its start, and nothing else.
pub fn grown(alloc: Global, text: &[u8], variables: u32, actions: usize) -> Option<Group> {
    let mut written = read_group(alloc, text).ok()?.into_written();
    let mut items = written.items.take().unwrap_or(Seq::new(alloc));
    let added = add_variables(alloc, &mut items, variables);
    written.items = Some(items);
    let begun = if actions > 0 {
        start_up(alloc, &mut written.fields, actions, b"x")
    } else {
        Some(())
    };
    added.and(begun).and(made(written))
}
