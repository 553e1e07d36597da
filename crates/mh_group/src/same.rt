//! Whether two groups are written the same.
//!
//! Promise: the answer is true exactly where the two are equal as values; spacing, comments and notation are no part of
//! a value.
ghost use Rattle.std.specs.Prelude.{◌≡◌, Bool};
ghost use Rattle.std.specs.Ordering.{int_eq};
ghost use Rattle.std.specs.Str.{bytes_eq};
ghost use Rattle.mh_group.specs.Same.{same_written_ref, same_generic, same_typed, same_content, same_data, same_event_type, same_parameter, same_written_action, same_member, same_position, same_next, same_colour, same_written_setting, same_field, same_ingredient, same_written_items, same_group, same_list, are_same, SameGroupDecides};

use crate::{
    Action, Content, EventData, Field, Generic, Ingredient, Member, NextScene, Parameter, Position,
    Ref, Setting, Typed, Written, WrittenName,
};
use mh_base::{Colour, EventType, Octets, Seq};

/// Values of which two can be told to be the same.
trait Same {
    /// What it means for two to be the same.
    ghost same: { Self → Self → Bool };

    fn is_same(&self, other: &Self) -> bool
        ensures { result ≡ same self.now other.now };
}

impl Same for bool {
    ghost same = { are_same };

    fn is_same(&self, other: &bool) -> bool {
        *self == *other
    }
}

impl Same for i32 {
    ghost same = { int_eq };

    fn is_same(&self, other: &i32) -> bool {
        *self == *other
    }
}

impl Same for Octets {
    ghost same = { bytes_eq };

    fn is_same(&self, other: &Octets) -> bool {
        self.as_slice() == other.as_slice()
    }
}

impl Same for WrittenName {
    ghost same = { bytes_eq };

    fn is_same(&self, other: &WrittenName) -> bool {
        self.as_bytes() == other.as_bytes()
    }
}

impl Same for EventType {
    ghost same = { same_event_type };

    fn is_same(&self, other: &EventType) -> bool {
        self.number() == other.number()
    }
}

impl Same for Colour {
    ghost same = { same_colour };

    fn is_same(&self, other: &Colour) -> bool {
        self.red == other.red
            && self.green == other.green
            && self.blue == other.blue
            && self.transparency == other.transparency
    }
}

impl Same for Position {
    ghost same = { same_position };

    fn is_same(&self, other: &Position) -> bool {
        self.x == other.x && self.y == other.y
    }
}

impl Same for NextScene {
    ghost same = { same_next };

    fn is_same(&self, other: &NextScene) -> bool {
        self.name.is_same(&other.name) && self.weight == other.weight
    }
}

impl Same for Ref {
    ghost same = { same_written_ref };

    fn is_same(&self, other: &Ref) -> bool {
        match (self, other) {
            (Ref::Here(number), Ref::Here(second)) => number.get() == second.get(),
            (Ref::In(group, number), Ref::In(other, second)) => {
                group.is_same(other) && number.get() == second.get()
            }
            _ => false,
        }
    }
}

/// Whether two lists have the same members.
fn same_list<T: Same>(first: &[T], second: &[T]) -> bool
    ensures { result ≡ same_list T.same first.now second.now }
{
    let mut left = first;
    let mut right = second;
    while let [x, more @ ..] = left {
        let [y, rest @ ..] = right else {
            return false;
        };
        if !x.is_same(y) {
            return false;
        }
        left = more;
        right = rest;
    }
    right.is_empty()
}

impl<T: Same> Same for Seq<T> {
    ghost same = { same_list T.same };

    fn is_same(&self, other: &Seq<T>) -> bool {
        same_list(self.as_slice(), other.as_slice())
    }
}

impl<T: Same> Same for Generic<T> {
    ghost same = { same_generic T.same };

    fn is_same(&self, other: &Generic<T>) -> bool {
        match (self, other) {
            (Generic::Direct(x), Generic::Direct(y)) => x.is_same(y),
            (Generic::Indirect(x), Generic::Indirect(y)) => x.is_same(y),
            _ => false,
        }
    }
}

impl Same for Typed {
    ghost same = { same_typed };

    fn is_same(&self, other: &Typed) -> bool {
        match (self, other) {
            (Typed::Bool(x), Typed::Bool(y)) => x.is_same(y),
            (Typed::Int(x), Typed::Int(y)) => x.is_same(y),
            (Typed::Octets(x), Typed::Octets(y)) => x.is_same(y),
            (Typed::Ref(x), Typed::Ref(y)) => x.is_same(y),
            (Typed::ContentRef(x), Typed::ContentRef(y)) => x.is_same(y),
            _ => false,
        }
    }
}

impl Same for Content {
    ghost same = { same_content };

    fn is_same(&self, other: &Content) -> bool {
        match (self, other) {
            (Content::Included(x), Content::Included(y)) => x.is_same(y),
            (Content::Referenced(x), Content::Referenced(y)) => x.is_same(y),
            _ => false,
        }
    }
}

impl Same for EventData {
    ghost same = { same_data };

    fn is_same(&self, other: &EventData) -> bool {
        match (self, other) {
            (EventData::Bool(x), EventData::Bool(y)) => x.is_same(y),
            (EventData::Int(x), EventData::Int(y)) => x.is_same(y),
            _ => false,
        }
    }
}

impl Same for Parameter {
    ghost same = { same_parameter };

    fn is_same(&self, other: &Parameter) -> bool {
        match (self, other) {
            (Parameter::Bool(x), Parameter::Bool(y)) => x.is_same(y),
            (Parameter::Int(x), Parameter::Int(y)) => x.is_same(y),
            (Parameter::Octets(x), Parameter::Octets(y)) => x.is_same(y),
            (Parameter::Ref(x), Parameter::Ref(y)) => x.is_same(y),
            (Parameter::Content(x), Parameter::Content(y)) => x.is_same(y),
            (Parameter::Data(x), Parameter::Data(y)) => x.is_same(y),
            (Parameter::Event(x), Parameter::Event(y)) => x.is_same(y),
            (Parameter::Receiver(x), Parameter::Receiver(y)) => x.is_same(y),
            (Parameter::Typed(x), Parameter::Typed(y)) => x.is_same(y),
            (Parameter::Arguments(x), Parameter::Arguments(y)) => x.is_same(y),
            _ => false,
        }
    }
}

impl Same for Action {
    ghost same = { same_written_action };

    fn is_same(&self, other: &Action) -> bool {
        self.name.number() == other.name.number()
            && self.target.is_same(&other.target)
            && self.parameters.is_same(&other.parameters)
    }
}

impl Same for Member {
    ghost same = { same_member };

    fn is_same(&self, other: &Member) -> bool {
        self.object.is_same(&other.object) && self.slots.is_same(&other.slots)
    }
}

impl Same for Setting {
    ghost same = { same_written_setting };

    fn is_same(&self, other: &Setting) -> bool {
        match (self, other) {
            (Setting::Bool(x), Setting::Bool(y)) => x.is_same(y),
            (Setting::Int(x), Setting::Int(y)) => x.is_same(y),
            (Setting::Pair(a, b), Setting::Pair(x, y)) => *a == *x && *b == *y,
            (Setting::Octets(x), Setting::Octets(y)) => x.is_same(y),
            (Setting::Colour(x), Setting::Colour(y)) => x.is_same(y),
            (Setting::Ref(x), Setting::Ref(y)) => x.is_same(y),
            (Setting::Content(x), Setting::Content(y)) => x.is_same(y),
            (Setting::ContentRef(x), Setting::ContentRef(y)) => x.is_same(y),
            (Setting::Event(x), Setting::Event(y)) => x.is_same(y),
            (Setting::Data(x), Setting::Data(y)) => x.is_same(y),
            (Setting::Justification(x), Setting::Justification(y)) => x.number() == y.number(),
            (Setting::Effect(x), Setting::Effect(y)) => x.is_same(y),
            (Setting::MovementTable(x), Setting::MovementTable(y)) => x.is_same(y),
            (Setting::Members(x), Setting::Members(y)) => x.is_same(y),
            (Setting::Positions(x), Setting::Positions(y)) => x.is_same(y),
            (Setting::NextScenes(x), Setting::NextScenes(y)) => x.is_same(y),
            _ => false,
        }
    }
}

impl Same for Field {
    ghost same = { same_field };

    fn is_same(&self, other: &Field) -> bool {
        self.attribute.number() == other.attribute.number() && self.setting.is_same(&other.setting)
    }
}

impl Same for Ingredient {
    ghost same = { same_ingredient };

    fn is_same(&self, other: &Ingredient) -> bool {
        self.class.number() == other.class.number()
            && self.number.get() == other.number.get()
            && self.fields.is_same(&other.fields)
    }
}

fn same_written_items(first: &Option<Seq<Ingredient>>, second: &Option<Seq<Ingredient>>) -> bool
    ensures { result ≡ same_written_items first.now second.now }
{
    match (first, second) {
        (None, None) => true,
        (Some(x), Some(y)) => x.is_same(y),
        _ => false,
    }
}

/// Whether the two groups are written the same.
#[tactic(auto, unfolding(crate::specs::Same::same_group))]
pub fn same_group(first: &Written, second: &Written) -> bool
    ensures { result ≡ same_group first.now second.now }
{
    first.class.number() == second.class.number()
        && first.identifier.is_same(&second.identifier)
        && first.fields.is_same(&second.fields)
        && same_written_items(&first.items, &second.items)
}

/// The law that `same_group` is equality: two groups for which it answers true are equal, and each group is the same as
/// itself.
pub fn same_group_decides()
    ensures { SameGroupDecides }
{}
