//! What is held under an attribute.
ghost use Rattle.std.specs.Prelude.{◌≡◌, OnOk, OnErr, IfOk, ◌++◌, ◌∷◌, [], ◌<◌, vec_len, slice_set};
ghost use Rattle.std.specs.Option.{option_copied};
ghost use Rattle.std.specs.List.{position};
ghost use Rattle.mh_model.specs.Property.{held, with_held, is_of, as_bool, as_int, as_pair, as_colour, as_effect, as_event, as_justification, justified, as_value, as_members, as_rows, as_positions};

use crate::{Act, Effect, Member};
use mh_base::{Colour, EventType, Shared, Value};
use mh_group::{Attribute, Justification, Position};
use std::alloc::{AllocError, Global};
use std::marker::Model;

/// The value of an attribute of an object.
#[derive(Clone, Drop)]
pub enum Held {
    Value(Value),
    Pair(i32, i32),
    Colour(Colour),
    Event(EventType),
    Effect(Effect),
    /// The members of a group of objects.
    Members(Shared<Member>),
    /// The rows of a movement table.
    Rows(Shared<Shared<i32>>),
    /// Where the cells of a list group lie.
    Positions(Shared<Position>),
    /// A value that is kept and that nothing looks at.
    Kept,
}

/// The truth value that is held, or this one.
pub fn as_bool(held: Option<&Held>, default: bool) -> bool
    ensures { result ≡ as_bool default (option_copied held.entry) }
{
    match held {
        Some(Held::Value(Value::Bool(truth))) => *truth,
        _ => default,
    }
}

/// The number that is held, or this one.
pub fn as_int(held: Option<&Held>, default: i32) -> i32
    ensures { result ≡ as_int default (option_copied held.entry) }
{
    match held {
        Some(Held::Value(Value::Int(number))) => *number,
        _ => default,
    }
}

/// The pair that is held, or two zeros.
pub fn as_pair(held: Option<&Held>) -> (i32, i32)
    ensures { result ≡ as_pair (option_copied held.entry) }
{
    match held {
        Some(Held::Pair(first, second)) => (*first, *second),
        _ => (0, 0),
    }
}

/// The colour that is held, or this one.
pub fn as_colour(held: Option<&Held>, default: Colour) -> Colour
    ensures { result ≡ as_colour default (option_copied held.entry) }
{
    match held {
        Some(Held::Colour(colour)) => *colour,
        _ => default,
    }
}

/// The justification that is held, or the default one.
pub fn as_justification(held: Option<&Held>) -> Justification
    ensures { result ≡ as_justification (option_copied held.entry) }
{
    match held {
        Some(Held::Value(Value::Int(number))) => justified(*number),
        _ => Justification::Start,
    }
}

fn justified(number: i32) -> Justification
    ensures { result ≡ justified number }
{
    if number == 2 {
        return Justification::End;
    }
    if number == 3 {
        Justification::Centre
    } else {
        Justification::Start
    }
}

/// The type of events that is held, if one is.
pub fn as_event(held: Option<&Held>) -> Option<EventType>
    ensures { result ≡ as_event (option_copied held.entry) }
{
    match held {
        Some(Held::Event(event)) => Some(*event),
        _ => None,
    }
}

/// The value that is held, if one is.
pub fn as_value(held: Option<&Held>) -> Option<&Value>
    ensures { option_copied result ≡ as_value (option_copied held.entry) }
{
    match held {
        Some(Held::Value(value)) => Some(value),
        _ => None,
    }
}

/// The effect that is held, or an empty one.
pub fn as_effect(held: Option<&Held>) -> &[Act]
    ensures { result.now ≡ as_effect (option_copied held.entry) }
{
    match held {
        Some(Held::Effect(effect)) => effect.as_slice(),
        _ => &[],
    }
}

/// The members that are held, or none.
pub fn as_members(held: Option<&Held>) -> &[Member]
    ensures { result.now ≡ as_members (option_copied held.entry) }
{
    match held {
        Some(Held::Members(members)) => members.as_slice(),
        _ => &[],
    }
}

/// The rows of the movement table that is held, or none.
pub fn as_rows(held: Option<&Held>) -> &[Shared<i32>]
    ensures { result.now ≡ as_rows (option_copied held.entry) }
{
    match held {
        Some(Held::Rows(rows)) => rows.as_slice(),
        _ => &[],
    }
}

/// The positions that are held, or none.
pub fn as_positions(held: Option<&Held>) -> &[Position]
    ensures { result.now ≡ as_positions (option_copied held.entry) }
{
    match held {
        Some(Held::Positions(positions)) => positions.as_slice(),
        _ => &[],
    }
}

/// An attribute with its value.
#[derive(Clone, Drop)]
pub struct Property {
    pub attribute: Attribute,
    pub held: Held,
}

/// Attributes with their values, each at most once. A contract sees the list.
#[derive(Drop)]
pub struct Properties {
    list: Vec<Property>,
}

impl Model for Properties {
    ghost use Rattle.std.specs.Prelude.{List};
    ghost use Rattle.mh_model.specs.declared.held.Property.{Property};

    ghost Value = { List Property };

    ghost view = { λ p. p.list.items };
}

impl Properties {
    /// No properties. It takes no memory.
    pub fn new(alloc: Global) -> Properties
        ensures { result ≡ [] }
    {
        Properties {
            list: Vec::new(alloc),
        }
    }

    /// The properties of this list, in which each attribute stands once.
    pub fn of_vec(list: Vec<Property>) -> Properties
        ensures { result ≡ list.items }
    {
        Properties { list }
    }

    /// What is held under the attribute, if anything is.
    pub fn get(&self, attribute: Attribute) -> Option<&Held>
        ensures { option_copied result ≡ held attribute self.now }
    {
        held_in(self.list.as_slice(), attribute)
    }

    /// Puts this under the attribute. Where memory is refused, everything stays as it was.
    pub fn set(&mut self, attribute: Attribute, held: Held) -> Result<(), AllocError>
        ensures done { OnOk result (self.new ≡ with_held attribute held self.old) }
        ensures kept { OnErr result (self.new ≡ self.old) }
    {
        put_in(&mut self.list, Property { attribute, held })
    }

    /// A copy. Effects and octets are shared with it.
    pub fn copy(&self, alloc: Global) -> Result<Properties, AllocError>
        ensures { IfOk result (λ copy. copy ≡ self.now) }
    {
        let mut list = Vec::with_capacity(alloc, self.list.len())?;
        for property in &self.list {
            list.push(copied(property)?)?;
        }
        Ok(Properties { list })
    }
}

fn copied(property: &Property) -> Result<Property, AllocError>
    ensures { IfOk result (λ copy. copy ≡ property.now) }
{
    property.clone()
}

fn held_in<'a>(list: &'a [Property], attribute: Attribute) -> Option<&'a Held>
    ensures { option_copied result ≡ held attribute list.now }
{
    match place_of(list, attribute) {
        Some(place) => Some(&list[place].held),
        None => None,
    }
}

fn put_in(list: &mut Vec<Property>, property: Property) -> Result<(), AllocError>
    ensures done { OnOk result (list.new.items ≡ with_held property.attribute property.held list.old.items) }
    ensures kept { OnErr result (list.new.items ≡ list.old.items) }
{
    match place_of(list.as_slice(), property.attribute) {
        Some(place) => {
            replace_at(list, place, property);
            Ok(())
        }
        None => {
            append(list, property)?;
            Ok(())
        }
    }
}

fn replace_at(list: &mut Vec<Property>, place: usize, property: Property)
    requires { place < vec_len list.old }
    ensures { list.new.items ≡ slice_set list.old.items place property }
{
    list[place] = property;
}

fn append(list: &mut Vec<Property>, property: Property) -> Result<(), AllocError>
    ensures done { OnOk result (list.new.items ≡ list.old.items ++ property ∷ []) }
    ensures kept { OnErr result (list.new.items ≡ list.old.items) }
{
    list.push(property)?;
    Ok(())
}

/// The place of the attribute among the properties, if it is there.
fn place_of(list: &[Property], attribute: Attribute) -> Option<usize>
    ensures { result ≡ position (is_of attribute) list.now }
{
    let number = attribute.number();
    list.iter()
        .position(|property| property.attribute.number() == number)
}
