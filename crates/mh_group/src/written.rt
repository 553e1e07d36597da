//! A group as it is written: plain values, which need not fit the tables.
use crate::{
    Action, Attribute, Class, Content, Effect, EventData, Justification, Number, Ref, WrittenName,
};
use mh_base::{Colour, EventType, Octets, Seq};

/// A member of a token group or a list group (ISO/IEC 13522-5, TokenGroupItem): the object, and what
/// each of its action slots does.
#[derive(Drop)]
pub struct Member {
    pub object: Ref,
    pub slots: Seq<Effect>,
}

/// Where a cell of a list group lies, in units of the screen.
#[derive(Clone, Copy, PartialEq, Eq)]
pub struct Position {
    pub x: i32,
    pub y: i32,
}

/// A scene that may come next, and how likely it is (ISO/IEC 13522-5, NextScene). It is only kept.
#[derive(Drop)]
pub struct NextScene {
    pub name: WrittenName,
    pub weight: i32,
}

/// The value with which an attribute is written, one variant a kind of value.
#[derive(Drop)]
pub enum Setting {
    Bool(bool),
    Int(i32),
    Pair(i32, i32),
    Octets(Octets),
    Colour(Colour),
    Ref(Ref),
    /// Octets, or the name of a content file.
    Content(Content),
    /// The name of a content file.
    ContentRef(WrittenName),
    Event(EventType),
    /// The data of an event.
    Data(EventData),
    Justification(Justification),
    Effect(Seq<Action>),
    /// The rows of a movement table.
    MovementTable(Seq<Seq<i32>>),
    Members(Seq<Member>),
    Positions(Seq<Position>),
    NextScenes(Seq<NextScene>),
}

/// One attribute with its value.
#[derive(Drop)]
pub struct Field {
    pub attribute: Attribute,
    pub setting: Setting,
}

/// An object of a group (ISO/IEC 13522-5, Ingredient).
#[derive(Drop)]
pub struct Ingredient {
    pub class: Class,
    pub number: Number,
    /// In the order of the attributes' numbers.
    pub fields: Seq<Field>,
}

/// A group (ISO/IEC 13522-5, Group) as it is written.
#[derive(Drop)]
pub struct Written {
    pub class: Class,
    /// The name in the group's own identifier, which is only kept and printed.
    pub identifier: WrittenName,
    /// In the order of the attributes' numbers, without the items.
    pub fields: Seq<Field>,
    /// The ingredients, if the group writes them.
    pub items: Option<Seq<Ingredient>>,
}
