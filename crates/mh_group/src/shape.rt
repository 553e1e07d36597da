//! `Shape` and `Need`: the shapes of the values of attributes and of the parameters of actions; and which
//! shape an attribute has.
ghost use Rattle.std.specs.Prelude.{◌≡◌};
ghost use Rattle.mh_group.specs.Table.{shape_of, value_shape, is_items_shape};

use crate::{Attribute, Class};
use mh_base::Kind;

/// The shapes of the values of attributes.
#[derive(Clone, Copy, PartialEq, Eq)]
pub enum Shape {
    /// A list of ingredients.
    Items,
    Effect,
    Bool,
    Int,
    /// An integer from 0.
    Natural,
    /// An integer from 1 to 255.
    Length,
    /// Two integers.
    Pair,
    /// Two integers from 0.
    Size,
    /// The size of the screen, 720 by 576.
    Screen,
    Ref,
    /// The word of a type of events.
    Event,
    /// The data of an event: a truth value or an integer.
    Data,
    Octets,
    /// Four octets.
    Colour,
    /// Octets, or the name of a content file.
    Content,
    /// The name of a content file.
    ContentRef,
    Justification,
    /// A list of rows, which are lists of integers.
    MovementTable,
    /// A list of members with their slots.
    Members,
    /// A list of at most 256 members without slots.
    ListItems,
    /// A list of pairs of integers.
    Positions,
    /// A list of names with integers.
    NextScenes,
}

impl Shape {
    /// Whether it is the shape of a group's items.
    pub fn is_items(self) -> bool
        ensures { result ≡ is_items_shape self }
    {
        matches!(self, Shape::Items)
    }
}

/// The shapes of the parameters of actions.
#[derive(Clone, Copy, PartialEq, Eq)]
pub enum Need {
    Bool,
    Int,
    Octets,
    Ref,
    /// Octets, or the name of a content file.
    Content,
    /// The data of an event: a truth value or an integer.
    Data,
    /// A type of events.
    Event,
    /// The reference of a variable of this kind, which receives an answer.
    Receiver(Kind),
    /// A value with its kind in front.
    Typed,
    /// A list of values with their kinds in front.
    Arguments,
}

impl Class {
    /// The shape of the attribute's value where objects of the class are written with it.
    pub fn shape(self, attribute: Attribute) -> Shape
        ensures { result ≡ shape_of self attribute }
    {
        match attribute {
            Attribute::OnStartUp | Attribute::OnCloseDown | Attribute::LinkEffect => Shape::Effect,
            Attribute::Items => Shape::Items,
            Attribute::InputEventReg
            | Attribute::CHook
            | Attribute::OrigGcPriority
            | Attribute::StdVersion => Shape::Int,
            Attribute::SceneCs => Shape::Screen,
            Attribute::InitiallyActive
            | Attribute::Shared
            | Attribute::TextWrapping
            | Attribute::WrapAround
            | Attribute::MultipleSelection => Shape::Bool,
            Attribute::EventSource => Shape::Ref,
            Attribute::EventType => Shape::Event,
            Attribute::EventData => Shape::Data,
            Attribute::OrigValue => self.value_shape(),
            Attribute::OrigBoxSize => Shape::Size,
            Attribute::OrigPosition => Shape::Pair,
            Attribute::OrigLineWidth => Shape::Natural,
            Attribute::OrigRefLineColour
            | Attribute::OrigRefFillColour
            | Attribute::TextColour
            | Attribute::BackgroundColour => Shape::Colour,
            Attribute::OrigContent => Shape::Content,
            Attribute::HJustification => Shape::Justification,
            Attribute::MaxLength => Shape::Length,
            Attribute::OrigLabel
            | Attribute::Name
            | Attribute::OrigFont
            | Attribute::FontAttributes
            | Attribute::ObjectInfo
            | Attribute::StdId => Shape::Octets,
            Attribute::MovementTable => Shape::MovementTable,
            Attribute::TokenGroupItems => self.items_shape(),
            Attribute::Positions => Shape::Positions,
            Attribute::NextScenes => Shape::NextScenes,
        }
    }

    /// The shape of the value of a variable of the class.
    fn value_shape(self) -> Shape
        ensures { result ≡ value_shape self }
    {
        match self {
            Class::BooleanVar => Shape::Bool,
            Class::OStringVar => Shape::Octets,
            Class::ObjectRefVar => Shape::Ref,
            Class::ContentRefVar => Shape::ContentRef,
            _ => Shape::Int,
        }
    }

    /// The shape of the members of a token group or a list group.
    fn items_shape(self) -> Shape
        ensures { result ≡ shape_of self Attribute.TokenGroupItems }
    {
        match self {
            Class::ListGroup => Shape::ListItems,
            _ => Shape::Members,
        }
    }
}
