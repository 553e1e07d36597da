//! Elementary actions and effects, as a group writes them.
ghost use Rattle.std.specs.Prelude.{◌≡◌};
ghost use Rattle.mh_group.specs.Words.{kind_of};

use crate::{ActionName, Generic, Ref, WrittenName};
use mh_base::{EventType, Kind, Octets, Seq};

/// A value with its kind in front.
#[derive(Drop)]
pub enum Typed {
    Bool(Generic<bool>),
    Int(Generic<i32>),
    Octets(Generic<Octets>),
    Ref(Generic<Ref>),
    ContentRef(Generic<WrittenName>),
}

impl Typed {
    /// The kind that stands in front.
    pub fn kind(&self) -> Kind
        ensures { result ≡ kind_of self.now }
    {
        match self {
            Typed::Bool(_) => Kind::Bool,
            Typed::Int(_) => Kind::Int,
            Typed::Octets(_) => Kind::Octets,
            Typed::Ref(_) => Kind::Object,
            Typed::ContentRef(_) => Kind::Content,
        }
    }
}

/// The content of a visible (ISO/IEC 13522-5, Content): in the group's file, or in a file of its own.
#[derive(Drop)]
pub enum Content {
    Included(Octets),
    Referenced(WrittenName),
}

/// The data of an event that an action emits.
#[derive(Drop)]
pub enum EventData {
    Bool(bool),
    Int(i32),
}

/// A parameter of an elementary action.
#[derive(Drop)]
pub enum Parameter {
    Bool(Generic<bool>),
    Int(Generic<i32>),
    Octets(Generic<Octets>),
    Ref(Generic<Ref>),
    Content(Generic<Content>),
    Data(Generic<EventData>),
    Event(EventType),
    /// The variable that receives an answer.
    Receiver(Ref),
    Typed(Typed),
    /// What a program is called with.
    Arguments(Seq<Typed>),
}

/// An elementary action (ISO/IEC 13522-5, ElementaryAction): its name, its target and its parameters.
#[derive(Drop)]
pub struct Action {
    pub name: ActionName,
    pub target: Generic<Ref>,
    pub parameters: Seq<Parameter>,
}

/// What is done in order when an event comes (ISO/IEC 13522-5, the Action class).
pub type Effect = Seq<Action>;
