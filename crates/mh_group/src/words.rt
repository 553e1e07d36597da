//! The words of the types of events and of the kinds of values.
ghost use Rattle.std.specs.Prelude.{◌≡◌};
ghost use Rattle.std.specs.List.{find};
ghost use Rattle.std.specs.Str.{bytes_eq};
ghost use Rattle.mh_base.specs.Kinds.{kinds};
ghost use Rattle.mh_group.specs.Words.{event_word, events, kind_word};

use mh_base::{EventType, KINDS, Kind};

/// All types of events, in the order of their numbers.
pub(crate) static EVENTS: [EventType; 25] = [
    EventType::IsAvailable,
    EventType::ContentAvailable,
    EventType::IsDeleted,
    EventType::IsRunning,
    EventType::IsStopped,
    EventType::UserInput,
    EventType::TimerFired,
    EventType::AsyncStopped,
    EventType::InteractionCompleted,
    EventType::TokenMovedFrom,
    EventType::TokenMovedTo,
    EventType::StreamEvent,
    EventType::HighlightOn,
    EventType::HighlightOff,
    EventType::IsSelected,
    EventType::IsDeselected,
    EventType::TestEvent,
    EventType::FirstItemPresented,
    EventType::LastItemPresented,
    EventType::HeadItems,
    EventType::TailItems,
    EventType::ItemSelected,
    EventType::ItemDeselected,
    EventType::EntryFieldFull,
    EventType::EngineEvent,
];

/// The type of events that this word names, if there is one.
pub fn event_of_word(word: &[u8]) -> Option<EventType>
    ensures { result ≡ find (λ x. bytes_eq (event_word x) word.now) events }
{
    EVENTS.iter().copied().find(|x| event_word(*x) == word)
}

/// The word of a type of events in the textual notation.
#[tactic(auto, unfolding(crate::specs::Words::event_word))]
pub fn event_word(event: EventType) -> &'static [u8]
    ensures { result.now ≡ event_word event }
{
    match event {
        EventType::IsAvailable => b"IsAvailable",
        EventType::ContentAvailable => b"ContentAvailable",
        EventType::IsDeleted => b"IsDeleted",
        EventType::IsRunning => b"IsRunning",
        EventType::IsStopped => b"IsStopped",
        EventType::UserInput => b"UserInput",
        EventType::TimerFired => b"TimerFired",
        EventType::AsyncStopped => b"AsyncStopped",
        EventType::InteractionCompleted => b"InteractionCompleted",
        EventType::TokenMovedFrom => b"TokenMovedFrom",
        EventType::TokenMovedTo => b"TokenMovedTo",
        EventType::StreamEvent => b"StreamEvent",
        EventType::HighlightOn => b"HighlightOn",
        EventType::HighlightOff => b"HighlightOff",
        EventType::IsSelected => b"IsSelected",
        EventType::IsDeselected => b"IsDeselected",
        EventType::TestEvent => b"TestEvent",
        EventType::FirstItemPresented => b"FirstItemPresented",
        EventType::LastItemPresented => b"LastItemPresented",
        EventType::HeadItems => b"HeadItems",
        EventType::TailItems => b"TailItems",
        EventType::ItemSelected => b"ItemSelected",
        EventType::ItemDeselected => b"ItemDeselected",
        EventType::EntryFieldFull => b"EntryFieldFull",
        EventType::EngineEvent => b"EngineEvent",
    }
}

/// The kind of values that this keyword stands in front of, if there is one.
pub fn kind_of_word(name: &[u8]) -> Option<Kind>
    ensures { result ≡ find (λ x. bytes_eq (kind_word x) name.now) kinds }
{
    KINDS.iter().copied().find(|x| kind_word(*x) == name)
}

/// The keyword in front of a value of the kind in the textual notation.
#[tactic(auto, unfolding(crate::specs::Words::kind_word))]
pub fn kind_word(kind: Kind) -> &'static [u8]
    ensures { result.now ≡ kind_word kind }
{
    match kind {
        Kind::Bool => b"GBoolean",
        Kind::Int => b"GInteger",
        Kind::Octets => b"GOctetString",
        Kind::Object => b"GObjectRef",
        Kind::Content => b"GContentRef",
    }
}
