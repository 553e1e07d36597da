//! `EventType`: the types of events, their numbers, and which are synchronous.
ghost use Rattle.std.specs.Prelude.{◌≡◌, ◌↔◌, IfSome, IsSome, IsNone, IsTrue};
ghost use Rattle.mh_base.specs.Event.{number_of, is_sync, event_of};

/// The types of events (ISO/IEC 13522-5, EventType) that the profile has.
#[derive(Clone, Copy, PartialEq, Eq)]
pub enum EventType {
    IsAvailable,
    ContentAvailable,
    IsDeleted,
    IsRunning,
    IsStopped,
    UserInput,
    TimerFired,
    AsyncStopped,
    InteractionCompleted,
    TokenMovedFrom,
    TokenMovedTo,
    StreamEvent,
    HighlightOn,
    HighlightOff,
    IsSelected,
    IsDeselected,
    TestEvent,
    FirstItemPresented,
    LastItemPresented,
    HeadItems,
    TailItems,
    ItemSelected,
    ItemDeselected,
    EntryFieldFull,
    EngineEvent,
}

impl EventType {
    /// The event type with this number, or none where the profile has none.
    pub fn of_number(number: u32) -> Option<EventType>
        ensures { result ≡ event_of number }
    {
        Some(match number {
            1 => EventType::IsAvailable,
            2 => EventType::ContentAvailable,
            3 => EventType::IsDeleted,
            4 => EventType::IsRunning,
            5 => EventType::IsStopped,
            6 => EventType::UserInput,
            8 => EventType::TimerFired,
            9 => EventType::AsyncStopped,
            10 => EventType::InteractionCompleted,
            11 => EventType::TokenMovedFrom,
            12 => EventType::TokenMovedTo,
            13 => EventType::StreamEvent,
            17 => EventType::HighlightOn,
            18 => EventType::HighlightOff,
            21 => EventType::IsSelected,
            22 => EventType::IsDeselected,
            23 => EventType::TestEvent,
            24 => EventType::FirstItemPresented,
            25 => EventType::LastItemPresented,
            26 => EventType::HeadItems,
            27 => EventType::TailItems,
            28 => EventType::ItemSelected,
            29 => EventType::ItemDeselected,
            30 => EventType::EntryFieldFull,
            31 => EventType::EngineEvent,
            _ => return None,
        })
    }

    /// The number of the event type.
    pub fn number(self) -> u32
        ensures { result ≡ number_of self }
    {
        match self {
            EventType::IsAvailable => 1,
            EventType::ContentAvailable => 2,
            EventType::IsDeleted => 3,
            EventType::IsRunning => 4,
            EventType::IsStopped => 5,
            EventType::UserInput => 6,
            EventType::TimerFired => 8,
            EventType::AsyncStopped => 9,
            EventType::InteractionCompleted => 10,
            EventType::TokenMovedFrom => 11,
            EventType::TokenMovedTo => 12,
            EventType::StreamEvent => 13,
            EventType::HighlightOn => 17,
            EventType::HighlightOff => 18,
            EventType::IsSelected => 21,
            EventType::IsDeselected => 22,
            EventType::TestEvent => 23,
            EventType::FirstItemPresented => 24,
            EventType::LastItemPresented => 25,
            EventType::HeadItems => 26,
            EventType::TailItems => 27,
            EventType::ItemSelected => 28,
            EventType::ItemDeselected => 29,
            EventType::EntryFieldFull => 30,
            EventType::EngineEvent => 31,
        }
    }

    /// Whether an event of this type is dealt with at once, and not by way of the queue.
    pub fn is_sync(self) -> bool
        ensures { result ≡ is_sync self }
    {
        !matches!(
            self,
            EventType::ContentAvailable
                | EventType::UserInput
                | EventType::TimerFired
                | EventType::AsyncStopped
                | EventType::InteractionCompleted
                | EventType::StreamEvent
                | EventType::EntryFieldFull
                | EventType::EngineEvent
        )
    }
}
