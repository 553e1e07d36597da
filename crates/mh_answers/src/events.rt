//! What an event of each type tells, in a sentence.
use mh_base::EventType;

/// What an event of this type tells.
pub(crate) fn event_rule(event: EventType) -> &'static [u8] {
    match event {
        EventType::IsAvailable => b"an object became available",
        EventType::ContentAvailable => b"the content of an object was loaded",
        EventType::IsDeleted => b"an object is available no longer",
        EventType::IsRunning => b"an object runs, or a group was entered",
        EventType::IsStopped => b"an object stopped",
        EventType::UserInput => b"a key was pressed; its data is the number of the key",
        EventType::TimerFired => {
            b"a timer of the group is due; its data is the number of the timer"
        }
        EventType::AsyncStopped => b"a program that was forked has ended",
        EventType::InteractionCompleted => b"a field or a button takes the keys no longer",
        EventType::TokenMovedFrom => b"the token left a position; its data is the position",
        EventType::TokenMovedTo => b"the token came to a position; its data is the position",
        EventType::StreamEvent => b"a stream told something; its data is a number",
        EventType::HighlightOn => b"it is highlighted",
        EventType::HighlightOff => b"it is highlighted no longer",
        EventType::IsSelected => b"a button was selected",
        EventType::IsDeselected => b"a button was deselected",
        EventType::TestEvent => b"a variable was tested; its data is the answer",
        EventType::FirstItemPresented => b"the first item of a list came into sight, or left it",
        EventType::LastItemPresented => b"the last item of a list came into sight, or left it",
        EventType::HeadItems => b"how many items stand before those that are shown changed",
        EventType::TailItems => b"how many items stand behind those that are shown changed",
        EventType::ItemSelected => b"an item was selected; its data is its number",
        EventType::ItemDeselected => b"an item was deselected; its data is its number",
        EventType::EntryFieldFull => b"a field has as many octets as it may have",
        EventType::EngineEvent => b"the receiver told something; its data is a number",
    }
}
