//! The table of actions: which of them have a rule for a class, and what events they can emit there.
ghost use Rattle.std.specs.Prelude.{◌≡◌};
ghost use Rattle.mh_group.specs.Table.{admits, emits, prepare_events, run_events, may_emit};

use crate::words::EVENTS;
use crate::{ActionName, Class};
use mh_base::EventType;

impl Class {
    /// Whether the action has a rule for targets of the class.
    pub fn admits(self, action: ActionName) -> bool
        ensures { result ≡ admits self action }
    {
        match action {
            ActionName::Run | ActionName::Stop | ActionName::Preload | ActionName::Unload =>
                self.is_presentable(),
            ActionName::GetAvailabilityStatus | ActionName::GetRunningStatus => self.is_runnable(),
            ActionName::SendEvent | ActionName::SetTimer => self.is_group(),
            ActionName::Launch
            | ActionName::Quit
            | ActionName::LockScreen
            | ActionName::UnlockScreen => matches!(self, Class::Application),
            ActionName::TransitionTo | ActionName::SetInputRegister => matches!(self, Class::Scene),
            ActionName::Activate | ActionName::Deactivate => matches!(self, Class::Link),
            ActionName::SetVariable | ActionName::TestVariable => self.is_variable(),
            ActionName::Add
            | ActionName::Subtract
            | ActionName::Multiply
            | ActionName::Divide
            | ActionName::Modulo => matches!(self, Class::IntegerVar),
            ActionName::Append => matches!(self, Class::OStringVar),
            ActionName::Call | ActionName::Fork => matches!(self, Class::ResidentPrg),
            ActionName::SetPosition
            | ActionName::GetPosition
            | ActionName::SetBoxSize
            | ActionName::GetBoxSize
            | ActionName::BringToFront
            | ActionName::SendToBack
            | ActionName::PutBefore
            | ActionName::PutBehind => self.is_visible(),
            ActionName::SetFillColour | ActionName::SetLineColour | ActionName::SetLineWidth =>
                self.is_line_art(),
            ActionName::Clear | ActionName::DrawLine | ActionName::DrawRectangle => matches!(
                self,
                Class::DynamicLineArt
            ),
            ActionName::SetData | ActionName::GetTextData => self.has_content(),
            ActionName::SetTextColour => self.shows_text(),
            ActionName::SetInteractionStatus
            | ActionName::GetInteractionStatus
            | ActionName::SetHighlightStatus
            | ActionName::GetHighlightStatus => self.is_interactible(),
            ActionName::SetEntryPoint | ActionName::GetEntryPoint | ActionName::SetOverwriteMode =>
                matches!(self, Class::EntryField),
            ActionName::Select
            | ActionName::Deselect
            | ActionName::SetLabel
            | ActionName::GetLabel => matches!(self, Class::PushButton),
            ActionName::Move | ActionName::MoveTo | ActionName::GetTokenPosition =>
                self.is_token_manager(),
            ActionName::CallActionSlot => matches!(self, Class::TokenGroup),
            ActionName::AddItem
            | ActionName::DelItem
            | ActionName::ScrollItems
            | ActionName::SetFirstItem
            | ActionName::GetFirstItem
            | ActionName::SelectItem
            | ActionName::DeselectItem
            | ActionName::ToggleItem
            | ActionName::GetItemStatus
            | ActionName::GetListItem
            | ActionName::GetListSize
            | ActionName::GetCellItem => matches!(self, Class::ListGroup),
        }
    }
}

impl ActionName {
    /// The events that the action can emit where its target is of the class: what its own rule emits,
    /// and what the target emits when by that rule it becomes available, runs, stops, is dropped or is
    /// entered. None where the action has no rule for the class.
    pub fn may_emit(self, class: Class) -> &'static [EventType]
        ensures { result.now ≡ may_emit self class }
    {
        if class.admits(self) {
            self.emits(class)
        } else {
            &[]
        }
    }

    fn emits(self, class: Class) -> &'static [EventType]
        ensures { result.now ≡ emits self class }
    {
        match self {
            ActionName::Run | ActionName::Activate => run_events(class),
            ActionName::Preload => prepare_events(class),
            ActionName::Stop | ActionName::Deactivate => &[EventType::IsStopped],
            ActionName::Unload => &[EventType::IsStopped, EventType::IsDeleted],
            ActionName::SendEvent => &EVENTS,
            ActionName::Launch | ActionName::TransitionTo => &[EventType::IsRunning],
            ActionName::TestVariable => &[EventType::TestEvent],
            ActionName::Fork => &[EventType::AsyncStopped],
            ActionName::SetData => &[EventType::ContentAvailable],
            ActionName::SetInteractionStatus => &[EventType::InteractionCompleted],
            ActionName::SetHighlightStatus => &[EventType::HighlightOn, EventType::HighlightOff],
            ActionName::Select => &[EventType::IsSelected],
            ActionName::Deselect => &[EventType::IsDeselected],
            ActionName::Move | ActionName::MoveTo => {
                &[EventType::TokenMovedFrom, EventType::TokenMovedTo]
            }
            ActionName::AddItem
            | ActionName::DelItem
            | ActionName::ScrollItems
            | ActionName::SetFirstItem => &[
                EventType::FirstItemPresented,
                EventType::LastItemPresented,
                EventType::HeadItems,
                EventType::TailItems,
            ],
            ActionName::SelectItem | ActionName::ToggleItem => {
                &[EventType::ItemDeselected, EventType::ItemSelected]
            }
            ActionName::DeselectItem => &[EventType::ItemDeselected],
            _ => &[],
        }
    }
}

/// What an object of the class emits when it becomes available.
fn prepare_events(class: Class) -> &'static [EventType]
    ensures { result.now ≡ prepare_events class }
{
    if class.has_content() {
        &[EventType::IsAvailable, EventType::ContentAvailable]
    } else {
        &[EventType::IsAvailable]
    }
}

/// What an object of the class emits when it becomes available and runs.
fn run_events(class: Class) -> &'static [EventType]
    ensures { result.now ≡ run_events class }
{
    match class {
        Class::Text | Class::EntryField => &[
            EventType::IsAvailable,
            EventType::ContentAvailable,
            EventType::IsRunning,
        ],
        Class::ListGroup => &[
            EventType::IsAvailable,
            EventType::FirstItemPresented,
            EventType::LastItemPresented,
            EventType::HeadItems,
            EventType::TailItems,
            EventType::IsRunning,
        ],
        Class::TokenGroup => &[
            EventType::IsAvailable,
            EventType::IsRunning,
            EventType::TokenMovedTo,
        ],
        _ => &[EventType::IsAvailable, EventType::IsRunning],
    }
}
