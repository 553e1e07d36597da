//! What kind of thing an action does.
ghost use Rattle.std.specs.Prelude.{◌≡◌};
ghost use Rattle.mh_model.specs.Sort.{sort_of};

use mh_group::ActionName;

/// What kind of thing an action does. Each action has one, so that none can be forgotten.
#[derive(Clone, Copy, PartialEq, Eq)]
pub enum Sort {
    /// It changes its target, and nothing else.
    Change,
    /// It asks its target, and fills receivers with the answers.
    Ask,
    /// It puts items.
    Put,
    /// It gives its target new content.
    Load,
    /// It calls a program.
    Call,
    /// It moves its target in the display stack.
    Order,
    /// It changes a group of objects, a field or a button, places what a list shows, and puts items.
    Widget,
    /// It sets or asks who interacts.
    Interact,
    /// It is a matter of the whole machine: the configuration, timers, the lock.
    Whole,
}

/// What kind of thing the action does.
#[tactic(auto, unfolding(crate::specs::Sort::sort_of))]
pub fn sort_of(name: ActionName) -> Sort
    ensures { result ≡ sort_of name }
{
    match name {
        ActionName::SetInputRegister
        | ActionName::SetVariable
        | ActionName::Add
        | ActionName::Subtract
        | ActionName::Multiply
        | ActionName::Divide
        | ActionName::Modulo
        | ActionName::Append
        | ActionName::SetPosition
        | ActionName::SetBoxSize
        | ActionName::SetFillColour
        | ActionName::SetLineColour
        | ActionName::SetLineWidth
        | ActionName::Clear
        | ActionName::DrawLine
        | ActionName::DrawRectangle
        | ActionName::SetTextColour
        | ActionName::SetEntryPoint
        | ActionName::SetOverwriteMode
        | ActionName::SetLabel => Sort::Change,
        ActionName::GetAvailabilityStatus
        | ActionName::GetRunningStatus
        | ActionName::GetPosition
        | ActionName::GetBoxSize
        | ActionName::GetTextData
        | ActionName::GetHighlightStatus
        | ActionName::GetEntryPoint
        | ActionName::GetLabel
        | ActionName::GetTokenPosition
        | ActionName::GetFirstItem
        | ActionName::GetItemStatus
        | ActionName::GetListItem
        | ActionName::GetListSize
        | ActionName::GetCellItem => Sort::Ask,
        ActionName::BringToFront
        | ActionName::SendToBack
        | ActionName::PutBefore
        | ActionName::PutBehind => Sort::Order,
        ActionName::SetTimer
        | ActionName::Launch
        | ActionName::Quit
        | ActionName::LockScreen
        | ActionName::UnlockScreen
        | ActionName::TransitionTo => Sort::Whole,
        ActionName::Call | ActionName::Fork => Sort::Call,
        ActionName::SetData => Sort::Load,
        ActionName::Run
        | ActionName::Stop
        | ActionName::Preload
        | ActionName::Unload
        | ActionName::SendEvent
        | ActionName::Activate
        | ActionName::Deactivate
        | ActionName::TestVariable
        | ActionName::CallActionSlot => Sort::Put,
        ActionName::SetInteractionStatus | ActionName::GetInteractionStatus => Sort::Interact,
        ActionName::SetHighlightStatus
        | ActionName::Select
        | ActionName::Deselect
        | ActionName::Move
        | ActionName::MoveTo
        | ActionName::AddItem
        | ActionName::DelItem
        | ActionName::ScrollItems
        | ActionName::SetFirstItem
        | ActionName::SelectItem
        | ActionName::DeselectItem
        | ActionName::ToggleItem => Sort::Widget,
    }
}
