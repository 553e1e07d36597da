//! The table of parameters: what an action is written with.
ghost use Rattle.std.specs.Prelude.{◌≡◌};
ghost use Rattle.mh_group.specs.Table.{needs_of, optional_of};

use crate::{ActionName, Need};
use mh_base::Kind;

impl ActionName {
    /// The parameters that the action is written with.
    pub fn needs(self) -> &'static [Need]
        ensures { result.now ≡ needs_of self }
    {
        match self {
            ActionName::Run
            | ActionName::Stop
            | ActionName::Preload
            | ActionName::Unload
            | ActionName::Launch
            | ActionName::Quit
            | ActionName::LockScreen
            | ActionName::UnlockScreen
            | ActionName::TransitionTo
            | ActionName::Activate
            | ActionName::Deactivate
            | ActionName::BringToFront
            | ActionName::SendToBack
            | ActionName::Clear
            | ActionName::Select
            | ActionName::Deselect => &[],
            ActionName::GetAvailabilityStatus
            | ActionName::GetRunningStatus
            | ActionName::GetInteractionStatus
            | ActionName::GetHighlightStatus => &[Need::Receiver(Kind::Bool)],
            ActionName::SendEvent => &[Need::Ref, Need::Event, Need::Data],
            ActionName::SetTimer => &[Need::Int, Need::Int, Need::Bool],
            ActionName::SetInputRegister
            | ActionName::Add
            | ActionName::Subtract
            | ActionName::Multiply
            | ActionName::Divide
            | ActionName::Modulo
            | ActionName::SetLineWidth
            | ActionName::SetEntryPoint
            | ActionName::Move
            | ActionName::MoveTo
            | ActionName::CallActionSlot
            | ActionName::ScrollItems
            | ActionName::SetFirstItem
            | ActionName::SelectItem
            | ActionName::DeselectItem
            | ActionName::ToggleItem => &[Need::Int],
            ActionName::SetVariable => &[Need::Typed],
            ActionName::TestVariable => &[Need::Int, Need::Typed],
            ActionName::Append
            | ActionName::SetFillColour
            | ActionName::SetLineColour
            | ActionName::SetTextColour
            | ActionName::SetLabel => &[Need::Octets],
            ActionName::Call | ActionName::Fork => &[Need::Receiver(Kind::Bool), Need::Arguments],
            ActionName::SetPosition | ActionName::SetBoxSize => &[Need::Int, Need::Int],
            ActionName::GetPosition | ActionName::GetBoxSize => &[
                Need::Receiver(Kind::Int),
                Need::Receiver(Kind::Int),
            ],
            ActionName::PutBefore | ActionName::PutBehind | ActionName::DelItem => &[Need::Ref],
            ActionName::DrawLine | ActionName::DrawRectangle => &[
                Need::Int,
                Need::Int,
                Need::Int,
                Need::Int,
            ],
            ActionName::SetData => &[Need::Content],
            ActionName::GetTextData | ActionName::GetLabel => &[Need::Receiver(Kind::Octets)],
            ActionName::SetInteractionStatus
            | ActionName::SetHighlightStatus
            | ActionName::SetOverwriteMode => &[Need::Bool],
            ActionName::GetEntryPoint
            | ActionName::GetTokenPosition
            | ActionName::GetFirstItem
            | ActionName::GetListSize => &[Need::Receiver(Kind::Int)],
            ActionName::AddItem => &[Need::Int, Need::Ref],
            ActionName::GetItemStatus => &[Need::Int, Need::Receiver(Kind::Bool)],
            ActionName::GetListItem | ActionName::GetCellItem => &[
                Need::Int,
                Need::Receiver(Kind::Object),
            ],
        }
    }

    /// How many of its parameters may be missing at the end.
    pub fn optional(self) -> usize
        ensures { result ≡ optional_of self }
    {
        match self {
            ActionName::SendEvent => 1,
            ActionName::SetTimer => 2,
            _ => 0,
        }
    }
}
