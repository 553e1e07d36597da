//! What each action does, in a sentence.
use mh_group::ActionName;

/// What the action makes of its target.
pub(crate) fn action_rule(action: ActionName) -> &'static [u8] {
    match action {
        ActionName::Run => b"makes it available and runs it",
        ActionName::Stop => {
            b"stops it; it stays available and keeps its place on the display stack"
        }
        ActionName::Preload => b"makes it available without running it",
        ActionName::Unload => b"stops it and makes it available no longer",
        ActionName::GetAvailabilityStatus => b"tells the variable whether it is available",
        ActionName::GetRunningStatus => b"tells the variable whether it runs",
        ActionName::SendEvent => b"puts an event of the source, with the data if any is written",
        ActionName::SetTimer => {
            b"sets a timer of the group, so many milliseconds from now, or with true from when the group was entered; without a time, or with one below zero, it is cancelled"
        }
        ActionName::Launch => {
            b"leaves scene and application, and enters another application; nothing if a transition has begun"
        }
        ActionName::Quit => b"leaves scene and application, and ends",
        ActionName::LockScreen => b"keeps the picture as it is until as many unlocks came",
        ActionName::UnlockScreen => b"takes one lock off the picture",
        ActionName::TransitionTo => {
            b"leaves the scene and enters this one; all other work is thrown off, and nothing happens if a transition has begun"
        }
        ActionName::SetInputRegister => b"sets which keys the scene hears",
        ActionName::Activate => b"runs the link, so that it hears its event",
        ActionName::Deactivate => b"stops the link",
        ActionName::SetVariable => b"gives it a value, converted where numbers meet octets",
        ActionName::TestVariable => {
            b"compares it: 1 equal, 2 not equal, and of numbers 3 less, 4 less or equal, 5 greater, 6 greater or equal; the answer comes as TestEvent of the variable"
        }
        ActionName::Add => b"adds a number",
        ActionName::Subtract => b"takes a number away",
        ActionName::Multiply => b"multiplies by a number",
        ActionName::Divide => b"divides by a number, towards zero; by zero it changes nothing",
        ActionName::Modulo => {
            b"leaves the remainder, with the sign of what is divided; by zero it changes nothing"
        }
        ActionName::Append => b"puts octets behind its own",
        ActionName::Call => b"calls the program; the variable is told whether it went well",
        ActionName::Fork => {
            b"calls the program, and puts AsyncStopped behind it; the variable is told whether it went well"
        }
        ActionName::SetPosition => b"moves its box there",
        ActionName::GetPosition => b"tells the variables where its box stands",
        ActionName::SetBoxSize => b"gives its box this size; the corner stays",
        ActionName::GetBoxSize => b"tells the variables how wide and how high its box is",
        ActionName::BringToFront => b"takes it to the top of the display stack",
        ActionName::SendToBack => b"takes it to the bottom of the display stack",
        ActionName::PutBefore => b"takes it just above another visible",
        ActionName::PutBehind => b"takes it just below another visible",
        ActionName::SetFillColour => b"sets the colour of its fill",
        ActionName::SetLineColour => b"sets the colour of its lines",
        ActionName::SetLineWidth => b"sets the width of its lines",
        ActionName::Clear => b"takes all drawings away",
        ActionName::DrawLine => {
            b"draws a line from one point to another, counted from the corner of its box"
        }
        ActionName::DrawRectangle => {
            b"draws a rectangle from one point to another, counted from the corner of its box"
        }
        ActionName::SetData => b"replaces its content; of a file it is shown once that has come",
        ActionName::GetTextData => b"tells the variable the text that is loaded",
        ActionName::SetTextColour => b"sets the colour of its characters",
        ActionName::SetInteractionStatus => b"lets it take the keys, or ends that",
        ActionName::GetInteractionStatus => b"tells the variable whether it takes the keys",
        ActionName::SetHighlightStatus => {
            b"highlights it or not; a change puts HighlightOn or HighlightOff"
        }
        ActionName::GetHighlightStatus => b"tells the variable whether it is highlighted",
        ActionName::SetEntryPoint => b"puts the entry point behind so many octets",
        ActionName::GetEntryPoint => {
            b"tells the variable how many octets stand before the entry point"
        }
        ActionName::SetOverwriteMode => b"says whether what is typed replaces what stands there",
        ActionName::Select => b"selects it; a change puts IsSelected",
        ActionName::Deselect => b"deselects it; a change puts IsDeselected",
        ActionName::SetLabel => b"gives it a label",
        ActionName::GetLabel => b"tells the variable its label",
        ActionName::Move => b"moves the token where that row of the movement table leads",
        ActionName::MoveTo => b"moves the token to that position",
        ActionName::GetTokenPosition => b"tells the variable where the token is",
        ActionName::CallActionSlot => {
            b"does the actions of that slot of the member that has the token"
        }
        ActionName::AddItem => b"puts an item into the list at that place",
        ActionName::DelItem => b"takes an item out of the list",
        ActionName::ScrollItems => b"scrolls the list by so many items",
        ActionName::SetFirstItem => b"makes that item the first that is shown",
        ActionName::GetFirstItem => b"tells the variable which item is the first that is shown",
        ActionName::SelectItem => b"selects that item",
        ActionName::DeselectItem => b"deselects that item",
        ActionName::ToggleItem => b"selects that item, or deselects it",
        ActionName::GetItemStatus => b"tells the variable whether that item is selected",
        ActionName::GetListItem => b"tells the variable which object that item is",
        ActionName::GetListSize => b"tells the variable how many items there are",
        ActionName::GetCellItem => b"tells the variable which object that cell shows",
    }
}
