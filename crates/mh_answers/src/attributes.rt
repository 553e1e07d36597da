//! What each attribute says, in a sentence.
use mh_group::Attribute;

/// What the attribute says.
pub(crate) fn attribute_rule(attribute: Attribute) -> &'static [u8] {
    match attribute {
        Attribute::OnStartUp => b"what is done when the group is entered",
        Attribute::OnCloseDown => b"what is done when the group is left",
        Attribute::Items => b"the objects of the group",
        Attribute::InputEventReg => b"which keys the scene hears; 4 if not written",
        Attribute::SceneCs => b"the size of the screen, 720 576",
        Attribute::InitiallyActive => {
            b"whether it runs when the group is entered; true if not written"
        }
        Attribute::Shared => {
            b"whether it goes on when the application leads to another scene; false if not written"
        }
        Attribute::EventSource => b"the object or the group whose event the link hears",
        Attribute::EventType => b"the type of the event that the link hears",
        Attribute::EventData => {
            b"the data of the event that the link hears; if not written it hears every data"
        }
        Attribute::LinkEffect => b"what is done when the link hears its event",
        Attribute::OrigValue => b"the value that the variable has at first",
        Attribute::OrigBoxSize => b"how wide and how high its box is at first",
        Attribute::OrigPosition => b"where its box stands at first; 0 0 if not written",
        Attribute::OrigLineWidth => b"how wide its lines are at first; 1 if not written",
        Attribute::OrigRefLineColour => b"the colour of its lines at first; black if not written",
        Attribute::OrigRefFillColour => {
            b"the colour of its fill at first; transparent if not written"
        }
        Attribute::OrigContent => b"its text, or the file that has it",
        Attribute::TextColour => b"the colour of its characters; white if not written",
        Attribute::BackgroundColour => {
            b"the colour behind its characters; transparent if not written"
        }
        Attribute::HJustification => {
            b"where its lines stand: start, end or centre; start if not written"
        }
        Attribute::TextWrapping => b"whether long lines are wrapped; false if not written",
        Attribute::MaxLength => b"how many octets may be typed, from 1 to 255; 255 if not written",
        Attribute::OrigLabel => b"its label at first",
        Attribute::MovementTable => b"rows that say where the token goes from each position",
        Attribute::TokenGroupItems => b"its members; in a token group each with its slots",
        Attribute::Positions => b"where the items of the list are shown",
        Attribute::WrapAround => {
            b"whether the list goes on from its end with its beginning; false if not written"
        }
        Attribute::MultipleSelection => {
            b"whether several items may be selected; false if not written"
        }
        Attribute::Name => b"the name of the program",
        Attribute::CHook => b"only kept",
        Attribute::OrigFont => b"only kept",
        Attribute::FontAttributes => b"only kept",
        Attribute::OrigGcPriority => b"only kept",
        Attribute::ObjectInfo => b"only kept",
        Attribute::StdId => b"only kept",
        Attribute::StdVersion => b"only kept",
        Attribute::NextScenes => {
            b"scenes that may come next, each with how likely it is; only kept"
        }
    }
}
