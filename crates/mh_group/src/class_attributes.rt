//! The table of attributes: which of them objects of a class may be written with, and which they have to
//! be written with.
ghost use Rattle.std.specs.Prelude.{◌≡◌};
ghost use Rattle.mh_group.specs.Table.{takes, required_of};

use crate::{Attribute, Class};

impl Class {
    /// Whether objects of the class may be written with the attribute.
    pub fn takes(self, attribute: Attribute) -> bool
        ensures { result ≡ takes self attribute }
    {
        match attribute {
            Attribute::OnStartUp | Attribute::OnCloseDown | Attribute::Items => self.is_group(),
            Attribute::InputEventReg | Attribute::SceneCs => matches!(self, Class::Scene),
            Attribute::InitiallyActive | Attribute::Shared => !self.is_group(),
            Attribute::EventSource
            | Attribute::EventType
            | Attribute::EventData
            | Attribute::LinkEffect => matches!(self, Class::Link),
            Attribute::OrigValue => self.is_variable(),
            Attribute::OrigBoxSize | Attribute::OrigPosition => self.is_visible(),
            Attribute::OrigLineWidth
            | Attribute::OrigRefLineColour
            | Attribute::OrigRefFillColour => self.is_line_art(),
            Attribute::OrigContent => self.has_content(),
            Attribute::TextColour
            | Attribute::BackgroundColour
            | Attribute::HJustification
            | Attribute::TextWrapping => self.shows_text(),
            Attribute::MaxLength => matches!(self, Class::EntryField),
            Attribute::OrigLabel => matches!(self, Class::PushButton),
            Attribute::MovementTable | Attribute::TokenGroupItems => self.is_token_manager(),
            Attribute::Positions | Attribute::WrapAround | Attribute::MultipleSelection => matches!(
                self,
                Class::ListGroup
            ),
            Attribute::Name => matches!(self, Class::ResidentPrg),
            Attribute::CHook
            | Attribute::OrigFont
            | Attribute::FontAttributes
            | Attribute::OrigGcPriority
            | Attribute::ObjectInfo
            | Attribute::StdId
            | Attribute::StdVersion
            | Attribute::NextScenes => true,
        }
    }

    /// The attributes with which objects of the class have to be written.
    pub fn required(self) -> &'static [Attribute]
        ensures { result.now ≡ required_of self }
    {
        match self {
            Class::Application | Class::Scene | Class::TokenGroup | Class::Stream => &[],
            Class::Link => &[
                Attribute::EventSource,
                Attribute::EventType,
                Attribute::LinkEffect,
            ],
            Class::BooleanVar
            | Class::IntegerVar
            | Class::OStringVar
            | Class::ObjectRefVar
            | Class::ContentRefVar => &[Attribute::OrigValue],
            Class::Rectangle
            | Class::Text
            | Class::DynamicLineArt
            | Class::EntryField
            | Class::PushButton => &[Attribute::OrigBoxSize],
            Class::ListGroup => &[Attribute::Positions],
            Class::ResidentPrg => &[Attribute::Name],
        }
    }
}
