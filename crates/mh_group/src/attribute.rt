//! `Attribute`: the names of what a group or an ingredient is written with.
ghost use Rattle.std.specs.Prelude.{◌≡◌, ◌==◌};
ghost use Rattle.std.specs.List.{find};
ghost use Rattle.std.specs.Str.{bytes_eq};
ghost use Rattle.mh_group.specs.Words.{attribute_word, attributes};
ghost use Rattle.mh_group.specs.Table.{attribute_number};

/// The attributes of groups and ingredients, in the order of their numbers.
#[derive(Clone, Copy, PartialEq, Eq)]
pub enum Attribute {
    OnStartUp,
    OnCloseDown,
    Items,
    InputEventReg,
    SceneCs,
    InitiallyActive,
    Shared,
    EventSource,
    EventType,
    EventData,
    LinkEffect,
    OrigValue,
    OrigBoxSize,
    OrigPosition,
    OrigLineWidth,
    OrigRefLineColour,
    OrigRefFillColour,
    OrigContent,
    TextColour,
    BackgroundColour,
    HJustification,
    TextWrapping,
    MaxLength,
    OrigLabel,
    MovementTable,
    TokenGroupItems,
    Positions,
    WrapAround,
    MultipleSelection,
    Name,
    CHook,
    OrigFont,
    FontAttributes,
    OrigGcPriority,
    ObjectInfo,
    StdId,
    StdVersion,
    NextScenes,
}

/// All attributes.
pub const ALL: [Attribute; 38] = [
    Attribute::OnStartUp,
    Attribute::OnCloseDown,
    Attribute::Items,
    Attribute::InputEventReg,
    Attribute::SceneCs,
    Attribute::InitiallyActive,
    Attribute::Shared,
    Attribute::EventSource,
    Attribute::EventType,
    Attribute::EventData,
    Attribute::LinkEffect,
    Attribute::OrigValue,
    Attribute::OrigBoxSize,
    Attribute::OrigPosition,
    Attribute::OrigLineWidth,
    Attribute::OrigRefLineColour,
    Attribute::OrigRefFillColour,
    Attribute::OrigContent,
    Attribute::TextColour,
    Attribute::BackgroundColour,
    Attribute::HJustification,
    Attribute::TextWrapping,
    Attribute::MaxLength,
    Attribute::OrigLabel,
    Attribute::MovementTable,
    Attribute::TokenGroupItems,
    Attribute::Positions,
    Attribute::WrapAround,
    Attribute::MultipleSelection,
    Attribute::Name,
    Attribute::CHook,
    Attribute::OrigFont,
    Attribute::FontAttributes,
    Attribute::OrigGcPriority,
    Attribute::ObjectInfo,
    Attribute::StdId,
    Attribute::StdVersion,
    Attribute::NextScenes,
];

impl Attribute {
    /// The one that this word names, if there is one.
    pub fn of_word(word: &[u8]) -> Option<Attribute>
        ensures { result ≡ find (λ x. bytes_eq (attribute_word x) word.now) attributes }
    {
        ALL.iter().copied().find(|x| x.word() == word)
    }

    /// The one with this number, if there is one.
    pub fn of_number(number: u32) -> Option<Attribute>
        ensures { result ≡ find (λ x. attribute_number x == number) attributes }
    {
        ALL.iter().copied().find(|x| x.number() == number)
    }

    /// Its word in the textual notation, without the colon.
    #[tactic(auto, unfolding(crate::specs::Words::attribute_word))]
    pub fn word(self) -> &'static [u8]
        ensures { result.now ≡ attribute_word self }
    {
        match self {
            Attribute::OnStartUp => b"OnStartUp",
            Attribute::OnCloseDown => b"OnCloseDown",
            Attribute::Items => b"Items",
            Attribute::InputEventReg => b"InputEventReg",
            Attribute::SceneCs => b"SceneCS",
            Attribute::InitiallyActive => b"InitiallyActive",
            Attribute::Shared => b"Shared",
            Attribute::EventSource => b"EventSource",
            Attribute::EventType => b"EventType",
            Attribute::EventData => b"EventData",
            Attribute::LinkEffect => b"LinkEffect",
            Attribute::OrigValue => b"OrigValue",
            Attribute::OrigBoxSize => b"OrigBoxSize",
            Attribute::OrigPosition => b"OrigPosition",
            Attribute::OrigLineWidth => b"OrigLineWidth",
            Attribute::OrigRefLineColour => b"OrigRefLineColour",
            Attribute::OrigRefFillColour => b"OrigRefFillColour",
            Attribute::OrigContent => b"OrigContent",
            Attribute::TextColour => b"TextColour",
            Attribute::BackgroundColour => b"BackgroundColour",
            Attribute::HJustification => b"HJustification",
            Attribute::TextWrapping => b"TextWrapping",
            Attribute::MaxLength => b"MaxLength",
            Attribute::OrigLabel => b"OrigLabel",
            Attribute::MovementTable => b"MovementTable",
            Attribute::TokenGroupItems => b"TokenGroupItems",
            Attribute::Positions => b"Positions",
            Attribute::WrapAround => b"WrapAround",
            Attribute::MultipleSelection => b"MultipleSelection",
            Attribute::Name => b"Name",
            Attribute::CHook => b"CHook",
            Attribute::OrigFont => b"OrigFont",
            Attribute::FontAttributes => b"FontAttributes",
            Attribute::OrigGcPriority => b"OrigGCPriority",
            Attribute::ObjectInfo => b"ObjectInfo",
            Attribute::StdId => b"StdID",
            Attribute::StdVersion => b"StdVersion",
            Attribute::NextScenes => b"NextScenes",
        }
    }

    /// Its number in the tables of the profile.
    pub fn number(self) -> u32
        ensures { result ≡ attribute_number self }
    {
        match self {
            Attribute::OnStartUp => 1,
            Attribute::OnCloseDown => 2,
            Attribute::Items => 3,
            Attribute::InputEventReg => 4,
            Attribute::SceneCs => 5,
            Attribute::InitiallyActive => 6,
            Attribute::Shared => 7,
            Attribute::EventSource => 8,
            Attribute::EventType => 9,
            Attribute::EventData => 10,
            Attribute::LinkEffect => 11,
            Attribute::OrigValue => 12,
            Attribute::OrigBoxSize => 13,
            Attribute::OrigPosition => 14,
            Attribute::OrigLineWidth => 15,
            Attribute::OrigRefLineColour => 16,
            Attribute::OrigRefFillColour => 17,
            Attribute::OrigContent => 18,
            Attribute::TextColour => 19,
            Attribute::BackgroundColour => 20,
            Attribute::HJustification => 21,
            Attribute::TextWrapping => 22,
            Attribute::MaxLength => 23,
            Attribute::OrigLabel => 24,
            Attribute::MovementTable => 25,
            Attribute::TokenGroupItems => 26,
            Attribute::Positions => 27,
            Attribute::WrapAround => 28,
            Attribute::MultipleSelection => 29,
            Attribute::Name => 30,
            Attribute::CHook => 31,
            Attribute::OrigFont => 32,
            Attribute::FontAttributes => 33,
            Attribute::OrigGcPriority => 34,
            Attribute::ObjectInfo => 35,
            Attribute::StdId => 36,
            Attribute::StdVersion => 37,
            Attribute::NextScenes => 38,
        }
    }
}
