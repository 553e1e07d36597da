//! Keywords: what the name of one means. There are four tables of them, with no name in two places; so one
//! keyword of all is tried first, which a few letters of the name choose, and the tables are asked where its
//! name is another.
ghost use Rattle.std.specs.Prelude.{◌≡◌, Some, true};
ghost use Rattle.std.specs.Str.{bytes_eq};
ghost use Rattle.mh_text.specs.Signs.{name_sign, mark_sign};

use crate::sign::Sign;
use mh_base::{Kind, are_same_bytes};
use mh_group::{ActionName, Attribute, Class};

const CONTENT_REF: &[u8] = b"ContentRef";

const INDIRECT_REF: &[u8] = b"IndirectRef";

/// All keywords, each where `PLACES` says.
static KEYWORDS: [Sign; 132] = [
    Sign::Action(ActionName::Add),
    Sign::Action(ActionName::Run),
    Sign::Action(ActionName::Call),
    Sign::Action(ActionName::Fork),
    Sign::Class(Class::Link),
    Sign::Action(ActionName::Move),
    Sign::Attribute(Attribute::Name),
    Sign::Action(ActionName::Quit),
    Sign::Action(ActionName::Stop),
    Sign::Class(Class::Text),
    Sign::Attribute(Attribute::CHook),
    Sign::Action(ActionName::Clear),
    Sign::Attribute(Attribute::Items),
    Sign::Class(Class::Scene),
    Sign::Attribute(Attribute::StdId),
    Sign::Action(ActionName::Append),
    Sign::Action(ActionName::Divide),
    Sign::Action(ActionName::Launch),
    Sign::Action(ActionName::Modulo),
    Sign::Action(ActionName::MoveTo),
    Sign::Action(ActionName::Select),
    Sign::Attribute(Attribute::Shared),
    Sign::Class(Class::Stream),
    Sign::Action(ActionName::Unload),
    Sign::Action(ActionName::AddItem),
    Sign::Action(ActionName::DelItem),
    Sign::Action(ActionName::Preload),
    Sign::Attribute(Attribute::SceneCs),
    Sign::Action(ActionName::SetData),
    Sign::Action(ActionName::Activate),
    Sign::Action(ActionName::Deselect),
    Sign::Action(ActionName::DrawLine),
    Sign::Kind(Kind::Bool),
    Sign::Kind(Kind::Int),
    Sign::Action(ActionName::GetLabel),
    Sign::Action(ActionName::Multiply),
    Sign::Attribute(Attribute::OrigFont),
    Sign::Action(ActionName::SetLabel),
    Sign::Action(ActionName::SetTimer),
    Sign::Action(ActionName::Subtract),
    Sign::Attribute(Attribute::EventData),
    Sign::Attribute(Attribute::EventType),
    Sign::Class(Class::ListGroup),
    Sign::Attribute(Attribute::MaxLength),
    Sign::Attribute(Attribute::OnStartUp),
    Sign::Attribute(Attribute::OrigLabel),
    Sign::Attribute(Attribute::OrigValue),
    Sign::Attribute(Attribute::Positions),
    Sign::Action(ActionName::PutBefore),
    Sign::Action(ActionName::PutBehind),
    Sign::Class(Class::Rectangle),
    Sign::Action(ActionName::SendEvent),
    Sign::Class(Class::BooleanVar),
    Sign::ContentRef,
    Sign::Action(ActionName::Deactivate),
    Sign::Class(Class::EntryField),
    Sign::Kind(Kind::Object),
    Sign::Action(ActionName::GetBoxSize),
    Sign::Class(Class::IntegerVar),
    Sign::Attribute(Attribute::LinkEffect),
    Sign::Action(ActionName::LockScreen),
    Sign::Attribute(Attribute::NextScenes),
    Sign::Class(Class::OStringVar),
    Sign::Attribute(Attribute::ObjectInfo),
    Sign::Class(Class::PushButton),
    Sign::Action(ActionName::SelectItem),
    Sign::Action(ActionName::SendToBack),
    Sign::Action(ActionName::SetBoxSize),
    Sign::Attribute(Attribute::StdVersion),
    Sign::Attribute(Attribute::TextColour),
    Sign::Action(ActionName::ToggleItem),
    Sign::Class(Class::TokenGroup),
    Sign::Attribute(Attribute::WrapAround),
    Sign::Class(Class::Application),
    Sign::Attribute(Attribute::EventSource),
    Sign::Kind(Kind::Content),
    Sign::Action(ActionName::GetCellItem),
    Sign::Action(ActionName::GetListItem),
    Sign::Action(ActionName::GetListSize),
    Sign::Action(ActionName::GetPosition),
    Sign::Action(ActionName::GetTextData),
    Sign::IndirectRef,
    Sign::Attribute(Attribute::OnCloseDown),
    Sign::Attribute(Attribute::OrigBoxSize),
    Sign::Attribute(Attribute::OrigContent),
    Sign::Class(Class::ResidentPrg),
    Sign::Action(ActionName::ScrollItems),
    Sign::Action(ActionName::SetPosition),
    Sign::Action(ActionName::SetVariable),
    Sign::Action(ActionName::BringToFront),
    Sign::Action(ActionName::DeselectItem),
    Sign::Kind(Kind::Octets),
    Sign::Action(ActionName::GetFirstItem),
    Sign::Class(Class::ObjectRefVar),
    Sign::Attribute(Attribute::OrigPosition),
    Sign::Action(ActionName::SetFirstItem),
    Sign::Action(ActionName::SetLineWidth),
    Sign::Action(ActionName::TestVariable),
    Sign::Attribute(Attribute::TextWrapping),
    Sign::Action(ActionName::TransitionTo),
    Sign::Action(ActionName::UnlockScreen),
    Sign::Class(Class::ContentRefVar),
    Sign::Action(ActionName::DrawRectangle),
    Sign::Action(ActionName::GetEntryPoint),
    Sign::Action(ActionName::GetItemStatus),
    Sign::Attribute(Attribute::InputEventReg),
    Sign::Attribute(Attribute::MovementTable),
    Sign::Attribute(Attribute::OrigLineWidth),
    Sign::Action(ActionName::SetEntryPoint),
    Sign::Action(ActionName::SetFillColour),
    Sign::Action(ActionName::SetLineColour),
    Sign::Action(ActionName::SetTextColour),
    Sign::Action(ActionName::CallActionSlot),
    Sign::Class(Class::DynamicLineArt),
    Sign::Attribute(Attribute::FontAttributes),
    Sign::Attribute(Attribute::HJustification),
    Sign::Attribute(Attribute::OrigGcPriority),
    Sign::Attribute(Attribute::InitiallyActive),
    Sign::Attribute(Attribute::TokenGroupItems),
    Sign::Attribute(Attribute::BackgroundColour),
    Sign::Action(ActionName::GetRunningStatus),
    Sign::Action(ActionName::GetTokenPosition),
    Sign::Action(ActionName::SetInputRegister),
    Sign::Action(ActionName::SetOverwriteMode),
    Sign::Attribute(Attribute::MultipleSelection),
    Sign::Attribute(Attribute::OrigRefFillColour),
    Sign::Attribute(Attribute::OrigRefLineColour),
    Sign::Action(ActionName::GetHighlightStatus),
    Sign::Action(ActionName::SetHighlightStatus),
    Sign::Action(ActionName::GetInteractionStatus),
    Sign::Action(ActionName::SetInteractionStatus),
    Sign::Action(ActionName::GetAvailabilityStatus),
];

/// Where in `KEYWORDS` the one stands whose name leads to each place here, by `place_of`; 255, which is behind
/// the last, where none does.
static PLACES: [u8; 512] = [
    255, 255, 255, 255, 255, 255, 11, 255, 255, 113, 255, 255, 87, 57, 46, 255, 72, 255, 255, 255,
    40, 7, 255, 255, 97, 89, 255, 255, 255, 71, 255, 90, 255, 255, 105, 255, 56, 255, 255, 255, 93,
    255, 63, 255, 255, 99, 255, 255, 255, 255, 255, 107, 255, 101, 255, 255, 36, 131, 255, 58, 23,
    255, 255, 255, 73, 255, 255, 255, 117, 255, 255, 255, 255, 255, 255, 84, 255, 9, 255, 255, 128,
    0, 66, 2, 255, 255, 255, 81, 255, 255, 255, 255, 255, 122, 255, 255, 111, 255, 255, 255, 255,
    255, 255, 255, 255, 255, 255, 255, 255, 255, 255, 255, 255, 255, 255, 10, 255, 255, 255, 75,
    85, 255, 69, 119, 255, 255, 255, 255, 255, 255, 108, 38, 25, 255, 4, 255, 255, 255, 88, 255,
    255, 255, 96, 255, 130, 255, 255, 255, 255, 51, 48, 255, 255, 255, 255, 255, 255, 255, 120,
    255, 255, 255, 255, 255, 255, 22, 255, 28, 255, 255, 255, 12, 255, 255, 255, 255, 255, 123,
    255, 255, 47, 255, 255, 255, 60, 255, 126, 255, 255, 255, 255, 255, 255, 255, 255, 67, 255,
    255, 255, 255, 255, 255, 255, 255, 255, 255, 76, 78, 255, 255, 50, 255, 62, 255, 255, 255, 255,
    255, 255, 255, 255, 32, 59, 255, 255, 255, 42, 92, 255, 255, 255, 3, 109, 255, 255, 255, 255,
    255, 255, 255, 255, 255, 255, 255, 255, 255, 34, 255, 255, 255, 255, 255, 255, 255, 255, 255,
    255, 255, 255, 255, 255, 255, 255, 255, 255, 255, 74, 17, 39, 255, 112, 44, 255, 255, 255, 255,
    80, 20, 255, 255, 255, 255, 255, 255, 255, 255, 255, 255, 255, 102, 255, 255, 255, 255, 255,
    110, 255, 255, 255, 100, 255, 255, 255, 255, 255, 255, 255, 18, 255, 255, 255, 255, 255, 255,
    45, 255, 86, 255, 35, 255, 255, 255, 255, 255, 255, 91, 255, 49, 255, 255, 255, 77, 255, 255,
    94, 255, 255, 255, 41, 30, 255, 68, 255, 79, 255, 255, 255, 255, 24, 255, 255, 255, 255, 255,
    255, 61, 255, 255, 19, 255, 255, 255, 255, 255, 124, 255, 255, 255, 255, 255, 255, 255, 5, 255,
    255, 255, 255, 27, 255, 255, 255, 54, 255, 255, 255, 1, 255, 83, 255, 255, 255, 255, 255, 255,
    15, 255, 255, 255, 255, 255, 255, 43, 52, 26, 255, 255, 255, 255, 255, 95, 127, 255, 255, 255,
    255, 255, 255, 255, 255, 255, 255, 255, 255, 104, 255, 106, 14, 37, 255, 121, 255, 255, 255,
    255, 255, 255, 255, 255, 255, 33, 255, 255, 255, 255, 255, 255, 255, 255, 255, 255, 255, 16,
    255, 21, 115, 65, 255, 255, 255, 98, 103, 6, 255, 255, 82, 255, 255, 255, 255, 13, 8, 255, 255,
    55, 255, 129, 255, 255, 31, 255, 64, 255, 255, 255, 255, 255, 255, 53, 255, 255, 116, 255, 114,
    255, 255, 255, 70, 255, 255, 255, 255, 255, 255, 255, 255, 255, 255, 29, 255, 255, 125, 118,
];

/// What makes places of letters, so that no two keywords have one place. It was found by trying odd numbers.
const SPREAD: u32 = 126855103;

/// What the name of a keyword means.
pub(crate) fn name_sign(name: &[u8]) -> Option<Sign>
    ensures { result ≡ name_sign name.now }
{
    match likely_sign(name) {
        Some(sign) if is_named(sign, name) => Some(sign),
        _ => searched(name),
    }
}

/// The keyword that has this name if any has. What is found counts only where it has the name, so that a
/// wrong place costs time alone.
fn likely_sign(name: &[u8]) -> Option<Sign> {
    let keyword = PLACES.get(place_of(name)?)?;
    KEYWORDS.get(usize::from(*keyword)).copied()
}

/// The place in `PLACES` to which a name leads, by its length and three of its letters, which no two keywords
/// have in common: the first, the one before the middle and the last.
fn place_of(name: &[u8]) -> Option<usize> {
    let first = *name.first()?;
    let middle = *name.get((name.len() / 2).saturating_sub(1))?;
    let last = *name.last()?;
    let length = u8::try_from(name.len()).ok()?;
    let letters = u32::from_le_bytes([first, middle, last, length]);
    Some((letters.wrapping_mul(SPREAD) >> 23) as usize)
}

/// Whether this is what the keyword of this name means.
#[tactic(auto, using(crate::proofs::KeywordLemmas::class_named, crate::proofs::KeywordLemmas::attribute_named, crate::proofs::KeywordLemmas::action_named, crate::proofs::KeywordLemmas::kind_named, crate::proofs::KeywordLemmas::content_ref_named, crate::proofs::KeywordLemmas::indirect_ref_named))]
fn is_named(sign: Sign, name: &[u8]) -> bool
    ensures { result ≡ true → name_sign name.now ≡ Some sign }
{
    match sign {
        Sign::Class(class) => are_same_names(class.word(), name),
        Sign::Attribute(attribute) => are_same_names(attribute.word(), name),
        Sign::Action(action) => are_same_names(action.word(), name),
        Sign::Kind(kind) => are_same_names(mh_group::kind_word(kind), name),
        Sign::ContentRef => are_same_names(CONTENT_REF, name),
        Sign::IndirectRef => are_same_names(INDIRECT_REF, name),
        _ => false,
    }
}

/// Whether the names are the same. Most keywords are longer than eight bytes, so these are compared at once.
fn are_same_names(one: &[u8], other: &[u8]) -> bool
    ensures { result ≡ bytes_eq one.now other.now }
{
    match (one, other) {
        ([a, b, c, d, e, f, g, h, one @ ..], [i, j, k, l, m, n, o, p, other @ ..]) => {
            are_same_eight(
                [*a, *b, *c, *d, *e, *f, *g, *h],
                [*i, *j, *k, *l, *m, *n, *o, *p],
            ) && are_same_names(one, other)
        }
        _ => are_same_bytes(one, other),
    }
}

/// Whether eight bytes are the same.
fn are_same_eight(one: [u8; 8], other: [u8; 8]) -> bool
    ensures { result ≡ bytes_eq one other }
{
    u64::from_le_bytes(one) == u64::from_le_bytes(other)
}

/// What the name of a keyword means, table by table.
#[inline(never)]
#[tactic(auto, unfolding(crate::specs::Signs::name_sign))]
fn searched(name: &[u8]) -> Option<Sign>
    ensures { result ≡ name_sign name.now }
{
    if let Some(class) = Class::of_word(name) {
        return Some(Sign::Class(class));
    }
    if let Some(attribute) = Attribute::of_word(name) {
        return Some(Sign::Attribute(attribute));
    }
    if let Some(action) = ActionName::of_word(name) {
        return Some(Sign::Action(action));
    }
    if let Some(kind) = mh_group::kind_of_word(name) {
        return Some(Sign::Kind(kind));
    }
    mark_sign(name)
}

/// What a keyword means that no table has.
#[tactic(auto, unfolding(crate::specs::Signs::mark_sign))]
fn mark_sign(name: &[u8]) -> Option<Sign>
    ensures { result ≡ mark_sign name.now }
{
    if name == b"ContentRef".as_slice() {
        return Some(Sign::ContentRef);
    }
    if name == b"IndirectRef".as_slice() {
        return Some(Sign::IndirectRef);
    }
    None
}
