//! `Name`: what a keyword or a word of the notation means, by the tables.
ghost use Rattle.std.specs.Prelude.{◌≡◌};
ghost use Rattle.mh_misread.specs.Names.{word_of, keyword_named, word_named, mark_named, truth_named};

use mh_base::{EventType, Kind};
use mh_group::{ActionName, Attribute, Class, Justification};

/// What a keyword or a word means.
#[derive(Clone, Copy)]
pub enum Name {
    Class(Class),
    Attribute(Attribute),
    Action(ActionName),
    /// The keyword in front of a value of this kind.
    Kind(Kind),
    /// The keyword in front of the name of a content file.
    ContentRef,
    /// The keyword in front of the reference of a variable that holds the value.
    IndirectRef,
    Event(EventType),
    Justification(Justification),
    Truth(bool),
}

impl Name {
    /// How it is written, without a colon.
    #[tactic(auto, unfolding(crate::specs::Names::word_of))]
    pub(crate) fn word(self) -> &'static [u8]
        ensures { result.now ≡ word_of self }
    {
        match self {
            Name::Class(class) => class.word(),
            Name::Attribute(attribute) => attribute.word(),
            Name::Action(action) => action.word(),
            Name::Kind(kind) => mh_group::kind_word(kind),
            Name::ContentRef => b"ContentRef",
            Name::IndirectRef => b"IndirectRef",
            Name::Event(event) => mh_group::event_word(event),
            Name::Justification(justification) => justification.word(),
            Name::Truth(true) => b"true",
            Name::Truth(false) => b"false",
        }
    }
}

/// What the keyword of this name means, with no colon in front.
#[tactic(auto, unfolding(crate::specs::Names::keyword_named))]
pub(crate) fn keyword_named(word: &[u8]) -> Option<Name>
    ensures { result ≡ keyword_named word.now }
{
    if let Some(class) = Class::of_word(word) {
        return Some(Name::Class(class));
    }
    if let Some(attribute) = Attribute::of_word(word) {
        return Some(Name::Attribute(attribute));
    }
    if let Some(action) = ActionName::of_word(word) {
        return Some(Name::Action(action));
    }
    if let Some(kind) = mh_group::kind_of_word(word) {
        return Some(Name::Kind(kind));
    }
    mark_named(word)
}

/// What a keyword means that stands in no table.
#[tactic(auto, unfolding(crate::specs::Names::mark_named))]
fn mark_named(word: &[u8]) -> Option<Name>
    ensures { result ≡ mark_named word.now }
{
    if word == b"ContentRef".as_slice() {
        return Some(Name::ContentRef);
    }
    if word == b"IndirectRef".as_slice() {
        return Some(Name::IndirectRef);
    }
    None
}

/// What a word means that is no keyword.
#[tactic(auto, unfolding(crate::specs::Names::word_named))]
pub(crate) fn word_named(word: &[u8]) -> Option<Name>
    ensures { result ≡ word_named word.now }
{
    if let Some(event) = mh_group::event_of_word(word) {
        return Some(Name::Event(event));
    }
    if let Some(justification) = Justification::of_word(word) {
        return Some(Name::Justification(justification));
    }
    truth_named(word)
}

#[tactic(auto, unfolding(crate::specs::Names::truth_named))]
fn truth_named(word: &[u8]) -> Option<Name>
    ensures { result ≡ truth_named word.now }
{
    if word == b"true".as_slice() {
        return Some(Name::Truth(true));
    }
    if word == b"false".as_slice() {
        return Some(Name::Truth(false));
    }
    None
}
