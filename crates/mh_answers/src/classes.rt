//! What the objects of each class are, in a sentence.
use mh_group::Class;

/// What an object of the class is.
pub(crate) fn class_rule(class: Class) -> &'static [u8] {
    match class {
        Class::Application => b"a group that stays while its scenes come and go",
        Class::Scene => b"a group that is shown until the next one",
        Class::Link => b"does its effect whenever it hears its event",
        Class::BooleanVar => b"a variable that holds true or false",
        Class::IntegerVar => b"a variable that holds a number of 32 bits",
        Class::OStringVar => b"a variable that holds octets",
        Class::ObjectRefVar => b"a variable that holds the reference of an object",
        Class::ContentRefVar => b"a variable that holds the name of a content file",
        Class::Rectangle => b"a visible: a filled box with a border",
        Class::Text => b"a visible: a text in a box",
        Class::DynamicLineArt => b"a visible: lines and rectangles that actions draw",
        Class::ListGroup => b"shows some of its items at its positions, and scrolls",
        Class::TokenGroup => b"hands a token from one of its members to another",
        Class::EntryField => b"a visible: a text that the viewer types",
        Class::PushButton => b"a visible: a label that may be highlighted and selected",
        Class::ResidentPrg => b"a program of the receiver",
        Class::Stream => b"a stream that is broadcast",
    }
}
