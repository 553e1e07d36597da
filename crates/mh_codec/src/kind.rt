//! What an element is by its tag. What the tags of the notation's own stand for is left to `TagTable`.
ghost use Rattle.std.specs.Prelude.{◌≡◌};
ghost use Rattle.mh_codec.specs.Tags.{kind_of, universal};

use mh_der::{Tag, TagClass};

/// The number of the attribute that holds a group's items.
pub(crate) const ITEMS: u32 = 3;

/// What an element is by its tag.
#[derive(Clone, Copy)]
pub(crate) enum Kind {
    Boolean,
    Integer,
    Octets,
    Sequence,
    /// One of the notation's own around elements, with its number.
    Own(u16),
    /// One of the notation's own that is primitive, with its number.
    Primitive(u16),
    Other,
}

/// What an element with this tag is.
#[tactic(auto, unfolding(crate::specs::Tags::kind_of))]
pub(crate) fn kind_of(tag: Tag) -> Kind
    ensures { result ≡ kind_of tag }
{
    match (tag.class, tag.is_constructed) {
        (TagClass::Universal, is_constructed) => universal(is_constructed, tag.number),
        (TagClass::Context, true) => Kind::Own(tag.number),
        (TagClass::Context, false) => Kind::Primitive(tag.number),
        _ => Kind::Other,
    }
}

fn universal(is_constructed: bool, number: u16) -> Kind
    ensures { result ≡ universal is_constructed number }
{
    match (is_constructed, number) {
        (false, 1) => Kind::Boolean,
        (false, 2) => Kind::Integer,
        (false, 4) => Kind::Octets,
        (true, 16) => Kind::Sequence,
        _ => Kind::Other,
    }
}
