//! `Colour`.

/// A colour in direct form (ISO/IEC 13522-5, AbsoluteColour): three parts of light and a transparency.
/// Transparency 255 paints nothing; every other one paints opaquely.
#[derive(Clone, Copy, PartialEq, Eq)]
pub struct Colour {
    pub red: u8,
    pub green: u8,
    pub blue: u8,
    pub transparency: u8,
}
