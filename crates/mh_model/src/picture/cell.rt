//! `Cell`: one of the 60 by 36 cells of the picture.

/// A cell of the picture: a character, its colour, and the colour behind it. Colours are red, green and
/// blue in a number of 24 bits.
#[derive(Clone, Copy, PartialEq, Eq)]
pub struct Cell {
    pub scalar: u32,
    pub fore: u32,
    pub back: u32,
}
