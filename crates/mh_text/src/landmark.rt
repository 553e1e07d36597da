//! `Landmark`: where a class, the number of an ingredient or a name stands in a text.

pub(crate) mod landmarking;

use std::marker::Model;

/// What stands at a landmark.
#[derive(Clone, Copy)]
pub enum Sight<'a> {
    /// The name of a class.
    Class,
    /// The number of an ingredient.
    Number(u32),
    /// A name that has to lead somewhere, without its marks.
    Name(&'a [u8]),
}

/// Where something stands in a text.
#[derive(Drop)]
pub struct Landmark<'a> {
    pub sight: Sight<'a>,
    /// The offset of its token, and how long that is, in bytes.
    pub start: usize,
    pub length: usize,
}

impl<'a> Model for Landmark<'a> {
    ghost use Rattle.mh_text.specs.Landmarks.{Landmark, sight_of};

    ghost Value = { Landmark };

    ghost view = { λ l. record { sight = sight_of l.sight; start = l.start; length = l.length } };
}
