//! `Through`: a variable through which an action goes, as its text names it.
use std::marker::Model;

/// A variable through which an action goes.
#[derive(Drop)]
pub struct Through<'a> {
    /// The name of its group, without its marks. None where the text leaves it to the group itself.
    pub name: Option<&'a [u8]>,
    pub number: u32,
}

impl<'a> Model for Through<'a> {
    ghost use Rattle.std.specs.Option.{option_copied};
    ghost use Rattle.mh_text.specs.Landmarks.{Through};

    ghost Value = { Through };

    ghost view = { λ t. record { name = option_copied t.name; number = t.number } };
}
