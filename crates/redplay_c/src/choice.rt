//! `Choice`: what a caller chooses beside the files.
use std::marker::Model;

/// What is chosen beside the files.
#[derive(Drop)]
pub struct Choice<'a> {
    /// The path of the application to start with.
    pub start: &'a [u8],
    /// The paths of the scenes that come late, a path a line.
    pub late: &'a [u8],
    /// The modified Julian day.
    pub day: u32,
    /// Whether a service is played whatever the verifier would say of it.
    pub lenient: bool,
}

impl<'a> Model for Choice<'a> {
    ghost use Rattle.redplay_c.specs.Files.{Choice};

    ghost Value = { Choice };

    ghost view = { λ c.
        record {
          start = c.start.now;
          late = c.late.now;
          day = c.day;
          lenient = c.lenient;
        } };
}
