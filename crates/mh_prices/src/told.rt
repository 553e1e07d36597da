//! `Told`: what is known beforehand of an event's data.
ghost use Rattle.std.specs.Prelude.{◌≡◌};
ghost use Rattle.std.specs.Option.{option_copied};
ghost use Rattle.mh_laws.specs.Ways.{Sure, Unsure};

use mh_base::Value;
use std::marker::Model;

/// What is known of the data of an event.
#[derive(Drop)]
pub struct Told<'a> {
    pub is_sure: bool,
    /// Where it is sure: the data, if there is some.
    pub value: Option<&'a Value>,
}

impl<'a> Model for Told<'a> {
    ghost use Rattle.std.specs.Prelude.{if◌then◌else◌};
    ghost use Rattle.std.specs.Option.{option_copied};
    ghost use Rattle.mh_laws.specs.Ways.{Told as ToldValue, Sure, Unsure};

    ghost Value = { ToldValue };

    ghost view = { λ t. if t.is_sure then Sure (option_copied t.value) else Unsure };
}

impl<'a> Told<'a> {
    /// That it has this data, or none.
    pub fn sure(value: Option<&'a Value>) -> Told<'a>
        ensures { result ≡ Sure (option_copied value.entry) }
    {
        Told {
            is_sure: true,
            value,
        }
    }

    /// Nothing.
    pub fn unsure() -> Told<'a>
        ensures { result ≡ Unsure }
    {
        Told {
            is_sure: false,
            value: None,
        }
    }
}
