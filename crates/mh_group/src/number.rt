//! `Number`: a number that a notation can write.
ghost use Rattle.std.specs.Prelude.{◌≡◌, ◌<◌, ◌^◌, ◌↔◌, IsSome, IfSome};

use std::marker::Model;

/// The largest number that both notations can write.
pub const LARGEST_NUMBER: u32 = 2147483647;

/// The number of an object in its group, from 0 to 2,147,483,647. A contract sees the number.
#[derive(Clone, Copy, PartialEq, Eq)]
pub struct Number {
    value: u32,
}

impl Model for Number {
    ghost use Rattle.std.specs.Prelude.{ℕ, ◌<◌, ◌^◌};

    ghost Value = { ℕ };

    ghost view = { λ n. n.value };

    ghost invariant = { λ n. n.value < 2 ^ 31 };

    ghost inverse = { λ n. record { value = n } };
}

impl Number {
    pub fn new(value: u32) -> Option<Number>
        ensures small { IsSome result ↔ (value < 2 ^ 31) }
        ensures same { IfSome result (λ number. number ≡ value) }
    {
        if value <= LARGEST_NUMBER {
            Some(Number { value })
        } else {
            None
        }
    }

    pub fn get(self) -> u32
        ensures same { result ≡ self }
        ensures small { self < 2 ^ 31 }
    {
        self.value
    }
}
