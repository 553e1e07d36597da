//! Whether a part of an object is as it was.
ghost use Rattle.std.specs.Prelude.{◌≡◌};
ghost use Rattle.std.specs.Option.{option_copied};
ghost use Rattle.mh_trace.specs.Changes as spec;

use mh_base::{Colour, Octets, Value};
use mh_model::kinds::same_value;
use mh_model::parts::same_ref;
use mh_model::{Entry, Held};

pub fn is_same_given(before: Option<&Value>, behind: Option<&Value>) -> bool
    ensures { result ≡ spec.same_given (option_copied before.entry) (option_copied behind.entry) }
{
    match (before, behind) {
        (None, None) => true,
        (Some(before), Some(behind)) => same_value(before, behind),
        _ => false,
    }
}

pub fn is_same_loaded(before: &Option<Octets>, behind: &Option<Octets>) -> bool
    ensures { result ≡ spec.same_loaded before.now behind.now }
{
    match (before, behind) {
        (None, None) => true,
        (Some(before), Some(behind)) => *before == *behind,
        _ => false,
    }
}

pub fn is_same_list(before: &[Entry], behind: &[Entry]) -> bool
    ensures { result ≡ spec.same_entries before.now behind.now }
{
    let mut before = before;
    let mut behind = behind;
    while let Some((entry, others)) = before.split_first() {
        let Some((other, rest)) = behind.split_first() else {
            return false;
        };
        if !is_same_entry(entry, other) {
            return false;
        }
        before = others;
        behind = rest;
    }
    behind.is_empty()
}

fn is_same_entry(entry: &Entry, other: &Entry) -> bool
    ensures { result ≡ spec.same_entry entry.now other.now }
{
    entry.selected == other.selected && same_ref(&entry.object, &other.object)
}

pub fn is_same_read(before: Option<&Held>, behind: &Held) -> bool
    ensures { result ≡ spec.same_read (option_copied before.entry) behind.now }
{
    match before {
        Some(before) => is_same_held(before, behind),
        None => false,
    }
}

fn is_same_held(before: &Held, behind: &Held) -> bool
    ensures { result ≡ spec.same_held before.now behind.now }
{
    match (before, behind) {
        (Held::Value(before), Held::Value(behind)) => same_value(before, behind),
        (Held::Pair(x, y), Held::Pair(u, v)) => *x == *u && *y == *v,
        (Held::Colour(before), Held::Colour(behind)) => is_same_colour(before, behind),
        (Held::Value(_) | Held::Pair(_, _) | Held::Colour(_), _) => false,
        (_, Held::Value(_) | Held::Pair(_, _) | Held::Colour(_)) => false,
        _ => true,
    }
}

fn is_same_colour(before: &Colour, behind: &Colour) -> bool
    ensures { result ≡ spec.same_colour before.now behind.now }
{
    before.red == behind.red
        && before.green == behind.green
        && before.blue == behind.blue
        && before.transparency == behind.transparency
}
