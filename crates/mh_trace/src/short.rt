//! Values as notes on changes show them: octets that are many are cut off.
ghost use Rattle.std.specs.Prelude.{◌≡◌, ◌++◌, OnOk, take};
ghost use Rattle.std.specs.Option.{option_copied};
ghost use Rattle.mh_trace.specs.Changes as spec;

use crate::words::{put_integer, put_octets, put_value};
use mh_base::{Colour, Octets, Value};
use mh_model::Held;
use mh_told::text::Text;
use std::alloc::{AllocError, Global};

/// The most octets that are shown of a value.
const MOST_SHOWN: usize = 40;

/// Puts a value.
pub fn put_short(alloc: Global, text: &mut Text, value: &Value) -> Result<(), AllocError>
    ensures { OnOk result (text.new ≡ text.old ++ spec.short_value value.now) }
{
    match value {
        Value::Octets(octets) => put_short_octets(text, octets.as_slice()),
        _ => put_value(alloc, text, value),
    }
}

fn put_short_octets(text: &mut Text, octets: &[u8]) -> Result<(), AllocError>
    ensures { OnOk result (text.new ≡ text.old ++ spec.short_octets octets.now) }
{
    if octets.len() <= MOST_SHOWN {
        put_octets(text, octets)
    } else {
        put_cut(text, octets)
    }
}

#[tactic(auto, unfolding(crate::specs::Changes::cut_text))]
fn put_cut(text: &mut Text, octets: &[u8]) -> Result<(), AllocError>
    ensures { OnOk result (text.new ≡ text.old ++ spec.cut_text octets.now) }
{
    put_octets(text, front_of(octets, MOST_SHOWN))?;
    text.put(b".. of ")?;
    text.put_number(octets.len() as u64)
}

/// The first so many octets.
fn front_of(octets: &[u8], size: usize) -> &[u8]
    ensures { result.now ≡ take size octets.now }
{
    octets.get(..size).unwrap_or(octets)
}

/// Puts what a variable holds, if it holds something.
pub fn put_given(alloc: Global, text: &mut Text, value: Option<&Value>) -> Result<(), AllocError>
    ensures { OnOk result (text.new ≡ text.old ++ spec.given_text (option_copied value.entry)) }
{
    match value {
        Some(value) => put_short(alloc, text, value),
        None => text.put(b"nothing"),
    }
}

/// Puts a text that is loaded, if one is.
pub fn put_loaded_text(text: &mut Text, loaded: &Option<Octets>) -> Result<(), AllocError>
    ensures { OnOk result (text.new ≡ text.old ++ spec.loaded_text loaded.now) }
{
    match loaded {
        Some(octets) => put_short_octets(text, octets.as_slice()),
        None => text.put(b"nothing"),
    }
}

/// Puts what an attribute holds, if it holds something.
pub fn put_read(alloc: Global, text: &mut Text, held: Option<&Held>) -> Result<(), AllocError>
    ensures { OnOk result (text.new ≡ text.old ++ spec.read_text (option_copied held.entry)) }
{
    match held {
        Some(held) => put_held(alloc, text, held),
        None => text.put(b"nothing"),
    }
}

/// Puts what an attribute holds.
pub fn put_held(alloc: Global, text: &mut Text, held: &Held) -> Result<(), AllocError>
    ensures { OnOk result (text.new ≡ text.old ++ spec.held_text held.now) }
{
    match held {
        Held::Value(value) => put_short(alloc, text, value),
        Held::Pair(first, second) => put_pair(alloc, text, *first, *second),
        Held::Colour(colour) => put_colour(text, colour),
        _ => text.put(b"another"),
    }
}

#[tactic(auto, unfolding(crate::specs::Changes::pair_text))]
fn put_pair(alloc: Global, text: &mut Text, first: i32, second: i32) -> Result<(), AllocError>
    ensures { OnOk result (text.new ≡ text.old ++ spec.pair_text first second) }
{
    put_integer(alloc, text, first)?;
    text.put(b" ")?;
    put_integer(alloc, text, second)
}

#[tactic(auto, unfolding(crate::specs::Changes::colour_text))]
fn put_colour(text: &mut Text, colour: &Colour) -> Result<(), AllocError>
    ensures { OnOk result (text.new ≡ text.old ++ spec.colour_text colour.now) }
{
    text.put_number(u64::from(colour.red))?;
    text.put(b" ")?;
    text.put_number(u64::from(colour.green))?;
    text.put(b" ")?;
    text.put_number(u64::from(colour.blue))?;
    text.put(b" ")?;
    text.put_number(u64::from(colour.transparency))
}
