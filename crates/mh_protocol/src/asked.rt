//! What an editor says: what stands in its messages, by a path of names.
ghost use Rattle.std.specs.Prelude.{◌≡◌, option_and_then, option_map};
ghost use Rattle.serde_json.specs.Find.{as_bool, as_number, as_str, as_u64, pointer};
ghost use Rattle.serde_json.specs.View.{view};
ghost use Rattle.mh_protocol.specs.Asked as spec;

use crate::edit::Range;
use crate::position::Position;
use serde_json::Value;

/// The text at the end of the path.
pub fn text_at<'a>(message: &'a Value, path: &str) -> Option<&'a str>
    ensures { option_map (λ s. s.now) result ≡ spec.text_at path.now (view message.entry.now) }
{
    message.pointer(path).and_then(Value::as_str)
}

/// Whether `true` stands at the end of the path.
pub fn is_set(message: &Value, path: &str) -> bool
    ensures { result ≡ spec.is_set path.now (view message.now) }
{
    match message.pointer(path).and_then(Value::as_bool) {
        Some(is_set) => is_set,
        None => false,
    }
}

/// The number at the end of the path.
pub fn number_at(message: &Value, path: &str) -> Option<usize>
    ensures { result ≡ spec.number_at path.now (view message.now) }
{
    match message.pointer(path).and_then(Value::as_u64) {
        Some(number) => Some(number as usize),
        None => None,
    }
}

/// The place that is written.
#[tactic(auto, unfolding(crate::specs::Asked::position_of))]
pub fn position_of(value: &Value) -> Option<Position>
    ensures { result ≡ spec.position_of (view value.now) }
{
    let Some(line) = number_at(value, "/line") else {
        return None;
    };
    match number_at(value, "/character") {
        Some(character) => Some(Position { line, character }),
        None => None,
    }
}

/// The place at the end of the path.
pub fn place_at(message: &Value, path: &str) -> Option<Position>
    ensures { result ≡ option_and_then spec.position_of (pointer path.now (view message.now)) }
{
    match message.pointer(path) {
        Some(value) => position_of(value),
        None => None,
    }
}

/// The range that is written.
#[tactic(auto, unfolding(crate::specs::Asked::range_of))]
pub fn range_of(value: &Value) -> Option<Range>
    ensures { result ≡ spec.range_of (view value.now) }
{
    let Some(start) = place_at(value, "/start") else {
        return None;
    };
    match place_at(value, "/end") {
        Some(end) => Some(Range { start, end }),
        None => None,
    }
}
