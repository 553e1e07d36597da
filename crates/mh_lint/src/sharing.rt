//! Items of an application that end with the first transition.
//!
//! Promise: each function answers what the definition of its name in `specs/Notes` says.
ghost use Rattle.std.specs.Prelude.{◌≡◌};
ghost use Rattle.std.specs.Option.{option_copied};
ghost use Rattle.mh_lint.specs.Notes as spec;

use crate::uses::Uses;
use mh_base::{EventType, GroupName, Value};
use mh_group::{Attribute, Class};
use mh_model::Fixed;
use mh_model::held::{as_event, as_value};
use mh_model::parts::{is_initially_active, is_shared};

fn is_start_of(group: &GroupName, kind: Option<EventType>, source: Option<&Value>) -> bool
    ensures { result ≡ spec.is_start_of group.now kind (option_copied source.entry) }
{
    match (kind, source) {
        (Some(EventType::IsRunning), Some(Value::Object(at))) => {
            at.number == 0 && at.group == *group
        }
        _ => false,
    }
}

/// Whether it hears that its own application runs, as a link does.
fn hears_start(part: &Fixed) -> bool
    ensures { result ≡ spec.hears_start part.now }
{
    is_start_of(
        &part.key.group,
        as_event(part.properties.get(Attribute::EventType)),
        as_value(part.properties.get(Attribute::EventSource)),
    )
}

fn can_end(class: Class) -> bool
    ensures { result ≡ spec.can_end class }
{
    matches!(class, Class::Link) || class.is_visible()
}

/// Whether it runs from the start, ends with the first transition that there is, and is run by nothing again.
pub(crate) fn is_lost(uses: &Uses, part: &Fixed) -> bool
    ensures { result ≡ spec.is_lost uses.now part.now }
{
    uses.has_transition
        && can_end(part.class)
        && is_initially_active(part)
        && !is_shared(part)
        && !uses.run.may_be(&part.key)
        && !hears_start(part)
}
