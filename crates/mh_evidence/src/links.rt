//! Links: for which events they wait.
//!
//! Promise: each function answers what the definition that its clause names says.
ghost use Rattle.std.specs.Prelude.{◌≡◌, ◌&&◌, ◌==◌};
ghost use Rattle.std.specs.Option.{option_copied, option_eq};
ghost use Rattle.mh_model.specs.Items.{hears_data, hears_source, hears_type};
ghost use Rattle.mh_model.specs.Property.{held, as_event, as_value};
ghost use Rattle.mh_model.specs.Variables.{same_value};
ghost use Rattle.mh_layers.specs.Arrows.{is_waited_for};
ghost use Rattle.mh_layers.specs.CostNodes.{data_of, waits_for};
ghost use Rattle.mh_evidence.specs.Putting.{could_hear, ref_of};

use mh_base::{EventType, GroupName, Value};
use mh_group::{Attribute, Class};
use mh_layers::By;
use mh_model::Fixed;
use mh_model::held::{as_event, as_value};
use mh_model::kinds::same_value;
use mh_prices::Told;

fn data_of(link: &Fixed) -> Option<&Value>
    ensures { option_copied result ≡ data_of link.now }
{
    as_value(link.properties.get(Attribute::EventData))
}

fn hears_source(link: &Fixed, group: &GroupName, number: u32) -> bool
    ensures { result ≡ hears_source (as_value (held Attribute.EventSource link.now.properties)) (ref_of group.now number) }
{
    match as_value(link.properties.get(Attribute::EventSource)) {
        Some(Value::Object(source)) => source.number == number && source.group == *group,
        _ => false,
    }
}

fn hears_type(link: &Fixed, kind: EventType) -> bool
    ensures { result ≡ hears_type (as_event (held Attribute.EventType link.now.properties)) kind }
{
    match as_event(link.properties.get(Attribute::EventType)) {
        None => false,
        Some(heard) => heard.number() == kind.number(),
    }
}

/// Whether the link waits for such events of the object of the group that has the number.
fn waits_for(link: &Fixed, group: &GroupName, number: u32, kind: EventType) -> bool
    ensures { result ≡ waits_for (ref_of group.now number) kind link.now }
{
    matches!(link.class, Class::Link) && hears_source(link, group, number) && hears_type(link, kind)
}

fn hears_data(link: &Fixed, given: Option<&Value>) -> bool
    ensures { result ≡ hears_data (data_of link.now) (option_copied given.entry) }
{
    match (data_of(link), given) {
        (None, _) => true,
        (Some(named), Some(given)) => same_value(named, given),
        _ => false,
    }
}

/// Whether the link can hear such an event, of whose data this is known.
pub(crate) fn could_hear(
    link: &Fixed,
    group: &GroupName,
    number: u32,
    kind: EventType,
    told: &Told<'_>,
) -> bool
    ensures { result ≡ could_hear (ref_of group.now number) kind told.now link.now }
{
    waits_for(link, group, number, kind) && (!told.is_sure || hears_data(link, told.value))
}

fn has_data(link: &Fixed, given: &Option<Value>) -> bool
    ensures { result ≡ option_eq same_value (data_of link.now) given.now }
{
    match (data_of(link), given) {
        (None, None) => true,
        (Some(named), Some(given)) => same_value(named, given),
        _ => false,
    }
}

/// Whether the object is a link that waits for just this event, or another effect is put to work.
pub(crate) fn is_waited_for(by: &By, part: &Fixed) -> bool
    ensures { result ≡ is_waited_for by.now part.now }
{
    match by {
        By::Event(event) => {
            waits_for(part, &event.source.group, event.source.number, event.kind)
                && has_data(part, &event.data)
        }
        _ => true,
    }
}
