//! What puts an effect to work.
//!
//! Promise: it is told by the effect's number, and a link waits for the event.
ghost use Rattle.std.specs.Prelude.{◌≡◌, true, IfOk};
ghost use Rattle.std.specs.Option.{option_copied};
ghost use Rattle.mh_layers.specs.declared.arrows.arrow.By.TheVariants as by_lem;
ghost use Rattle.mh_laws.specs.Costs.{link_effect};
ghost use Rattle.mh_layers.specs.Arrows.{is_waited_for, number_by};
ghost use Rattle.mh_layers.specs.Listening.{names_event};

use crate::arrows::arrow::By;
use crate::cycle::effect_site::copied_reference;
use crate::listening::named_data::{data_of, source_of};
use crate::numbered::values::copied;
use mh_base::{EventType, ObjRef, Value};
use mh_group::Attribute;
use mh_model::held::as_event;
use mh_model::{Event, Fixed};
use std::alloc::AllocError;

fn copied_if(value: Option<&Value>) -> Result<Option<Value>, AllocError>
    ensures { IfOk result (λ copy. copy ≡ option_copied value.entry) }
{
    match value {
        None => Ok(None),
        Some(value) => Ok(Some(copied(value)?)),
    }
}

fn event_from(source: &ObjRef, kind: EventType, value: Option<&Value>) -> Result<Event, AllocError>
    ensures { IfOk result (λ event. event ≡ record { source = source.now; kind = kind; «data» = option_copied value.entry }) }
{
    let data = copied_if(value)?;
    let source = copied_reference(source)?;
    Ok(Event { source, kind, data })
}

/// The event for which the link waits.
#[tactic(auto, using(crate::proofs::ArrowLemmas::waited))]
fn event_of(part: &Fixed) -> Result<Event, AllocError>
    requires { names_event part.now ≡ true }
    ensures { IfOk result (λ event. is_waited_for (by_lem.Event event) part.now ≡ true) }
{
    let (Some(source), Some(kind)) = (
        source_of(part),
        as_event(part.properties.get(Attribute::EventType)),
    ) else {
        unreachable!();
    };
    event_from(source, kind, data_of(part))
}

/// What puts the effect with this number to work.
pub(crate) fn by_of(part: &Fixed, number: usize) -> Result<By, AllocError>
    requires { number ≡ link_effect → names_event part.now ≡ true }
    ensures number { IfOk result (λ by. number_by by ≡ number) }
    ensures waited { IfOk result (λ by. is_waited_for by part.now ≡ true) }
{
    match number {
        0 => Ok(By::Entered),
        1 => Ok(By::Left),
        2 => Ok(By::Event(event_of(part)?)),
        _ => Ok(By::Slot(number - 3)),
    }
}
