//! Why something never happens.
//!
//! Promise: each function puts what the definition of its name in `specs/Telling` says.
ghost use Rattle.std.specs.Prelude.{◌≡◌, ◌++◌, OnOk};
ghost use Rattle.std.specs.Option.{option_copied};
ghost use Rattle.mh_lint.specs.Telling as spec;

use crate::parts::{is_unreached, waits_beyond};
use crate::telling::{put_data, put_of, put_source};
use crate::unheard::put_unheard;
use mh_base::{EventType, GroupName, ObjRef, Value};
use mh_flow::Equipped;
use mh_group::{Attribute, event_word};
use mh_model::held::{as_event, as_value};
use mh_model::{Config, Fixed};
use mh_told::text::Text;
use std::alloc::AllocError;

/// What a link lacks.
#[derive(Clone, Copy)]
pub(crate) enum Lack {
    /// That something emits the event for which it waits.
    Emission,
    /// That it hears the timer or the key for which it waits.
    Hearing,
}

#[tactic(auto, unfolding(crate::specs::Telling::beyond_words))]
fn put_beyond(text: &mut Text) -> Result<(), AllocError>
    ensures { OnOk result (text.new ≡ text.old ++ spec.beyond_words) }
{
    text.put(b": nothing leads to its group")
}

#[tactic(auto, unfolding(crate::specs::Telling::beyond_front))]
fn put_beyond_front(text: &mut Text) -> Result<(), AllocError>
    ensures { OnOk result (text.new ≡ text.old ++ spec.beyond_front) }
{
    text.put(b": nothing leads to the group of ")
}

/// Puts that nothing leads to the group of what the link waits for.
#[tactic(auto, unfolding(crate::specs::Telling::source_beyond_words))]
fn put_source_beyond(
    text: &mut Text,
    service: &Equipped<'_>,
    from: &GroupName,
    source: Option<&Value>,
) -> Result<(), AllocError>
    ensures { OnOk result (text.new
        ≡ text.old ++ spec.source_beyond_words service.now from.now (option_copied source.entry)) }
{
    match source {
        Some(Value::Object(source)) => {
            put_beyond_front(text)?;
            put_source(text, service, from, source)
        }
        _ => Ok(()),
    }
}

#[tactic(auto, unfolding(crate::specs::Telling::unrun_words))]
fn put_unrun(text: &mut Text) -> Result<(), AllocError>
    ensures { OnOk result (text.new ≡ text.old ++ spec.unrun_words) }
{
    text.put(b": it is not active at first, and no active action runs it")
}

/// Puts why nothing runs an object of the group.
#[tactic(auto, unfolding(crate::specs::Telling::idle_reason))]
pub(crate) fn put_idle_reason(
    text: &mut Text,
    configs: &[Config],
    group: &GroupName,
) -> Result<(), AllocError>
    ensures { OnOk result (text.new ≡ text.old ++ spec.idle_reason configs.now group.now) }
{
    if is_unreached(configs, group) {
        put_beyond(text)
    } else {
        put_unrun(text)
    }
}

#[tactic(auto, unfolding(crate::specs::Telling::no_action_words))]
fn put_no_action(text: &mut Text) -> Result<(), AllocError>
    ensures { OnOk result (text.new ≡ text.old ++ spec.no_action_words) }
{
    text.put(b": no active action emits ")
}

/// Puts that nothing emits the event.
#[tactic(auto, unfolding(crate::specs::Telling::emits_words))]
fn put_emits(
    text: &mut Text,
    service: &Equipped<'_>,
    from: &GroupName,
    kind: EventType,
    source: &ObjRef,
    value: Option<&Value>,
) -> Result<(), AllocError>
    ensures { OnOk result (text.new
        ≡ text.old ++ spec.emits_words service.now from.now kind source.now (option_copied value.entry)) }
{
    put_no_action(text)?;
    text.put(event_word(kind))?;
    put_data(text, value)?;
    put_of(text, service, from, source)
}

/// Puts what the link lacks.
#[tactic(auto, unfolding(crate::specs::Telling::lack_words))]
fn put_lack(
    text: &mut Text,
    lack: Lack,
    service: &Equipped<'_>,
    from: &GroupName,
    kind: Option<EventType>,
    source: Option<&Value>,
    value: Option<&Value>,
) -> Result<(), AllocError>
    ensures { OnOk result (text.new
        ≡ text.old ++ spec.lack_words lack service.now from.now kind (option_copied source.entry) (option_copied value.entry)) }
{
    match (kind, source) {
        (Some(kind), Some(Value::Object(source))) => match lack {
            Lack::Emission => put_emits(text, service, from, kind, source, value),
            Lack::Hearing => put_unheard(text, service, from, kind, source, value),
        },
        _ => Ok(()),
    }
}

/// Puts why the link waits in vain.
#[tactic(auto, unfolding(crate::specs::Telling::waits_words))]
fn put_waits(
    text: &mut Text,
    lack: Lack,
    service: &Equipped<'_>,
    configs: &[Config],
    link: &Fixed,
) -> Result<(), AllocError>
    ensures { OnOk result (text.new ≡ text.old ++ spec.waits_words lack service.now configs.now link.now) }
{
    let source = as_value(link.properties.get(Attribute::EventSource));
    if waits_beyond(configs, link) {
        return put_source_beyond(text, service, &link.key.group, source);
    }
    put_lack(
        text,
        lack,
        service,
        &link.key.group,
        as_event(link.properties.get(Attribute::EventType)),
        source,
        as_value(link.properties.get(Attribute::EventData)),
    )
}

#[tactic(auto, unfolding(crate::specs::Telling::link_words))]
fn put_link(
    text: &mut Text,
    lack: Lack,
    service: &Equipped<'_>,
    configs: &[Config],
    link: Option<&Fixed>,
) -> Result<(), AllocError>
    ensures { OnOk result (text.new
        ≡ text.old ++ spec.link_words lack service.now configs.now (option_copied link.entry)) }
{
    match link {
        None => Ok(()),
        Some(link) => put_waits(text, lack, service, configs, link),
    }
}

/// Puts why the link at the reference is put to work by nothing, or never hears.
#[tactic(auto, unfolding(crate::specs::Telling::link_reason))]
pub(crate) fn put_link_reason(
    text: &mut Text,
    lack: Lack,
    service: &Equipped<'_>,
    configs: &[Config],
    at: &ObjRef,
) -> Result<(), AllocError>
    ensures { OnOk result (text.new ≡ text.old ++ spec.link_reason lack service.now configs.now at.now) }
{
    if is_unreached(configs, &at.group) {
        put_beyond(text)
    } else {
        put_link(text, lack, service, configs, service.find(at))
    }
}
