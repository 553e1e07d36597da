//! Why a link never hears the timer or the key for which it waits.
//!
//! Promise: each function puts what the definition of its name in `specs/Telling` says.
ghost use Rattle.std.specs.Prelude.{◌≡◌, ◌++◌, OnOk};
ghost use Rattle.std.specs.Option.{option_copied};
ghost use Rattle.mh_lint.specs.Telling as spec;

use crate::telling::{put_data, put_of, put_source, put_value};
use mh_alive::is_key_data;
use mh_base::{EventType, GroupName, ObjRef, Value};
use mh_flow::Equipped;
use mh_group::Class;
use mh_model::Fixed;
use mh_told::text::Text;
use std::alloc::AllocError;

#[tactic(auto, unfolding(crate::specs::Telling::timer_front))]
fn put_timer_front(text: &mut Text) -> Result<(), AllocError>
    ensures { OnOk result (text.new ≡ text.old ++ spec.timer_front) }
{
    text.put(b": timer")
}

#[tactic(auto, unfolding(crate::specs::Telling::timer_end))]
fn put_timer_end(text: &mut Text) -> Result<(), AllocError>
    ensures { OnOk result (text.new ≡ text.old ++ spec.timer_end) }
{
    text.put(b" is only set by links that never hear")
}

/// Puts that only links which never hear set the timer.
#[tactic(auto, unfolding(crate::specs::Telling::timer_words))]
fn put_timer(
    text: &mut Text,
    service: &Equipped<'_>,
    from: &GroupName,
    source: &ObjRef,
    value: Option<&Value>,
) -> Result<(), AllocError>
    ensures { OnOk result (text.new
        ≡ text.old ++ spec.timer_words service.now from.now source.now (option_copied value.entry)) }
{
    put_timer_front(text)?;
    put_data(text, value)?;
    put_of(text, service, from, source)?;
    put_timer_end(text)
}

#[tactic(auto, unfolding(crate::specs::Telling::no_key_words))]
fn put_no_key(text: &mut Text, value: &Value) -> Result<(), AllocError>
    ensures { OnOk result (text.new ≡ text.old ++ spec.no_key_words value.now) }
{
    text.put(b": no key comes with ")?;
    put_value(text, value)
}

#[tactic(auto, unfolding(crate::specs::Telling::keyless_front))]
fn put_keyless_front(text: &mut Text) -> Result<(), AllocError>
    ensures { OnOk result (text.new ≡ text.old ++ spec.keyless_front) }
{
    text.put(b": ")
}

#[tactic(auto, unfolding(crate::specs::Telling::keyless_end))]
fn put_keyless_end(text: &mut Text) -> Result<(), AllocError>
    ensures { OnOk result (text.new ≡ text.old ++ spec.keyless_end) }
{
    text.put(b" hears no keys")
}

/// Puts that what the link waits for is no scene, and so hears no keys.
#[tactic(auto, unfolding(crate::specs::Telling::keyless_words))]
fn put_keyless(
    text: &mut Text,
    service: &Equipped<'_>,
    from: &GroupName,
    source: &ObjRef,
) -> Result<(), AllocError>
    ensures { OnOk result (text.new ≡ text.old ++ spec.keyless_words service.now from.now source.now) }
{
    put_keyless_front(text)?;
    put_source(text, service, from, source)?;
    put_keyless_end(text)
}

#[tactic(auto, unfolding(crate::specs::Telling::key_front))]
fn put_key_front(text: &mut Text) -> Result<(), AllocError>
    ensures { OnOk result (text.new ≡ text.old ++ spec.key_front) }
{
    text.put(b": key")
}

#[tactic(auto, unfolding(crate::specs::Telling::key_end))]
fn put_key_end(text: &mut Text) -> Result<(), AllocError>
    ensures { OnOk result (text.new ≡ text.old ++ spec.key_end) }
{
    text.put(b" is let through by no register")
}

/// Puts that no register of the scene lets the key through.
#[tactic(auto, unfolding(crate::specs::Telling::blocked_words))]
fn put_blocked(
    text: &mut Text,
    service: &Equipped<'_>,
    from: &GroupName,
    source: &ObjRef,
    value: Option<&Value>,
) -> Result<(), AllocError>
    ensures { OnOk result (text.new
        ≡ text.old ++ spec.blocked_words service.now from.now source.now (option_copied value.entry)) }
{
    put_key_front(text)?;
    put_data(text, value)?;
    put_of(text, service, from, source)?;
    put_key_end(text)
}

fn is_some_scene(part: Option<&Fixed>) -> bool
    ensures { result ≡ spec.is_some_scene (option_copied part.entry) }
{
    match part {
        None => false,
        Some(part) => matches!(part.class, Class::Scene),
    }
}

/// Puts why the key, which there is, is not let through.
#[tactic(auto, unfolding(crate::specs::Telling::unlet_words))]
fn put_unlet(
    text: &mut Text,
    service: &Equipped<'_>,
    from: &GroupName,
    source: &ObjRef,
    value: Option<&Value>,
) -> Result<(), AllocError>
    ensures { OnOk result (text.new
        ≡ text.old ++ spec.unlet_words service.now from.now source.now (option_copied value.entry)) }
{
    if is_some_scene(service.find(source)) {
        put_blocked(text, service, from, source, value)
    } else {
        put_keyless(text, service, from, source)
    }
}

/// Puts why the link never hears the key.
#[tactic(auto, unfolding(crate::specs::Telling::key_words))]
fn put_key(
    text: &mut Text,
    service: &Equipped<'_>,
    from: &GroupName,
    source: &ObjRef,
    value: Option<&Value>,
) -> Result<(), AllocError>
    ensures { OnOk result (text.new
        ≡ text.old ++ spec.key_words service.now from.now source.now (option_copied value.entry)) }
{
    match value {
        None => put_unlet(text, service, from, source, None),
        Some(given) => {
            if is_key_data(Some(given)) {
                put_unlet(text, service, from, source, Some(given))
            } else {
                put_no_key(text, given)
            }
        }
    }
}

#[tactic(auto, unfolding(crate::specs::Telling::unheard_words))]
pub(crate) fn put_unheard(
    text: &mut Text,
    service: &Equipped<'_>,
    from: &GroupName,
    kind: EventType,
    source: &ObjRef,
    value: Option<&Value>,
) -> Result<(), AllocError>
    ensures { OnOk result (text.new
        ≡ text.old ++ spec.unheard_words service.now from.now kind source.now (option_copied value.entry)) }
{
    match kind {
        EventType::TimerFired => put_timer(text, service, from, source, value),
        EventType::UserInput => put_key(text, service, from, source, value),
        _ => Ok(()),
    }
}
