//! What is told by numbers: configurations, objects, values and hearings.
//!
//! Promise: what is answered has the number.
ghost use Rattle.std.specs.Prelude.{◌≡◌, ◌&&◌, is_some, slice_get, true, Some};
ghost use Rattle.mh_laws.specs.Flow.{reached};
ghost use Rattle.mh_layers.specs.Reading.{flow_read, has_config, has_hearing, has_names, has_object, hearing_named, hears_number, object_named, context_at, context_in, values_read};

use crate::numbered::NumberedService;
use crate::numbered::at::At;
use crate::numbered::values::Values;
use crate::numbered_node::{Hears, NumberedNode};
use mh_base::{EventType, ObjRef, Value};
use mh_model::Config;

/// The configuration with this number.
pub(crate) fn context_at<'a>(numbered_service: &'a NumberedService<'a>, number: usize) -> At<'a>
    requires { has_config numbered_service.now number ≡ true }
    ensures { result ≡ context_at numbered_service.now number }
{
    match At::of(numbered_service, number) {
        None => unreachable!(),
        Some(here) => here,
    }
}

/// The object with this number.
#[tactic(auto, using(crate::proofs::ContextLemmas::got_there))]
pub(crate) fn object<'a>(numbered_service: &'a NumberedService<'_>, number: usize) -> &'a ObjRef
    requires { has_object numbered_service.now number ≡ true }
    ensures { result.now ≡ object_named numbered_service.now number }
{
    match numbered_service.object_at(number) {
        None => unreachable!(),
        Some(at) => at,
    }
}

/// The value with this number of these.
fn value_at(values: &Values, number: usize) -> &Value
    requires { is_some (slice_get values.now number) ≡ true }
    ensures { slice_get values.now number ≡ Some result.now }
{
    match values.at(number) {
        None => unreachable!(),
        Some(value) => value,
    }
}

/// The value with this number.
fn value<'a>(
    numbered_service: &'a NumberedService<'_>,
    source: &ObjRef,
    kind: EventType,
    number: usize,
) -> &'a Value
    requires { is_some (slice_get (values_read numbered_service.now source.now kind) number) ≡ true }
    ensures { slice_get (values_read numbered_service.now source.now kind) number ≡ Some result.now }
{
    match numbered_service.values(source, kind) {
        None => unreachable!(),
        Some(values) => value_at(values, number),
    }
}

/// The number of the hearing that has this number.
pub(crate) fn hearing(
    numbered_service: &NumberedService<'_>,
    source: &ObjRef,
    kind: EventType,
    hears: Hears,
) -> Hears
    requires { has_hearing numbered_service.now source.now kind hears ≡ true }
    ensures { let r = numbered_service.now in result ≡ hears_number r source.now kind (hearing_named r source.now kind hears) }
{
    match hears {
        Hears::With(number) => {
            let value = value(numbered_service, source, kind, number);
            Hears::With(numbered_service.value_number(source, kind, value))
        }
        _ => hears,
    }
}

/// The configuration in the numbered service, which is reached.
#[tactic(auto, using(crate::proofs::ContextLemmas::named_in))]
pub(crate) fn reached<'a>(numbered_service: &'a NumberedService<'a>, config: &Config) -> At<'a>
    requires { reached (flow_read numbered_service.now) config.now ≡ true }
    ensures { result ≡ context_in numbered_service.now config.now }
{
    match numbered_service.number_of(config) {
        None => unreachable!(),
        Some(number) => context_at(numbered_service, number),
    }
}

// Whether there is something with a number

fn has_config(numbered_service: &NumberedService<'_>, number: usize) -> bool
    ensures { result ≡ has_config numbered_service.now number }
{
    match numbered_service.config_at(number) {
        None => false,
        Some(_) => true,
    }
}

fn has_object(numbered_service: &NumberedService<'_>, number: usize) -> bool
    ensures { result ≡ has_object numbered_service.now number }
{
    match numbered_service.object_at(number) {
        None => false,
        Some(_) => true,
    }
}

fn has_value_at(values: &Values, number: usize) -> bool
    ensures { result ≡ is_some (slice_get values.now number) }
{
    match values.at(number) {
        None => false,
        Some(_) => true,
    }
}

fn has_value(
    numbered_service: &NumberedService<'_>,
    source: &ObjRef,
    kind: EventType,
    number: usize,
) -> bool
    ensures { result ≡ is_some (slice_get (values_read numbered_service.now source.now kind) number) }
{
    match numbered_service.values(source, kind) {
        None => false,
        Some(values) => has_value_at(values, number),
    }
}

fn has_hearing(
    numbered_service: &NumberedService<'_>,
    source: &ObjRef,
    kind: EventType,
    hears: Hears,
) -> bool
    ensures { result ≡ has_hearing numbered_service.now source.now kind hears }
{
    match hears {
        Hears::With(number) => has_value(numbered_service, source, kind, number),
        _ => true,
    }
}

#[tactic(auto, using(crate::proofs::ContextLemmas::got_there))]
fn has_event(
    numbered_service: &NumberedService<'_>,
    source: usize,
    kind: EventType,
    hears: Hears,
) -> bool
    ensures { result ≡ (has_object numbered_service.now source && has_hearing numbered_service.now (object_named numbered_service.now source) kind hears) }
{
    match numbered_service.object_at(source) {
        None => false,
        Some(at) => has_hearing(numbered_service, at, kind, hears),
    }
}

/// Whether there are the configuration, the object and the value with the numbers that the node has.
pub(crate) fn has_names(numbered_service: &NumberedService<'_>, node: &NumberedNode) -> bool
    ensures { result ≡ has_names numbered_service.now node.now }
{
    match node {
        NumberedNode::Effect(config, at, _) => has_config(numbered_service, *config)
            && has_object(numbered_service, *at),
        NumberedNode::Fired(config, source, kind, hears) => {
            has_config(numbered_service, *config)
                && has_event(numbered_service, *source, *kind, *hears)
        }
        NumberedNode::Entry(source, kind, hears) => has_event(
            numbered_service,
            *source,
            *kind,
            *hears,
        ),
        NumberedNode::Change(config, list) => has_config(numbered_service, *config)
            && has_object(numbered_service, *list),
        NumberedNode::Leave(config, _) => has_config(numbered_service, *config),
        NumberedNode::Enter(config) => has_config(numbered_service, *config),
        NumberedNode::Taken(config, _) => has_config(numbered_service, *config),
    }
}
