//! What is found of an object.
//!
//! Promise: each function answers what the definition of the same matter in `specs/Findings` says.
ghost use Rattle.std.specs.Prelude.{◌≡◌, ◌++◌, ◌&&◌, Some, IfOk, OnOk};
ghost use Rattle.std.specs.List.{list_any};
ghost use Rattle.std.specs.Option.{option_copied, option_to_list};
ghost use Rattle.mh_group.specs.Table.{is_runnable};
ghost use Rattle.mh_alive.specs.Alive.{never_runs};
ghost use Rattle.mh_flow.specs.Index.{is_entered};
ghost use Rattle.mh_lint.specs.Findings as spec;

use crate::finding::Finding;
use mh_alive::Alive;
use mh_base::{EventType, GroupName, Value};
use mh_flow::is_entered;
use mh_group::{Attribute, Class};
use mh_model::held::{as_event, as_value};
use mh_model::{Config, Fixed};
use std::alloc::AllocError;

/// Whether nothing leads to the group: it is entered in none of these configurations.
pub(crate) fn is_unreached(configs: &[Config], group: &GroupName) -> bool
    ensures { result ≡ spec.is_unreached configs.now group.now }
{
    !is_reached(configs, group)
}

fn is_reached(configs: &[Config], group: &GroupName) -> bool
    ensures { result ≡ list_any (λ c. is_entered c group.now) configs.now }
{
    configs.iter().any(|config| is_entered(config, group))
}

/// A link that waits for data with which no event of its type comes.
fn unsaid(
    alive: &Alive,
    part: &Fixed,
    kind: Option<EventType>,
    value: Option<&Value>,
) -> Result<Option<Finding>, AllocError>
    ensures { IfOk result (λ found. found ≡ spec.unsaid alive.now part.now kind (option_copied value.entry)) }
{
    match (kind, value) {
        (Some(kind), Some(value)) => unsaid_with(alive, part, kind, value),
        _ => Ok(None),
    }
}

fn unsaid_with(
    alive: &Alive,
    part: &Fixed,
    kind: EventType,
    value: &Value,
) -> Result<Option<Finding>, AllocError>
    ensures { IfOk result (λ found. found ≡ spec.unsaid alive.now part.now (Some kind) (Some value.now)) }
{
    if !alive.never_says(kind, Some(value)) {
        return Ok(None);
    }
    let at = part.key.clone()?;
    let value = value.clone()?;
    Ok(Some(Finding::Unsaid(at, kind, value)))
}

/// A link that nothing puts to work, or that never hears what would.
fn unmoved(alive: &Alive, part: &Fixed) -> Result<Option<Finding>, AllocError>
    ensures { IfOk result (λ found. found ≡ spec.unmoved alive.now part.now) }
{
    if alive.never_put(&part.key) {
        return Ok(Some(Finding::Unput(part.key.clone()?)));
    }
    if alive.never_hears(&part.key) {
        return Ok(Some(Finding::Deaf(part.key.clone()?)));
    }
    Ok(None)
}

/// What is found of a link that may run.
fn of_link(alive: &Alive, part: &Fixed) -> Result<Option<Finding>, AllocError>
    ensures { IfOk result (λ found. found ≡ spec.of_link alive.now part.now) }
{
    let found = unsaid(
        alive,
        part,
        as_event(part.properties.get(Attribute::EventType)),
        as_value(part.properties.get(Attribute::EventData)),
    )?;
    match found {
        Some(found) => Ok(Some(found)),
        None => unmoved(alive, part),
    }
}

/// Whether what the link waits for is in a group that nothing leads to.
pub(crate) fn waits_beyond(configs: &[Config], part: &Fixed) -> bool
    ensures { result ≡ spec.waits_beyond configs.now part.now }
{
    is_beyond(
        configs,
        as_value(part.properties.get(Attribute::EventSource)),
    )
}

fn is_beyond(configs: &[Config], source: Option<&Value>) -> bool
    ensures { result ≡ spec.is_beyond configs.now (option_copied source.entry) }
{
    match source {
        Some(Value::Object(source)) => is_unreached(configs, &source.group),
        _ => false,
    }
}

/// Whether the object could run, and never does.
fn is_idle(alive: &Alive, part: &Fixed) -> bool
    ensures { result ≡ (is_runnable part.now.class && never_runs alive.now part.now.key) }
{
    part.class.is_runnable() && alive.never_runs(&part.key)
}

/// The root of what is found of a link that may run.
fn link_root(alive: &Alive, configs: &[Config], part: &Fixed) -> Result<Option<Finding>, AllocError>
    ensures { IfOk result (λ found. found ≡ spec.link_root alive.now configs.now part.now) }
{
    if waits_beyond(configs, part) {
        return Ok(None);
    }
    of_link(alive, part)
}

/// The root of what is found of an object of a group that is reached.
fn root_of(alive: &Alive, configs: &[Config], part: &Fixed) -> Result<Option<Finding>, AllocError>
    ensures { IfOk result (λ found. found ≡ spec.root_of alive.now configs.now part.now) }
{
    if is_idle(alive, part) {
        return Ok(Some(Finding::Idle(part.key.clone()?)));
    }
    if matches!(part.class, Class::Link) {
        link_root(alive, configs, part)
    } else {
        Ok(None)
    }
}

/// Something that nothing runs.
fn idle(alive: &Alive, part: &Fixed) -> Result<Option<Finding>, AllocError>
    ensures { IfOk result (λ found. found ≡ spec.idle alive.now part.now) }
{
    if !is_idle(alive, part) {
        return Ok(None);
    }
    Ok(Some(Finding::Idle(part.key.clone()?)))
}

fn push_one(found: &mut Vec<Finding>, one: Option<Finding>) -> Result<(), AllocError>
    ensures { OnOk result (found.new.items ≡ found.old.items ++ option_to_list one) }
{
    if let Some(one) = one {
        found.push(one)?;
    }
    Ok(())
}

/// All that is found of a link, besides that it never runs.
fn push_link(found: &mut Vec<Finding>, alive: &Alive, part: &Fixed) -> Result<(), AllocError>
    ensures { OnOk result (found.new.items ≡ found.old.items ++ spec.all_of_link alive.now part.now) }
{
    let silent = unsaid(
        alive,
        part,
        as_event(part.properties.get(Attribute::EventType)),
        as_value(part.properties.get(Attribute::EventData)),
    )?;
    push_one(found, silent)?;
    push_one(found, unmoved(alive, part)?)
}

/// All that is found of an object.
fn push_all(found: &mut Vec<Finding>, alive: &Alive, part: &Fixed) -> Result<(), AllocError>
    ensures { OnOk result (found.new.items ≡ found.old.items ++ spec.all_of alive.now part.now) }
{
    push_one(found, idle(alive, part)?)?;
    if matches!(part.class, Class::Link) {
        return push_link(found, alive, part);
    }
    Ok(())
}

/// The root of what is found of an object, or all of it.
pub(crate) fn push_part(
    found: &mut Vec<Finding>,
    all: bool,
    alive: &Alive,
    configs: &[Config],
    part: &Fixed,
) -> Result<(), AllocError>
    ensures { OnOk result (found.new.items ≡ found.old.items ++ spec.found_of all alive.now configs.now part.now) }
{
    if all {
        return push_all(found, alive, part);
    }
    push_one(found, root_of(alive, configs, part)?)
}
