//! What is present in a configuration, and where an action leads.
//!
//! Promise: each function answers what the definition that its clause names says.
ghost use Rattle.std.specs.Prelude.{◌≡◌, ◌<◌, ◌+◌, ◌++◌, IfOk, Some, length, slice_get};
ghost use Rattle.std.specs.List.{Contains};
ghost use Rattle.std.specs.Option.{option_copied};
ghost use Rattle.mh_flow.specs.Index.{indexed, is_entered};
ghost use Rattle.mh_flow.specs.Chart.{place_in};
ghost use Rattle.mh_flow.specs.Solved.{is_holder_in};
ghost use Rattle.mh_laws.specs.Active.{has_source, is_active, leads_to};
ghost use Rattle.mh_laws.specs.Flow.{is_reference_in, is_list_in, is_given, is_holder, refers};
ghost use Rattle.mh_model.specs.Configuration.{present, same_scene, scene_parts};
ghost use Rattle.mh_model.specs.Known.{class_at};
ghost use Rattle.mh_model.specs.Property.{held, as_value};
ghost use Rattle.mh_group.specs.Table.{is_list_group};
ghost use Rattle.mh_model.specs.Service.{part_at};

use crate::equipped::Equipped;
use crate::index::Index;
use crate::index::likely::place_among;
use mh_base::{GroupName, ObjRef, Value};
use mh_group::{ActionName, Attribute, Class};
use mh_model::held::as_value;
use mh_model::{Config, Fixed, FixedPart, Properties};
use std::alloc::AllocError;
use std::marker::Model;

/// What the files say of what is present: the parts of the application, then those of the scene. A contract
/// sees them as one list.
#[derive(Drop)]
pub struct Present<'a> {
    service: &'a Equipped<'a>,
    config: &'a Config,
    index: &'a Index,
    application: &'a [FixedPart],
    scene: &'a [FixedPart],
}

impl<'a> Model for Present<'a> {
    ghost use Rattle.std.specs.Prelude.{List, ◌++◌};
    ghost use Rattle.mh_model.specs.declared.object.Fixed.{Fixed};
    ghost use Rattle.mh_flow.specs.Index.{IsPresent};

    ghost Value = { List Fixed };

    ghost view = { λ p. p.application.now ++ p.scene.now };

    ghost invariant = { λ p. IsPresent p.service.now p.config.now p.index.now.entries p.application.now p.scene.now };
}

pub(crate) fn scene_parts<'a>(service: &Equipped<'a>, name: &Option<GroupName>) -> &'a [FixedPart]
    ensures { result.now ≡ scene_parts service.now name.now }
{
    match name {
        None => &[],
        Some(name) => service.parts(name),
    }
}

fn part_in(parts: &[FixedPart], place: usize) -> Option<&Fixed>
    ensures { option_copied result ≡ slice_get parts.now place }
{
    match parts.get(place) {
        None => None,
        Some(part) => Some(part.get()),
    }
}

/// Whether the group of this name is the scene.
pub(crate) fn is_scene(scene: &Option<GroupName>, group: &GroupName) -> bool
    ensures { result ≡ same_scene scene.now (Some group.now) }
{
    match scene {
        None => false,
        Some(scene) => scene == group,
    }
}

/// Whether the group is the application or the scene.
pub fn is_entered(config: &Config, group: &GroupName) -> bool
    ensures { result ≡ is_entered config.now group.now }
{
    *group == config.app || is_scene(&config.scene, group)
}

/// How many stand before the one at this place of the parts, with those before them.
pub(crate) fn place_behind(before: &[FixedPart], parts: &[FixedPart], place: usize) -> usize
    requires { place < length parts.now }
    ensures { result ≡ length before.now + place }
{
    // that the sum is a number here is known by the lengths of both
    let _ = parts.len();
    before.len() + place
}

impl<'a> Present<'a> {
    /// What is present in the configuration, where this is the index of the service.
    pub(crate) fn of(service: &'a Equipped<'a>, index: &'a Index, config: &'a Config) -> Present<'a>
        requires { index.now.entries ≡ indexed service.now }
        ensures { result ≡ present service.now config.now }
    {
        // that their names are their own is known where there are groups
        let _ = service.groups();
        Present {
            service,
            config,
            index,
            application: service.parts(&config.app),
            scene: scene_parts(service, &config.scene),
        }
    }

    /// The parts of the application, and those of the scene.
    pub fn parts(&self) -> (&'a [FixedPart], &'a [FixedPart])
        ensures { result.0.now ++ result.1.now ≡ self.now }
    {
        (self.application, self.scene)
    }

    /// The object before which so many stand.
    pub(crate) fn at(&self, place: usize) -> Option<&'a Fixed>
        ensures { option_copied result ≡ slice_get self.now place }
    {
        if place < self.application.len() {
            Some(self.application[place].get())
        } else {
            part_in(self.scene, place - self.application.len())
        }
    }

    /// The part to which the reference leads, if it is present.
    pub fn find(&self, at: &ObjRef) -> Option<&Fixed>
        ensures { option_copied result ≡ part_at at.now self.now }
    {
        match self.place(at) {
            None => None,
            Some(place) => self.at(place),
        }
    }

    /// How many of those that are present stand before the one to which the reference leads.
    pub(crate) fn place(&self, at: &ObjRef) -> Option<usize>
        ensures { result ≡ place_in self.now at.now }
    {
        if at.group == self.config.app {
            return place_among(self.service, self.index, self.application, at);
        }
        if is_scene(&self.config.scene, &at.group) {
            return match place_among(self.service, self.index, self.scene, at) {
                None => None,
                Some(place) => Some(place_behind(self.application, self.scene, place)),
            };
        }
        None
    }

    /// Whether this one, which is present, is a variable of references or a list.
    pub(crate) fn is_holder(&self, part: &Fixed) -> bool
        requires { Contains self.now part.now }
        ensures { result ≡ is_holder_in self.now part.now.key }
    {
        // that no two of them have one key is known where there are groups
        let _ = self.service.groups();
        is_holder(part.class)
    }

    /// The class of the object to which the reference leads, if it is present.
    pub fn class_of(&self, at: &ObjRef) -> Option<Class>
        ensures { result ≡ class_at at.now self.now }
    {
        match self.find(at) {
            None => None,
            Some(part) => Some(part.class),
        }
    }

    /// Whether it is a variable of references, and present.
    pub(crate) fn is_reference(&self, at: &ObjRef) -> bool
        ensures { result ≡ is_reference_in self.now at.now }
    {
        match self.class_of(at) {
            None => false,
            Some(class) => refers(class),
        }
    }

    /// Whether it is a list, and present.
    pub(crate) fn is_list(&self, at: &ObjRef) -> bool
        ensures { result ≡ is_list_in self.now at.now }
    {
        match self.class_of(at) {
            None => false,
            Some(class) => is_list(class),
        }
    }

    /// Whether the action can hand the object what it keeps.
    pub(crate) fn is_given(&self, action: ActionName, at: &ObjRef) -> bool
        ensures { result ≡ is_given self.now action at.now }
    {
        match self.class_of(at) {
            None => false,
            Some(class) => class.admits(action) && is_holder(class),
        }
    }

    /// Whether the effects of the object can come to be done: those of a link only where its source is
    /// present.
    pub fn is_active(&self, part: &Fixed) -> bool
        ensures { result ≡ is_active self.now part.now }
    {
        if matches!(part.class, Class::Link) {
            self.has_source(&part.properties)
        } else {
            true
        }
    }

    fn has_source(&self, link: &Properties) -> bool
        ensures { result ≡ has_source self.now (as_value (held Attribute.EventSource link.now)) }
    {
        match as_value(link.get(Attribute::EventSource)) {
            Some(Value::Object(source)) => self.find(source).is_some(),
            _ => false,
        }
    }
}

/// Whether objects of the class are variables of references.
pub(crate) fn refers(class: Class) -> bool
    ensures { result ≡ refers class }
{
    matches!(class, Class::ObjectRefVar)
}

pub(crate) fn is_list(class: Class) -> bool
    ensures { result ≡ is_list_group class }
{
    matches!(class, Class::ListGroup)
}

/// Whether objects of the class have a set: variables of references, and lists.
pub(crate) fn is_holder(class: Class) -> bool
    ensures { result ≡ is_holder class }
{
    matches!(class, Class::ObjectRefVar | Class::ListGroup)
}

/// The configuration to which an action leads that is done to this object, if it leads anywhere.
pub(crate) fn leads_to(
    service: &Equipped<'_>,
    config: &Config,
    action: ActionName,
    at: &ObjRef,
) -> Result<Option<Config>, AllocError>
    ensures { IfOk result (λ led. led ≡ leads_to service.now config.now action at.now) }
{
    match action {
        ActionName::TransitionTo => to_scene(service, config, at),
        ActionName::Launch => to_application(service, at),
        _ => Ok(None),
    }
}

/// The scene, under the same application.
fn to_scene(
    service: &Equipped<'_>,
    config: &Config,
    at: &ObjRef,
) -> Result<Option<Config>, AllocError>
    ensures { IfOk result (λ led. led
        ≡ leads_to service.now config.now ActionName.TransitionTo at.now) }
{
    if at.number != 0 || !service.has_scene(&at.group) {
        return Ok(None);
    }
    Ok(Some(Config {
        app: config.app.clone()?,
        scene: Some(at.group.clone()?),
    }))
}

/// The application, with no scene.
fn to_application(service: &Equipped<'_>, at: &ObjRef) -> Result<Option<Config>, AllocError>
    ensures { (config : _) → IfOk result (λ led. led
        ≡ leads_to service.now config ActionName.Launch at.now) }
{
    if at.number != 0 || !service.has_application(&at.group) {
        return Ok(None);
    }
    Ok(Some(Config {
        app: at.group.clone()?,
        scene: None,
    }))
}
