//! What is present in a configuration, as the files say it.
//!
//! Promise: each function answers what the definition that its clause names says.
ghost use Rattle.std.specs.Prelude.{◌≡◌, ◌++◌, true};
ghost use Rattle.std.specs.Option.{option_copied, option_map_or};
ghost use Rattle.mh_group.specs.Table as table;
ghost use Rattle.mh_laws.specs.Active as active;
ghost use Rattle.mh_laws.specs.Flow as flow;
ghost use Rattle.mh_model.specs.Configuration as configuration;
ghost use Rattle.mh_model.specs.Known.{class_at};
ghost use Rattle.mh_model.specs.Property.{held, as_value};
ghost use Rattle.mh_model.specs.Reference.{same_ref};
ghost use Rattle.mh_model.specs.Service.{group_parts, part_at, is_there};
ghost use Rattle.mh_model.specs.Tokens as tokens;
ghost use Rattle.mh_verify.specs.Evidence.{is_configuration};
ghost use Rattle.mh_evidence.specs.Putting.{ref_of};

use mh_base::{GroupName, ObjRef, Value};
use mh_group::{Attribute, Class};
use mh_model::held::{as_members, as_value};
use mh_model::{Config, Fixed, FixedPart, Member, Properties};
use mh_service::Service;
use std::marker::Model;

/// What is present: the parts of the application, then those of the scene. A contract sees them as one list.
#[derive(Drop)]
pub(crate) struct There<'a> {
    application: &'a [FixedPart],
    scene: &'a [FixedPart],
}

impl<'a> Model for There<'a> {
    ghost use Rattle.std.specs.Prelude.{List, ◌++◌};
    ghost use Rattle.mh_model.specs.declared.object.Fixed.{Fixed};

    ghost Value = { List Fixed };

    ghost view = { λ t. t.application.now ++ t.scene.now };
}

impl<'a> There<'a> {
    /// What is present in the configuration.
    pub(crate) fn of(service: &'a Service, config: &Config) -> There<'a>
        ensures { result ≡ configuration.present service.now config.now }
    {
        There::with(service, &config.app, config.scene.as_ref())
    }

    /// What is present with this application, and with this scene, if there is one.
    pub(crate) fn with(
        service: &'a Service,
        application: &GroupName,
        scene: Option<&GroupName>,
    ) -> There<'a>
        ensures { result ≡ configuration.present service.now (record { app = application.now; scene = option_copied scene.entry }) }
    {
        There {
            application: service.parts(application),
            scene: scene_parts(service, scene),
        }
    }

    /// The parts of the application, and those of the scene.
    pub(crate) fn parts(&self) -> (&'a [FixedPart], &'a [FixedPart])
        ensures { result.0.now ++ result.1.now ≡ self.now }
    {
        (self.application, self.scene)
    }

    /// The object of the group that has the number, if it is present.
    #[tactic(auto, using(crate::proofs::AnyLemmas::found_in_two))]
    fn find_numbered(&self, group: &GroupName, number: u32) -> Option<&'a Fixed>
        ensures { option_copied result ≡ part_at (ref_of group.now number) self.now }
    {
        match part_at(self.application, group, number) {
            None => part_at(self.scene, group, number),
            Some(part) => Some(part),
        }
    }

    /// The part to which the reference leads, if it is present.
    pub(crate) fn find(&self, at: &ObjRef) -> Option<&'a Fixed>
        ensures { option_copied result ≡ part_at at.now self.now }
    {
        self.find_numbered(&at.group, at.number)
    }

    /// Whether the object of the group that has the number is present.
    pub(crate) fn has(&self, group: &GroupName, number: u32) -> bool
        ensures { result ≡ is_there (ref_of group.now number) self.now }
    {
        self.find_numbered(group, number).is_some()
    }

    /// The class of the object to which the reference leads, if it is present.
    pub(crate) fn class_of(&self, at: &ObjRef) -> Option<Class>
        ensures { result ≡ class_at at.now self.now }
    {
        self.find(at).map(|part| part.class)
    }

    /// Whether the effects of the object can come to be done: those of a link only where its source is present.
    pub(crate) fn is_active(&self, part: &Fixed) -> bool
        ensures { result ≡ active.is_active self.now part.now }
    {
        if matches!(part.class, Class::Link) {
            self.has_source(&part.properties)
        } else {
            true
        }
    }

    fn has_source(&self, link: &Properties) -> bool
        ensures { result ≡ active.has_source self.now (as_value (held Attribute.EventSource link.now)) }
    {
        match as_value(link.get(Attribute::EventSource)) {
            Some(Value::Object(source)) => self.find(source).is_some(),
            _ => false,
        }
    }
}

/// Whether it is a configuration of the service: an application with one of the scenes, or with none.
pub(crate) fn is_configuration(service: &Service, config: &Config) -> bool
    ensures { result ≡ is_configuration service.now config.now }
{
    service.has_application(&config.app) && is_scene_or_none(service, &config.scene)
}

fn is_scene_or_none(service: &Service, scene: &Option<GroupName>) -> bool
    ensures { result ≡ option_map_or (configuration.is_group_of table.is_scene service.now) scene.now true }
{
    match scene {
        None => true,
        Some(scene) => service.has_scene(scene),
    }
}

/// The parts of a scene, if there is one.
pub(crate) fn scene_parts<'a>(service: &'a Service, scene: Option<&GroupName>) -> &'a [FixedPart]
    ensures { result.now ≡ configuration.scene_parts service.now (option_copied scene.entry) }
{
    match scene {
        None => &[],
        Some(scene) => service.parts(scene),
    }
}

/// The object of the group that has the number, if it is among these. No reference is made, since that takes memory.
pub(crate) fn part_at<'a>(
    parts: &'a [FixedPart],
    group: &GroupName,
    number: u32,
) -> Option<&'a Fixed>
    ensures { option_copied result ≡ part_at (ref_of group.now number) parts.now }
{
    match find(parts, group, number) {
        None => None,
        Some(part) => Some(part.get()),
    }
}

fn find<'a>(parts: &'a [FixedPart], group: &GroupName, number: u32) -> Option<&'a FixedPart>
    ensures { option_copied result ≡ part_at (ref_of group.now number) parts.now }
{
    parts.iter().find(|part| is_at(group, number, *part))
}

fn is_at(group: &GroupName, number: u32, part: &FixedPart) -> bool
    ensures { result ≡ same_ref (ref_of group.now number) part.now.key }
{
    let key = &part.get().key;
    number == key.number && *group == key.group
}

/// The members of a group of objects; none of any other object.
pub(crate) fn members(part: &Fixed) -> &[Member]
    ensures { result.now ≡ tokens.members part.now }
{
    as_members(part.properties.get(Attribute::TokenGroupItems))
}

/// Whether objects of the class are variables of references.
pub(crate) fn refers(class: Class) -> bool
    ensures { result ≡ flow.refers class }
{
    matches!(class, Class::ObjectRefVar)
}

/// Whether objects of the class are lists.
pub(crate) fn is_list_group(class: Class) -> bool
    ensures { result ≡ table.is_list_group class }
{
    matches!(class, Class::ListGroup)
}

/// Whether objects of the class have a set: variables of references, and lists.
pub(crate) fn is_holder(class: Class) -> bool
    ensures { result ≡ flow.is_holder class }
{
    refers(class) || is_list_group(class)
}

/// The class of the object in its group, if it is there.
pub(crate) fn class_in(service: &Service, at: &ObjRef) -> Option<Class>
    ensures { result ≡ class_at at.now (group_parts service.now at.now.group) }
{
    service.find(at).map(|part| part.class)
}
