//! The configurations of a service.
//!
//! Promise: each application comes without a scene and then with each scene of the service, in the order
//! of the groups. Which of them are reached is left to `mh_flow`.
ghost use Rattle.std.specs.Prelude.{◌≡◌, ◌++◌, true, false, None, Some, IfOk, OnOk, map, length, nat_le};
ghost use Rattle.mh_group.specs.Table.{is_scene, is_application};
ghost use Rattle.mh_model.specs.Configuration.{configurations, names as names_lem, with_scenes, is_group_of, is_service, same_config};
ghost use Rattle.mh_model.specs.Service.{part_at};
ghost use Rattle.mh_model.specs.Reference.{group_ref, same_ref};
ghost use Rattle.std.specs.List.{flat_map, IsDistinct};
ghost use Rattle.std.specs.Str.{bytes_eq};
ghost use Rattle.std.specs.Option.{option_copied, option_map_or};
ghost use Rattle.mh_service.specs.Wanted.{is_wanted};

use crate::Service;
use mh_base::GroupName;
use mh_group::Class;
use mh_model::{Config, FixedPart};
use std::alloc::{AllocError, Global};

/// Which groups are looked for.
#[derive(Clone, Copy)]
pub(crate) enum Wanted {
    Applications,
    Scenes,
}

impl Wanted {
    fn takes(self, class: Class) -> bool
        ensures { result ≡ is_wanted self class }
    {
        match self {
            Wanted::Applications => matches!(class, Class::Application),
            Wanted::Scenes => matches!(class, Class::Scene),
        }
    }
}

impl Service {
    /// The configurations: each application without a scene, and then with each scene.
    pub fn configurations(&self, alloc: Global) -> Result<Vec<Config>, AllocError>
        ensures each { IfOk result (λ configs. configs.items ≡ configurations self.now) }
        ensures once { IfOk result (λ configs. IsDistinct same_config configs.items) }
        ensures service { OnOk result (is_service self.now ≡ true) }
    {
        let applications = self.names(alloc, Wanted::Applications)?;
        let scenes = self.names(alloc, Wanted::Scenes)?;
        let configs = all_with_scenes(alloc, applications.as_slice(), scenes.as_slice())?;
        Ok(configs)
    }

    /// Whether a group of this name is an application.
    pub fn has_application(&self, name: &GroupName) -> bool
        ensures { result ≡ is_group_of is_application self.now name.now }
    {
        self.is_of(name, Wanted::Applications)
    }

    /// Whether a group of this name is a scene.
    pub fn has_scene(&self, name: &GroupName) -> bool
        ensures { result ≡ is_group_of is_scene self.now name.now }
    {
        self.is_of(name, Wanted::Scenes)
    }

    /// The names of the groups that are wanted, in their order.
    fn names(&self, alloc: Global, wanted: Wanted) -> Result<Vec<GroupName>, AllocError>
        ensures each { IfOk result (λ names. names.items ≡ names_lem (is_wanted wanted) self.now) }
        ensures once { OnOk result (IsDistinct bytes_eq (map (λ e. e.0) self.now.groups)) }
        ensures service { OnOk result (is_service self.now ≡ true) }
    {
        let mut names = Vec::new(alloc);
        for name in self.groups().keys() {
            if self.is_of(name, wanted) {
                names.push(name.clone()?)?;
            }
        }
        Ok(names)
    }

    fn is_of(&self, name: &GroupName, wanted: Wanted) -> bool
        ensures { result ≡ is_group_of (is_wanted wanted) self.now name.now }
    {
        match self.group(name) {
            None => false,
            Some(parts) => itself_is(parts, name, wanted),
        }
    }
}

/// Whether the group itself, which is among these parts, is wanted.
fn itself_is(parts: &[FixedPart], name: &GroupName, wanted: Wanted) -> bool
    ensures { result ≡ option_map_or (λ p. is_wanted wanted p.class)
        (part_at (group_ref name.now) parts.now) false }
{
    match itself_among(parts, name) {
        None => false,
        Some(part) => wanted.takes(part.get().class),
    }
}

fn itself_among<'a>(parts: &'a [FixedPart], name: &GroupName) -> Option<&'a FixedPart>
    ensures { option_copied result ≡ part_at (group_ref name.now) parts.now }
{
    parts.iter().find(|part| is_itself(name, *part))
}

fn is_itself(name: &GroupName, part: &FixedPart) -> bool
    ensures { result ≡ same_ref (group_ref name.now) part.now.key }
{
    let key = &part.get().key;
    *name == key.group && key.number == 0
}

/// Each application without a scene, and then with each of these.
fn all_with_scenes(
    alloc: Global,
    applications: &[GroupName],
    scenes: &[GroupName],
) -> Result<Vec<Config>, AllocError>
    ensures { IfOk result (λ configs. configs.items ≡ flat_map (with_scenes scenes.now) applications.now) }
{
    let mut configs = Vec::new(alloc);
    for app in applications {
        push_with_scenes(&mut configs, app, scenes)?;
    }
    Ok(configs)
}

/// Puts the application at the end, without a scene and with each of these.
fn push_with_scenes(
    configs: &mut Vec<Config>,
    app: &GroupName,
    scenes: &[GroupName],
) -> Result<(), AllocError>
    ensures { OnOk result (configs.new.items ≡ configs.old.items ++ with_scenes scenes.now app.now) }
{
    configs.push(alone(app)?)?;
    for scene in scenes {
        configs.push(with_scene(app, scene)?)?;
    }
    Ok(())
}

/// The application with no scene.
fn alone(app: &GroupName) -> Result<Config, AllocError>
    ensures { IfOk result (λ config. config ≡ record { app = app.now; scene = None }) }
{
    Ok(Config {
        app: app.clone()?,
        scene: None,
    })
}

fn with_scene(app: &GroupName, scene: &GroupName) -> Result<Config, AllocError>
    ensures { IfOk result (λ config. config ≡ record { app = app.now; scene = Some scene.now }) }
{
    Ok(Config {
        app: app.clone()?,
        scene: Some(scene.clone()?),
    })
}
