//! `Equipped`: a service with the programs that the receiver has for it.
//!
//! Promise: contracts see the one service of the definitions, and each function answers what that of
//! the service itself does, which no program changes.
ghost use Rattle.std.specs.Prelude.{◌≡◌, true, IfOk, OnOk};
ghost use Rattle.std.specs.List.{IsDistinct};
ghost use Rattle.std.specs.Option.{option_copied};
ghost use Rattle.mh_group.specs.Table.{is_scene, is_application};
ghost use Rattle.mh_model.specs.Configuration.{configurations};
ghost use Rattle.mh_model.specs.Configuration.{has_keys, is_group_of, is_service, same_config};
ghost use Rattle.mh_flow.specs.Index.{AreNamed};
ghost use Rattle.mh_model.specs.Service.{group_parts, part_at};
ghost use Rattle.mh_flow.specs.Equipment.{equipped};

use indexmap::IndexMap;
use mh_base::{GroupName, ObjRef, Seq};
use mh_model::{Config, Fixed, FixedPart, Signature};
use mh_service::Service;
use std::alloc::{AllocError, Global};
use std::marker::Model;

/// A service, and the programs that the receiver has for it besides the built-in ones. A contract sees
/// the service with these programs.
#[derive(Drop)]
pub struct Equipped<'a> {
    service: &'a Service,
    programs: &'a [Signature],
}

impl<'a> Model for Equipped<'a> {
    ghost use Rattle.mh_model.specs.Service.{Service as ServiceValue};
    ghost use Rattle.mh_flow.specs.Equipment.{equipped};

    ghost Value = { ServiceValue };

    ghost view = { λ e. equipped e.service.now e.programs.now };
}

impl<'a> Equipped<'a> {
    pub fn new(service: &'a Service, programs: &'a [Signature]) -> Equipped<'a>
        ensures { result ≡ equipped service.now programs.now }
    {
        Equipped { service, programs }
    }

    /// The programs that the receiver has.
    pub fn programs(&self) -> &'a [Signature]
        ensures { result.now ≡ self.now.programs }
    {
        self.programs
    }

    /// What the file of a group says of its objects; nothing where there is no such group.
    pub fn parts(&self, name: &GroupName) -> &'a [FixedPart]
        ensures { result.now ≡ group_parts self.now name.now }
    {
        self.service.parts(name)
    }

    /// What is said of the object to which the reference leads, if there is one.
    pub fn find(&self, at: &ObjRef) -> Option<&'a Fixed>
        ensures { option_copied result ≡ part_at at.now (group_parts self.now at.now.group) }
    {
        self.service.find(at)
    }

    /// What the files say of the objects of each group, under the names of the groups.
    #[tactic(auto, using(crate::proofs::EquippedLemmas::service_itself, crate::proofs::EquippedLemmas::keys_itself))]
    pub fn groups(&self) -> &'a IndexMap<GroupName, Seq<FixedPart>>
        ensures entries { result.now.entries ≡ self.now.groups }
        ensures named { AreNamed self.now }
        ensures keys { has_keys self.now ≡ true }
    {
        let groups = self.service.groups();
        // its length tells that no two of them have one name
        let _ = groups.len();
        groups
    }

    /// The scenes whose files come late.
    pub fn late(&self) -> &'a [GroupName]
        ensures { result.now ≡ self.now.late }
    {
        self.service.late()
    }

    /// The name of the application that is started first.
    pub fn start(&self) -> &'a GroupName
        ensures { result.now ≡ self.now.start }
    {
        self.service.start()
    }

    /// Whether a group of this name is an application.
    pub fn has_application(&self, name: &GroupName) -> bool
        ensures { result ≡ is_group_of is_application self.now name.now }
    {
        self.service.has_application(name)
    }

    /// Whether a group of this name is a scene.
    pub fn has_scene(&self, name: &GroupName) -> bool
        ensures { result ≡ is_group_of is_scene self.now name.now }
    {
        self.service.has_scene(name)
    }

    /// The configurations: each application without a scene, and then with each scene.
    #[tactic(auto, using(crate::proofs::EquippedLemmas::service_itself))]
    pub fn configurations(&self, alloc: Global) -> Result<Vec<Config>, AllocError>
        ensures each { IfOk result (λ configs. configs.items ≡ configurations self.now) }
        ensures once { IfOk result (λ configs. IsDistinct same_config configs.items) }
        ensures service { OnOk result (is_service self.now ≡ true) }
    {
        self.service.configurations(alloc)
    }
}
