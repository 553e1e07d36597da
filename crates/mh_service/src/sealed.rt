//! Services that are known in part: which scenes are there, and those that come later.
//!
//! Promise: a stub, its group with its class alone, stands for each scene that is not there; a group that is filled
//! in is judged as `Service::of_files` judges one, and where it is refused the service stays as it was. Whether it is
//! the group that was meant is left to the caller.
ghost use Rattle.std.specs.Prelude.{◌≡◌, ◌≢◌, ◌++◌, ◌&&◌, ◌∷◌, [], map, not, true, false, None, Some, IfOk, IfErr, OnOk, OnErr};
ghost use Rattle.mh_group.specs.Table.{is_scene};
ghost use Rattle.mh_model.specs.Configuration.{is_group_of};
ghost use Rattle.mh_service.specs.Limits.{has_room, whole_room};
ghost use Rattle.mh_service.specs.Refusals.{Refuses, refusal_of, has_double_number};
ghost use Rattle.mh_service.specs.Resolved.{resolved, parts_of, group_leads};
ghost use Rattle.mh_service.specs.Sealed.{as_file, missing, stub as stub_lem, with_group, unfilled_by};

use crate::refusing::has_double_number;
use crate::room::Room;
use crate::{Service, ServiceError, Why, resolving};
use mh_base::{GroupName, NameError, Seq};
use mh_group::{Class, Group, Written, WrittenName, group};
use mh_model::FixedPart;
use std::alloc::{AllocError, Global};

/// Why a group is not put in the place of a stub.
#[derive(Clone, Copy, Debug, PartialEq, Eq)]
pub enum UnfilledWhy {
    /// The service has no scene of this name, or the group is no scene.
    NotAScene,
    /// The group is none that a service may have: 32, 34 or 35.
    Unfit(Why),
    NoMemory,
}

impl From<AllocError> for UnfilledWhy {
    ghost use Rattle.std.specs.Prelude.{◌≡◌};
    ghost use Rattle.mh_service.specs.declared.sealed.UnfilledWhy.TheVariants.{NoMemory};

    ghost from_gives = { λ _ e. e ≡ NoMemory };

    fn from(_refused: AllocError) -> UnfilledWhy {
        UnfilledWhy::NoMemory
    }
}

impl Service {
    /// The service of these groups, in their order, with the application to start with. Those that are not there are
    /// its late scenes; how the others are written is not kept.
    pub fn of_seal(
        alloc: Global,
        groups: Vec<(GroupName, Option<Group>)>,
        start: GroupName,
    ) -> Result<Service, ServiceError>
        ensures groups { IfOk result (λ service. service.groups ≡ map resolved (map as_file groups.items)) }
        ensures start { IfOk result (λ service. service.start ≡ start) }
        ensures programs { IfOk result (λ service. service.programs ≡ []) }
        ensures files { IfOk result (λ service. service.files ≡ []) }
        ensures late { IfOk result (λ service. service.late ≡ missing groups.items) }
        ensures good { OnOk result (refusal_of start (map as_file groups.items) ≡ None) }
        ensures refused { IfErr result (Refuses (refusal_of start (map as_file groups.items))) }
    {
        let late = names_of_missing(alloc, groups.as_slice())?;
        let files = as_files(alloc, groups)?;
        match Service::of_files(alloc, files, start) {
            Ok(service) => Ok(service.partly(alloc, late)),
            Err(error) => Err(error),
        }
    }

    /// Puts the group in the place of the stub of its name.
    pub fn fill(
        &mut self,
        alloc: Global,
        name: &GroupName,
        group: &Group,
    ) -> Result<(), UnfilledWhy>
        ensures filled { OnOk result (self.new ≡ with_group name.now (parts_of name.now group.now) self.old) }
        ensures good { OnOk result (unfilled_by self.old name.now group.now ≡ None) }
        ensures refused { IfErr result (λ why. why ≢ UnfilledWhy.NoMemory → unfilled_by self.old name.now group.now ≡ Some why) }
        ensures kept { OnErr result (self.new ≡ self.old) }
    {
        let parts = self.parts_to_fill(alloc, name, group.written())?;
        let name = name.clone()?;
        self.put_scene(name, group, parts)?;
        Ok(())
    }

    /// What the group says of its objects, where it may stand in the place of the stub of its name.
    fn parts_to_fill(
        &self,
        alloc: Global,
        name: &GroupName,
        written: &Written,
    ) -> Result<Seq<FixedPart>, UnfilledWhy>
        ensures found { IfOk result (λ parts. parts ≡ parts_of name.now written.now) }
        ensures good { OnOk result (unfilled_by self.now name.now written.now ≡ None) }
        ensures refused { IfErr result (λ why. why ≢ UnfilledWhy.NoMemory → unfilled_by self.now name.now written.now ≡ Some why) }
    {
        if !(self.has_scene(name) && is_scene(written.class)) {
            return Err(UnfilledWhy::NotAScene);
        }
        if has_double_number(alloc, group::items(written))? {
            return Err(UnfilledWhy::Unfit(Why::DoubleNumber));
        }
        if !has_room(written) {
            return Err(UnfilledWhy::Unfit(Why::Limit));
        }
        match resolving::parts(alloc, name, written) {
            Ok(parts) => Ok(parts),
            Err(NameError::NoMemory) => Err(UnfilledWhy::NoMemory),
            Err(NameError::BadName) => Err(UnfilledWhy::Unfit(Why::BadReference)),
        }
    }
}

fn is_scene(class: Class) -> bool
    ensures { result ≡ is_scene class }
{
    matches!(class, Class::Scene)
}

/// Whether the group is within the limits of a service, taken alone.
fn has_room(written: &Written) -> bool
    ensures { result ≡ has_room whole_room written.now }
{
    Room::whole().after(written).is_some()
}

/// The names of the groups that are not there.
fn names_of_missing(
    alloc: Global,
    groups: &[(GroupName, Option<Group>)],
) -> Result<Vec<GroupName>, AllocError>
    ensures { IfOk result (λ names. names.items ≡ missing groups.now) }
{
    let mut names = Vec::new(alloc);
    for entry in groups {
        if entry.1.is_none() {
            names.push(entry.0.clone()?)?;
        }
    }
    Ok(names)
}

/// The groups, with a stub for each that is not there.
fn as_files(
    alloc: Global,
    groups: Vec<(GroupName, Option<Group>)>,
) -> Result<Vec<(GroupName, Group)>, AllocError>
    ensures { IfOk result (λ files. files.items ≡ map as_file groups.items) }
{
    let mut files = Vec::new(alloc);
    for entry in groups {
        files.push(as_file(alloc, entry))?;
    }
    Ok(files)
}

fn as_file(alloc: Global, entry: (GroupName, Option<Group>)) -> (GroupName, Group)
    ensures { result ≡ as_file entry }
{
    let (name, group) = entry;
    match group {
        Some(group) => (name, group),
        None => (name, stub(alloc)),
    }
}

/// The scene of which nothing is written.
#[tactic(auto, unfolding(mh_group::specs::Fit::misfit_of))]
fn stub(alloc: Global) -> Group
    ensures { result ≡ stub_lem }
{
    let Some(identifier) = WrittenName::new(Vec::new(alloc)) else {
        unreachable!()
    };
    let written = Written {
        class: Class::Scene,
        identifier,
        fields: Seq::new(alloc),
        items: None,
    };
    match Group::new(written) {
        Ok(group) => group,
        // No attribute is wanted of a scene.
        Err(_) => unreachable!(),
    }
}
