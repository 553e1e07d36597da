//! `Service`: groups under their names, each a list of what its file says of its objects.
//!
//! Promise: the groups are those of the files in their order, resolved once; the parts of a group are its
//! own, and no two of them have one key. That the service can be played is left to others.
ghost use Rattle.std.specs.Prelude.{◌≡◌, IfOk, IfErr, IfSome, OnOk, None, true, false, [], ◌∷◌, ◌++◌, map};
ghost use Rattle.std.specs.List.{find, list_any, list_all};
ghost use Rattle.std.specs.Option.{option_copied};
ghost use Rattle.std.specs.Str.{bytes_eq};
ghost use Rattle.mh_group.specs.Fit.{is_group};
ghost use Rattle.mh_model.specs.Late.{written_at};
ghost use Rattle.mh_model.specs.Service.{part_at, group_parts, is_in};
ghost use Rattle.mh_model.specs.Configuration.{is_service, has_keys, are_apart};
ghost use Rattle.mh_service.specs.Resolved.{resolved, group_leads, parts_under};
ghost use Rattle.mh_service.specs.Refusals.{Refuses, RefusesAt, for_reason, refusal_of, bad_reference, double_name};

mod partial;

use crate::{ServiceError, Why, refusing, resolving};
use indexmap::IndexMap;
use mh_base::{GroupName, NameError, ObjRef, Seq};
use mh_group::Group;
use mh_model::{Fixed, FixedPart, SharedGroup, Signature, parts};
use std::alloc::{AllocError, Global};
use std::marker::Model;

/// The groups of a service (ISO/IEC 13522-5, the object space) in the order of their files, and the
/// application that is started first; and the programs that a receiver has for it beside the built-in
/// ones. A contract sees a finite map.
#[derive(Drop)]
pub struct Service {
    groups: IndexMap<GroupName, Seq<FixedPart>>,
    start: GroupName,
    programs: Vec<Signature>,
    /// The groups as their files write them.
    files: Vec<(GroupName, SharedGroup)>,
    /// The scenes whose files come late.
    late: Vec<GroupName>,
}

impl Model for Service {
    ghost use Rattle.std.specs.Prelude.{◌≡◌, true, []};
    ghost use Rattle.mh_model.specs.Service.{Service as ServiceValue};
    ghost use Rattle.mh_model.specs.Configuration.{is_service, has_keys};

    ghost Value = { ServiceValue };

    ghost view = { λ s. record { groups = s.groups.entries; start = s.start; programs = s.programs.items; files = s.files.items; late = s.late.items } };

    ghost invariant = { λ s.
        (is_service (record { groups = s.groups.entries; start = s.start; programs = s.programs.items; files = s.files.items; late = s.late.items }) ≡ true)
        × (has_keys (record { groups = s.groups.entries; start = s.start; programs = s.programs.items; files = s.files.items; late = s.late.items }) ≡ true) };
}

impl Service {
    /// The service of these files, with the application to start with, and with the built-in programs
    /// alone.
    pub fn of_files(
        alloc: Global,
        files: Vec<(GroupName, Group)>,
        start: GroupName,
    ) -> Result<Service, ServiceError>
        ensures groups { IfOk result (λ service. service.groups ≡ map resolved files.items) }
        ensures start { IfOk result (λ service. service.start ≡ start) }
        ensures programs { IfOk result (λ service. service.programs ≡ []) }
        ensures files { IfOk result (λ service. service.files ≡ files.items) }
        ensures late { IfOk result (λ service. service.late ≡ []) }
        ensures good { OnOk result (refusal_of start files.items ≡ None) }
        ensures refused { IfErr result (Refuses (refusal_of start files.items)) }
    {
        refusing::refuse_before(alloc, &start, files.as_slice())?;
        let groups = groups(alloc, files.as_slice())?;
        let kept = shared(alloc, files)?;
        Ok(Service {
            groups,
            start,
            programs: Vec::new(alloc),
            files: kept,
            late: Vec::new(alloc),
        })
    }

    /// What the file of a group says of its objects, if there is such a group.
    #[tactic(auto, using(crate::proofs::Lookups::lookup_find))]
    pub fn group(&self, name: &GroupName) -> Option<&[FixedPart]>
        ensures found { option_copied result ≡ parts_under name.now self.now.groups }
        ensures apart { IfSome result (λ parts. are_apart parts.now ≡ true) }
        ensures own { IfSome result (λ parts. list_all (is_in name.now) parts.now ≡ true) }
    {
        match self.groups.get(name) {
            None => None,
            Some(parts) => Some(parts.as_slice()),
        }
    }

    /// What the file of a group says of its objects; nothing where there is no such group.
    pub fn parts(&self, name: &GroupName) -> &[FixedPart]
        ensures parts { result.now ≡ group_parts self.now name.now }
        ensures apart { are_apart result.now ≡ true }
        ensures own { list_all (is_in name.now) result.now ≡ true }
    {
        match self.group(name) {
            None => &[],
            Some(parts) => parts,
        }
    }

    /// What is said of the object to which the reference leads, if there is one.
    pub fn find(&self, at: &ObjRef) -> Option<&Fixed>
        ensures { option_copied result ≡ part_at at.now (group_parts self.now at.now.group) }
    {
        parts::part_at(self.parts(&at.group), at)
    }

    /// What the files say of the objects of each group, under the names of the groups.
    pub fn groups(&self) -> &IndexMap<GroupName, Seq<FixedPart>>
        ensures entries { result.now.entries ≡ self.now.groups }
        ensures service { is_service self.now ≡ true }
        ensures keys { has_keys self.now ≡ true }
    {
        &self.groups
    }

    /// The name of the application that is started first.
    pub fn start(&self) -> &GroupName
        ensures { result.now ≡ self.now.start }
    {
        &self.start
    }

    /// The programs that a receiver has for it beside the built-in ones.
    pub fn programs(&self) -> &[Signature]
        ensures { result.now ≡ self.now.programs }
    {
        self.programs.as_slice()
    }

    /// The scenes whose files come late.
    pub fn late(&self) -> &[GroupName]
        ensures { result.now ≡ self.now.late }
    {
        self.late.as_slice()
    }

    /// The groups as their files write them, in order; none of a service that is known in part.
    pub fn files(&self) -> &[(GroupName, SharedGroup)]
        ensures { result.now ≡ self.now.files }
    {
        self.files.as_slice()
    }

    /// The group of this name as its file writes it, if there is one.
    pub fn written(&self, name: &GroupName) -> Option<&SharedGroup>
        ensures { option_copied result ≡ written_at name.now self.now.files }
    {
        match file_at(self.files.as_slice(), name) {
            Some(file) => Some(&file.1),
            None => None,
        }
    }

    /// Marks these scenes as those whose files come late, in the place of others.
    #[tactic(auto, unfolding(mh_model::specs::Configuration::is_service, mh_model::specs::Configuration::has_keys))]
    pub(crate) fn marked(self, late: Vec<GroupName>) -> Service
        ensures { result ≡ record self { late = late.items } }
    {
        let Service {
            groups,
            start,
            programs,
            files,
            late: _,
        } = self;
        Service {
            groups,
            start,
            programs,
            files,
            late,
        }
    }

    /// Puts these programs of a receiver in the place of those that it has, and answers these.
    #[tactic(auto, unfolding(mh_model::specs::Configuration::is_service, mh_model::specs::Configuration::has_keys))]
    pub fn exchange_programs(&mut self, programs: Vec<Signature>) -> Vec<Signature>
        ensures exchanged { self.new ≡ record self.old { programs = programs.items } }
        ensures before { result.items ≡ self.old.programs }
    {
        std::mem::replace(&mut self.programs, programs)
    }

    /// The service beside these programs of a receiver.
    #[tactic(auto, unfolding(mh_model::specs::Configuration::is_service, mh_model::specs::Configuration::has_keys))]
    pub fn with_programs(self, programs: Vec<Signature>) -> Service
        ensures { result ≡ record self { programs = programs.items } }
    {
        let Service {
            groups,
            start,
            programs: _,
            files,
            late,
        } = self;
        Service {
            groups,
            start,
            programs,
            files,
            late,
        }
    }
}

/// The groups, each to be shared.
fn shared(
    alloc: Global,
    files: Vec<(GroupName, Group)>,
) -> Result<Vec<(GroupName, SharedGroup)>, AllocError>
    ensures { IfOk result (λ shared. shared.items ≡ files.items) }
{
    let mut shared = Vec::new(alloc);
    for file in files {
        shared.push(share(alloc, file)?)?;
    }
    Ok(shared)
}

fn share(alloc: Global, file: (GroupName, Group)) -> Result<(GroupName, SharedGroup), AllocError>
    ensures { IfOk result (λ shared. shared ≡ file) }
{
    let (name, group) = file;
    let group = SharedGroup::new(alloc, group)?;
    Ok((name, group))
}

/// The file of this name, if there is one.
fn file_at<'a>(
    files: &'a [(GroupName, SharedGroup)],
    name: &GroupName,
) -> Option<&'a (GroupName, SharedGroup)>
    ensures { option_copied result ≡ find (λ f. bytes_eq f.0 name.now) files.now }
{
    files.iter().find(|file| file.0 == *name)
}

/// The groups under their names, each resolved once.
fn groups(
    alloc: Global,
    files: &[(GroupName, Group)],
) -> Result<IndexMap<GroupName, Seq<FixedPart>>, ServiceError>
    requires { double_name [] files.now ≡ None }
    ensures groups { IfOk result (λ groups. groups.entries ≡ map resolved files.now) }
    ensures allowed { OnOk result (list_all (λ f. is_group f.1) files.now ≡ true) }
    ensures good { OnOk result (bad_reference files.now ≡ None) }
    ensures refused { IfErr result (Refuses (for_reason Why.BadReference (bad_reference files.now))) }
{
    let mut groups = IndexMap::new(alloc);
    for file in files {
        add(alloc, &mut groups, file)?;
    }
    Ok(groups)
}

/// Puts the group of a file at the end.
fn add(
    alloc: Global,
    groups: &mut IndexMap<GroupName, Seq<FixedPart>>,
    file: &(GroupName, Group),
) -> Result<(), ServiceError>
    requires { list_any (bytes_eq file.now.0) (map (λ e. e.0) groups.old.entries) ≡ false }
    ensures added { OnOk result (groups.new.entries ≡ groups.old.entries ++ resolved file.now ∷ []) }
    ensures allowed { OnOk result (is_group file.now.1 ≡ true) }
    ensures good { OnOk result (group_leads file.now.0 file.now.1 ≡ true) }
    ensures refused { IfErr result (RefusesAt file.now) }
{
    let name = file.0.clone()?;
    let parts = parts_of(alloc, file)?;
    groups.insert(name, parts)?;
    Ok(())
}

fn parts_of(alloc: Global, file: &(GroupName, Group)) -> Result<Seq<FixedPart>, ServiceError>
    ensures found { IfOk result (λ parts. parts ≡ (resolved file.now).1) }
    ensures allowed { OnOk result (is_group file.now.1 ≡ true) }
    ensures good { OnOk result (group_leads file.now.0 file.now.1 ≡ true) }
    ensures refused { IfErr result (RefusesAt file.now) }
{
    match resolving::parts(alloc, &file.0, file.1.written()) {
        Ok(parts) => Ok(parts),
        Err(NameError::NoMemory) => Err(ServiceError::NoMemory),
        Err(NameError::BadName) => Err(ServiceError::Refused {
            why: Why::BadReference,
            group: file.0.clone()?,
        }),
    }
}
