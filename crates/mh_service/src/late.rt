//! Scenes whose files come late.
//!
//! Promise: what is marked are scenes of the service; else the first name that is none is told, and the service is
//! handed back.
ghost use Rattle.std.specs.Prelude.{◌≡◌, true, not, None, Some, IfOk, IfErr, OnOk};
ghost use Rattle.std.specs.List.{find, list_all};
ghost use Rattle.std.specs.Option.{option_copied};
ghost use Rattle.mh_group.specs.Table.{is_scene};
ghost use Rattle.mh_model.specs.Configuration.{is_group_of};

use crate::Service;
use mh_base::GroupName;
use std::alloc::AllocError;

/// Why scenes are not marked.
#[derive(Drop)]
pub enum UnmarkedWhy {
    /// The service has no scene of this name.
    NotAScene(GroupName),
    NoMemory,
}

/// Scenes were not marked: why, and the service as it was.
#[derive(Drop)]
pub struct Unmarked {
    pub why: UnmarkedWhy,
    pub service: Service,
}

impl Service {
    /// Marks these scenes as those whose files come late.
    pub fn with_late(self, names: Vec<GroupName>) -> Result<Service, Unmarked>
        ensures marked { IfOk result (λ service. service ≡ record self { late = names.items }) }
        ensures scenes { OnOk result (find (λ n. not (is_group_of is_scene self n)) names.items ≡ None) }
        ensures back { IfErr result (λ unmarked. unmarked.service ≡ self) }
        ensures refused { IfErr result (λ unmarked. (name : _) → unmarked.why ≡ UnmarkedWhy.NotAScene name → find (λ n. not (is_group_of is_scene self n)) names.items ≡ Some name) }
    {
        match first_unfit(&self, names.as_slice()) {
            Ok(None) => Ok(self.marked(names)),
            Ok(Some(name)) => Err(Unmarked {
                why: UnmarkedWhy::NotAScene(name),
                service: self,
            }),
            Err(_) => Err(Unmarked {
                why: UnmarkedWhy::NoMemory,
                service: self,
            }),
        }
    }
}

/// The first of these that is the name of no scene.
fn first_unfit(service: &Service, names: &[GroupName]) -> Result<Option<GroupName>, AllocError>
    ensures { IfOk result (λ name. name ≡ find (λ n. not (is_group_of is_scene service.now n)) names.now) }
{
    match unfit(service, names) {
        Some(name) => Ok(Some(name.clone()?)),
        None => Ok(None),
    }
}

fn unfit<'a>(service: &Service, names: &'a [GroupName]) -> Option<&'a GroupName>
    ensures { option_copied result ≡ find (λ n. not (is_group_of is_scene service.now n)) names.now }
{
    names.iter().find(|name| !service.has_scene(*name))
}
