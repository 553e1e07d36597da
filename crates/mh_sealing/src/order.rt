//! `in_order`: the late scenes of a service in the order of its groups, in which a seal tells them.
ghost use Rattle.std.specs.Prelude.{◌≡◌, filter, map, IfOk};
ghost use Rattle.mh_model.specs.Late.{is_late_scene};
ghost use Rattle.mh_seal_laws.specs.Bringing.{AreScenes};
ghost use Rattle.mh_sealing.specs.Sealing.{in_order, late_among};

use indexmap::IndexSet;
use mh_base::GroupName;
use mh_model::SharedGroup;
use mh_service::contents::each_once;
use mh_service::{Service, Unmarked, UnmarkedWhy};
use std::alloc::{AllocError, Global};

/// The service with its late scenes in the order of its groups, each once.
pub fn in_order(alloc: Global, service: Service) -> Result<Service, AllocError>
    requires { AreScenes service service.late }
    ensures { IfOk result (λ ordered. ordered ≡ in_order service) }
{
    let names = late_in_order(alloc, &service)?;
    match service.with_late(names) {
        Ok(ordered) => Ok(ordered),
        Err(Unmarked { why, service: _ }) => match why {
            // What is late is a scene.
            UnmarkedWhy::NotAScene(_) => unreachable!(),
            UnmarkedWhy::NoMemory => Err(AllocError),
        },
    }
}

/// The names of the late scenes, in the order of the groups.
fn late_in_order(alloc: Global, service: &Service) -> Result<Vec<GroupName>, AllocError>
    ensures { IfOk result (λ names. names.items ≡ late_among service.now.late service.now.files) }
{
    let late = each_once(alloc, service.late())?;
    names_among(alloc, service.files(), &late)
}

/// The names of the files that are among these.
fn names_among(
    alloc: Global,
    files: &[(GroupName, SharedGroup)],
    late: &IndexSet<GroupName>,
) -> Result<Vec<GroupName>, AllocError>
    ensures { IfOk result (λ names. names.items ≡ late_among late.now.keys files.now) }
{
    let mut names = Vec::new(alloc);
    for file in files {
        if late.contains(&file.0) {
            names.push(file.0.clone()?)?;
        }
    }
    Ok(names)
}
