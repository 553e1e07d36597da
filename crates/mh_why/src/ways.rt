//! The dearest ways of the service of some files.
ghost use Rattle.std.specs.Prelude.{[], IfOk};
ghost use Rattle.std.specs.Option.{option_copied};
ghost use Rattle.mh_flow.specs.Equipment.{equipped};
ghost use Rattle.mh_flow.specs.Solved.{IsFlowOf};
ghost use Rattle.mh_why.specs.Ways.{AreWaysIn, AreWaysOf};

use mh_base::GroupName;
use mh_flow::{Equipped, Flow, flow_of};
use mh_layers::{LayersError, Way, dearest_ways};
use mh_service::Service;
use mh_told::reading::read_tagged_service;
use mh_told::unplayable::Unplayable;
use std::alloc::{AllocError, Global};

/// The dearest ways of the service that these files make, which starts with the application of this name, in which the
/// scenes come late that `late` names, a name a line, and whose files in the binary notation have the tags that `tags`
/// gives, a tag a line. None where they make no service, or where its effects put themselves to work.
pub fn ways_of(
    alloc: Global,
    tags: Option<&[u8]>,
    files: &[(GroupName, Vec<u8>)],
    start: &[u8],
    late: Option<&[u8]>,
) -> Result<Option<Vec<Way>>, AllocError>
    ensures { IfOk result (AreWaysOf (option_copied tags.entry) start.now (option_copied late.entry) files.now) }
{
    match read_tagged_service(alloc, tags, files, start, late) {
        Ok(service) => ways_in(alloc, &service),
        Err(Unplayable::NoMemory) => Err(AllocError),
        Err(_) => Ok(None),
    }
}

/// The dearest ways of a service, where its effects do not put themselves to work.
fn ways_in(alloc: Global, service: &Service) -> Result<Option<Vec<Way>>, AllocError>
    ensures { IfOk result (AreWaysIn (equipped service.now [])) }
{
    let whole = Equipped::new(service, &[]);
    let flow = flow_of(alloc, &whole)?;
    ways_by(alloc, &whole, &flow)
}

/// The same, by the flow of the service.
fn ways_by(
    alloc: Global,
    service: &Equipped<'_>,
    flow: &Flow,
) -> Result<Option<Vec<Way>>, AllocError>
    requires { IsFlowOf service.now flow.now }
    ensures { IfOk result (AreWaysIn service.now) }
{
    match dearest_ways(alloc, service, flow) {
        Ok(ways) => Ok(Some(ways)),
        Err(LayersError::Cycle) => Ok(None),
        Err(LayersError::NoMemory) => Err(AllocError),
    }
}
