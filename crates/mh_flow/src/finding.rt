//! Finding the flow of a service.
//!
//! Promise: what is found is the least flow.
ghost use Rattle.std.specs.Prelude.{◌≡◌, map, IfOk};
ghost use Rattle.mh_flow.specs.Chart.{IsChart};
ghost use Rattle.mh_flow.specs.Opening.{system_of};
ghost use Rattle.mh_flow.specs.Sets.{IsLeast};
ghost use Rattle.mh_flow.specs.Solved.{IsFlowOf, named_in};

use crate::chart::Chart;
use crate::equipped::Equipped;
use crate::fixpoint::sets::Sets;
use crate::fixpoint::solve;
use crate::flow::Flow;
use crate::lists::Lists;
use crate::opening::Opening;
use crate::opening::walks::Walks;
use mh_base::both;
use std::alloc::{AllocError, Global};

/// The least sets of a service under these numbers.
fn sets_of(alloc: Global, service: &Equipped<'_>, chart: &Chart) -> Result<Sets, AllocError>
    requires { IsChart service.now chart.now }
    ensures { IfOk result (IsLeast (system_of service.now chart.now)) }
{
    let walks = Walks::of(alloc, &*service)?;
    let opening = Opening {
        alloc,
        service: &*service,
        chart: &*chart,
        walks: &walks,
    };
    solve(alloc, &opening)
}

/// The sets, and what each has. That memory is wanted for the one is asked where neither is held.
fn listed(alloc: Global, chart: &Chart, sets: Sets) -> Result<(Sets, Lists), AllocError>
    ensures { IfOk result (λ listed. (listed.0 ≡ sets) × (listed.1 ≡ map (named_in chart.now.members) sets)) }
{
    let lists = Lists::of(alloc, chart, &sets);
    both(Ok(sets), lists)
}

/// The least sets of a service under these numbers, and what each has.
fn found(alloc: Global, service: &Equipped<'_>, chart: &Chart) -> Result<(Sets, Lists), AllocError>
    requires { IsChart service.now chart.now }
    ensures least { IfOk result (λ found. IsLeast (system_of service.now chart.now) found.0) }
    ensures lists { IfOk result (λ found. found.1 ≡ map (named_in chart.now.members) found.0) }
{
    let sets = sets_of(alloc, service, chart)?;
    let found = listed(alloc, chart, sets)?;
    Ok(found)
}

/// The flow of the service.
pub fn flow_of(alloc: Global, service: &Equipped<'_>) -> Result<Flow, AllocError>
    ensures { IfOk result (IsFlowOf service.now) }
{
    let chart = Chart::of(alloc, service)?;
    let found = found(alloc, service, &chart)?;
    Ok(Flow::new(chart, found))
}
