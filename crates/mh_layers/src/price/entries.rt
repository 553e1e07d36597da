//! What an event comes to that waits: the largest over the configurations in which it can be taken.
//!
//! Promise: the price is added to the sum, by the numbers of nodes.
ghost use Rattle.std.specs.Prelude.{◌≡◌, true, IfOk};
ghost use Rattle.std.specs.List.{list_all};
ghost use Rattle.mh_laws.specs.Flow.{reached};
ghost use Rattle.mh_laws.specs.Price.{most_price};
ghost use Rattle.mh_prices.specs.Meter.{Adds, raise};
ghost use Rattle.mh_layers.specs.Reading.{flow_read, context_in, there_by};

use crate::numbered::NumberedService;
use crate::numbered::named::reached;
use crate::numbered_node::Hears;
use crate::price::meter::Meter;
use crate::price::walk::Walk;
use mh_base::{EventType, ObjRef};
use mh_flow::is_entered;
use mh_model::Config;
use std::alloc::AllocError;

/// What such an event sets going that is taken in the configuration: nothing where the group of its source is not there,
/// and there no object is looked for.
#[tactic(auto, using(crate::proofs::OntoLemmas::absent_adds))]
fn fired_in<M: Meter>(
    numbered_service: &NumberedService<'_>,
    meter: &M,
    config: &Config,
    source: &ObjRef,
    kind: EventType,
    hears: Hears,
    sum: M::Sum,
) -> Result<M::Sum, AllocError>
    requires { reached (flow_read numbered_service.now) config.now ≡ true }
    ensures { let p = there_by (context_in numbered_service.now config.now) source.now kind hears in
        Adds M.seen (M.meter meter.now) p sum result }
{
    numbered_service.read();
    if !is_entered(config, &source.group) {
        return Ok(sum);
    }
    let here = reached(numbered_service, config);
    let walk = Walk { here: &here, meter };
    walk.fired_if_there(source, kind, hears, sum)
}

/// The largest over these configurations.
fn configs_from<M: Meter>(
    numbered_service: &NumberedService<'_>,
    meter: &M,
    configs: &[Config],
    source: &ObjRef,
    kind: EventType,
    hears: Hears,
    mark: M::Mark,
    sum: M::Sum,
) -> Result<(M::Mark, M::Sum), AllocError>
    requires { list_all (reached (flow_read numbered_service.now)) configs.now ≡ true }
    ensures { let r = numbered_service.now in
        let p = most_price (λ c. there_by (context_in r c) source.now kind hears) configs.now in
        IfOk result (λ x. (M.marked x.0, M.seen x.1) ≡ raise (M.meter meter.now) p (M.marked mark, M.seen sum)) }
{
    let mut mark = mark;
    let mut sum = sum;
    for config in configs {
        sum = fired_in(numbered_service, meter, config, source, kind, hears, sum)?;
        (mark, sum) = meter.next(mark, sum);
    }
    Ok((mark, sum))
}

/// The largest over all configurations.
pub(crate) fn configs_most<M: Meter>(
    numbered_service: &NumberedService<'_>,
    meter: &M,
    source: &ObjRef,
    kind: EventType,
    hears: Hears,
    sum: M::Sum,
) -> Result<M::Sum, AllocError>
    ensures { let r = numbered_service.now in
        let p = most_price (λ c. there_by (context_in r c) source.now kind hears) (flow_read r).configs in
        Adds M.seen (M.meter meter.now) p sum result }
{
    let Some((first, rest)) = numbered_service.configs().split_first() else {
        return Ok(sum);
    };
    let (mark, sum) = meter.aside(sum);
    let sum = fired_in(numbered_service, meter, first, source, kind, hears, sum)?;
    let (mark, sum) = meter.next(mark, sum);
    let (mark, sum) = configs_from(
        numbered_service,
        meter,
        rest,
        source,
        kind,
        hears,
        mark,
        sum,
    )?;
    Ok(meter.close(mark, sum))
}
