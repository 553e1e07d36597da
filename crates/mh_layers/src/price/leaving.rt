//! What it comes to that a configuration is left, and that it is entered.
//!
//! Promise: the price of the node is added to the sum, by the numbers of nodes.
ghost use Rattle.std.specs.Prelude.{◌≡◌};
ghost use Rattle.mh_model.specs.Configuration.{scene_parts as scene_parts_lem};
ghost use Rattle.mh_model.specs.Service.{group_parts};
ghost use Rattle.mh_prices.specs.Meter.{Adds};
ghost use Rattle.mh_layers.specs.CostNode.{Enter, Leave};
ghost use Rattle.mh_layers.specs.CostNodes.{entered as entered_lem};
ghost use Rattle.mh_layers.specs.Numbered.{through};
ghost use Rattle.mh_layers.specs.Reading.{number as number_of, price_read};

use crate::numbered::at::At;
use crate::price::meter::Meter;
use crate::price::walk::Walk;
use mh_base::GroupName;
use mh_model::FixedPart;
use mh_prices::{enter, leave_all, leave_scene};
use std::alloc::AllocError;

fn scene_parts<'a>(here: &'a At<'_>) -> &'a [FixedPart]
    ensures { result.now ≡ scene_parts_lem here.now.reading.service here.now.config.scene }
{
    match here.scene() {
        None => &[],
        Some(scene) => here.numbered_service().service().parts(scene),
    }
}

fn application_parts<'a>(here: &'a At<'_>) -> &'a [FixedPart]
    ensures { result.now ≡ group_parts here.now.reading.service here.now.config.app }
{
    here.numbered_service().service().parts(&here.config().app)
}

/// The scene is left, or all.
pub(crate) fn leave<M: Meter>(
    walk: &Walk<'_, M>,
    all: bool,
    sum: M::Sum,
) -> Result<M::Sum, AllocError>
    ensures { let s = walk.now.here.now in let m = through (number_of s.reading) (M.meter walk.now.meter.now) in
        Adds M.seen m (price_read s.reading (Leave s.config all)) sum result }
{
    let here = walk.here;
    let scene = here.scene();
    let parts = scene_parts(here);
    let application = application_parts(here);
    if all {
        leave_all(walk, &here.config().app, scene, parts, application, sum)
    } else {
        leave_scene(walk, scene, parts, application, sum)
    }
}

/// The group that is entered when the configuration is.
fn entered<'a>(here: &'a At<'_>) -> &'a GroupName
    ensures { result.now ≡ entered_lem here.now.config here.now.config.scene }
{
    match here.scene() {
        None => &here.config().app,
        Some(scene) => scene,
    }
}

/// The configuration is entered.
pub(crate) fn entering<M: Meter>(walk: &Walk<'_, M>, sum: M::Sum) -> Result<M::Sum, AllocError>
    ensures { let s = walk.now.here.now in let m = through (number_of s.reading) (M.meter walk.now.meter.now) in
        Adds M.seen m (price_read s.reading (Enter s.config)) sum result }
{
    let group = entered(walk.here);
    let parts = walk.here.numbered_service().service().parts(group);
    enter(walk, group, parts, sum)
}
