//! Why one action is refused, in a given configuration.
//!
//! Promise: of all that is wrong with an action what comes first by its number is told. Which of several
//! actions are listed is left to `walk`.
ghost use Rattle.std.specs.Prelude.{◌≡◌, IfOk};
ghost use Rattle.std.specs.Option.{option_copied};
ghost use Rattle.mh_flow.specs.Solved.{held_by};
ghost use Rattle.mh_verify.specs.Refusals.{found_at, refused_at};
ghost use Rattle.mh_verify.specs.Samples.{AreSamples};

use crate::kinds::{ByNumber, kind_for};
use crate::samples::{KnownBySamples, Samples};
use mh_base::ObjRef;
use mh_flow::{Equipped, Held, Present, Site};
use mh_model::known::first_wrong;
use mh_model::{Config, Wrong};
use mh_verify::{Found, Place};
use std::alloc::AllocError;

/// A configuration of a service, with what is present there and what its variables and lists may hold.
#[derive(Drop)]
pub struct Scope<'a> {
    pub service: &'a Equipped<'a>,
    pub config: &'a Config,
    pub present: Present<'a>,
    pub held: Held,
}

/// A copy of the reference, if there is one.
pub fn copied(at: Option<&ObjRef>) -> Result<Option<ObjRef>, AllocError>
    ensures { IfOk result (λ copy. copy ≡ option_copied at.entry) }
{
    let Some(at) = at else {
        return Ok(None);
    };
    Ok(Some(at.clone()?))
}

/// The refusal of the action at a site, with which this is wrong.
fn found_at(scope: &Scope<'_>, site: &Site<'_>, wrong: &Wrong<'_>) -> Result<Found, AllocError>
    ensures { IfOk result (λ found. found ≡ found_at scope.now.config.now site.now wrong.now) }
{
    Ok(Found {
        kind: kind_for(wrong),
        place: Place {
            group: site.key.group.clone()?,
            object: site.key.number,
            index: site.index,
        },
        action: Some(site.act.name),
        object: wrong.at.clone()?,
        through: copied(wrong.through)?,
        config: scope.config.clone()?,
    })
}

/// Why the action at the site is refused, if it is, where these are samples of what variables hold.
pub fn refused_at(
    scope: &Scope<'_>,
    samples: &Samples,
    site: &Site<'_>,
) -> Result<Option<Found>, AllocError>
    requires { AreSamples scope.now.present (held_by scope.now.present scope.now.held) samples.now.entries }
    ensures { IfOk result (λ found. found ≡ refused_at scope.now.service.now scope.now.present
        (held_by scope.now.present scope.now.held) scope.now.config.now site.now) }
{
    let known = KnownBySamples::new(scope, samples);
    match first_wrong::<ByNumber, KnownBySamples<'_>>(&known, site.act) {
        Some(wrong) => Ok(Some(found_at(scope, site, &wrong)?)),
        None => Ok(None),
    }
}
