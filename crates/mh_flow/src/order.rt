//! The orders of references and of configurations, by which the first of several is told.
//!
//! Promise: each function answers what the definition that its clause names says.
ghost use Rattle.std.specs.Prelude.{◌≡◌};
ghost use Rattle.std.specs.Option.{option_cmp};
ghost use Rattle.std.specs.Ordering.{nat_cmp};
ghost use Rattle.std.specs.Cmp.Lexicographic.{slice_cmp};
ghost use Rattle.mh_laws.specs.Least as least;
ghost use Rattle.mh_flow.specs.Orders as spec;

use mh_base::{GroupName, ObjRef};
use mh_model::Config;
use std::cmp::Ordering;

fn by_name(first: &GroupName, second: &GroupName) -> Ordering
    ensures { result ≡ slice_cmp nat_cmp first.now second.now }
{
    first.as_bytes().cmp(&second.as_bytes())
}

fn by_scene(first: &Option<GroupName>, second: &Option<GroupName>) -> Ordering
    ensures { result ≡ option_cmp (slice_cmp nat_cmp) first.now second.now }
{
    match (first, second) {
        (None, None) => Ordering::Equal,
        (None, Some(_)) => Ordering::Less,
        (Some(_), None) => Ordering::Greater,
        (Some(first), Some(second)) => by_name(first, second),
    }
}

/// By name of the application, then of the scene; no scene comes before any.
pub fn by_config(first: &Config, second: &Config) -> Ordering
    ensures { result ≡ spec.by_config first.now second.now }
{
    by_name(&first.app, &second.app).then(by_scene(&first.scene, &second.scene))
}

/// By name of the group, then by number.
pub fn by_reference(first: &ObjRef, second: &ObjRef) -> Ordering
    ensures { result ≡ least.by_reference first.now second.now }
{
    by_name(&first.group, &second.group).then(first.number.cmp(&second.number))
}
