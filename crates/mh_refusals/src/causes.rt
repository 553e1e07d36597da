//! What is refused since something else is.
//!
//! Promise: each function answers what the definition of the same matter in `specs/Causes` says.
ghost use Rattle.std.specs.Prelude.{◌≡◌, ◌&&◌, ◌||◌};
ghost use Rattle.std.specs.Option.{option_copied};
ghost use Rattle.mh_verify.specs.Naming.{is_at as is_at_lem};
ghost use Rattle.mh_refusals.specs.Causes as spec;

use crate::places::by_place;
use crate::told::Told;
use mh_base::ObjRef;
use mh_flow::Link;
use mh_verify::{Found, Place, RefusalKind};

fn is_at(place: &Place, key: &ObjRef, index: usize) -> bool
    ensures { result ≡ is_at_lem place.now key.now index }
{
    place.group == key.group && place.object == key.number && place.index == index
}

/// Whether one of these is the action at the place.
fn pass(chain: &[Link], place: &Place) -> bool
    ensures { result ≡ spec.pass chain.now place.now }
{
    chain.iter().any(|link| is_at(place, &link.key, link.index))
}

/// Whether the reference came by way of the action at another place.
fn is_brought_by(told: &Told, other: &Told) -> bool
    ensures { result ≡ spec.is_brought_by told.now other.now }
{
    by_place(&other.found.place, &told.found.place).is_ne()
        && pass(told.chain.as_slice(), &other.found.place)
}

/// Whether an object is absent.
fn is_absence(kind: RefusalKind) -> bool
    ensures { result ≡ spec.is_absence kind }
{
    matches!(kind, RefusalKind::AbsentObject | RefusalKind::HeldAbsent)
}

fn names_absent(kind: RefusalKind) -> bool
    ensures { result ≡ spec.names_absent kind }
{
    matches!(kind, RefusalKind::AbsentObject)
}

/// Whether both are refused since one object is absent, which the second names.
fn want_one(first: &Found, second: &Found) -> bool
    ensures { result ≡ spec.want_one first.now second.now }
{
    is_absence(first.kind) && names_absent(second.kind) && first.object == second.object
}

/// Whether an object is absent that the other names at an earlier place.
fn shares(told: &Told, other: &Told) -> bool
    ensures { result ≡ spec.shares told.now other.now }
{
    by_place(&other.found.place, &told.found.place).is_lt() && want_one(&told.found, &other.found)
}

#[tactic(auto, unfolding(crate::specs::Causes::may_cause))]
fn may_cause(told: &Told, other: &Told) -> bool
    ensures { result ≡ spec.may_cause told.now other.now }
{
    is_brought_by(told, other) || shares(told, other)
}

/// The first of these that may be why this is refused.
pub fn cause_of<'a>(all: &'a [Told], told: &Told) -> Option<&'a Told>
    ensures { option_copied result ≡ spec.cause_of all.now told.now }
{
    all.iter().find(|other| may_cause(told, other))
}
