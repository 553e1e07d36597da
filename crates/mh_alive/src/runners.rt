//! What may run.
//!
//! Promise: what is gathered is what the definition that its clause names says.
ghost use Rattle.std.specs.Prelude.{◌≡◌, OnOk};
ghost use Rattle.std.specs.List.{flat_map};
ghost use Rattle.indexmap.specs.IndexSet.{insert_all};
ghost use Rattle.mh_model.specs.Reference.{same_key};
ghost use Rattle.mh_alive.specs.Runners as spec;
ghost use Rattle.mh_alive.specs.There.{sets_there};

use crate::references::{put, put_all, put_members};
use crate::there::There;
use indexmap::IndexSet;
use mh_base::ObjRef;
use mh_flow::Site;
use mh_group::{ActionName, Class};
use mh_model::parts::{is_initially_active, members};
use mh_model::{Act, Fixed, FixedPart};
use std::alloc::AllocError;

/// Whether the action can run what it is done to.
#[tactic(auto, unfolding(crate::specs::Runners::can_run))]
fn can_run(name: ActionName) -> bool
    ensures { result ≡ spec.can_run name }
{
    matches!(name, ActionName::Run | ActionName::Activate)
}

fn put_first(runners: &mut IndexSet<ObjRef>, part: &Fixed) -> Result<(), AllocError>
    ensures { OnOk result (runners.new.keys ≡ insert_all same_key runners.old.keys (spec.first_run part.now)) }
{
    if is_initially_active(part) {
        put(runners, &part.key)?;
    }
    Ok(())
}

fn put_items(
    runners: &mut IndexSet<ObjRef>,
    there: &There<'_>,
    part: &Fixed,
) -> Result<(), AllocError>
    ensures { OnOk result (runners.new.keys
        ≡ insert_all same_key runners.old.keys (spec.items_run (sets_there there.now) part.now)) }
{
    if matches!(part.class, Class::ListGroup) {
        put_all(runners, there.set(&part.key))?;
    }
    Ok(())
}

fn put_tokens(runners: &mut IndexSet<ObjRef>, part: &Fixed) -> Result<(), AllocError>
    ensures { OnOk result (runners.new.keys ≡ insert_all same_key runners.old.keys (spec.members_run part.now)) }
{
    if matches!(part.class, Class::TokenGroup) {
        put_members(runners, members(part))?;
    }
    Ok(())
}

/// Puts in what runs with the object, or by it, though no action runs it.
#[tactic(auto, using(crate::proofs::SetLemmas::put_three))]
fn put_part(
    runners: &mut IndexSet<ObjRef>,
    there: &There<'_>,
    part: &Fixed,
) -> Result<(), AllocError>
    ensures { OnOk result (runners.new.keys
        ≡ insert_all same_key runners.old.keys (spec.run_with (sets_there there.now) part.now)) }
{
    put_first(runners, part)?;
    put_items(runners, there, part)?;
    put_tokens(runners, part)
}

/// The same for each of these objects.
#[tactic(auto, using(crate::proofs::SetLemmas::put_both))]
pub(crate) fn put_parts(
    runners: &mut IndexSet<ObjRef>,
    there: &There<'_>,
    parts: &[FixedPart],
) -> Result<(), AllocError>
    ensures { OnOk result (runners.new.keys
        ≡ insert_all same_key runners.old.keys (flat_map (spec.run_with (sets_there there.now)) parts.now)) }
{
    for part in parts {
        put_part(runners, there, part.get())?;
    }
    Ok(())
}

/// Puts in what the action can run.
fn put_act(runners: &mut IndexSet<ObjRef>, there: &There<'_>, act: &Act) -> Result<(), AllocError>
    ensures { OnOk result (runners.new.keys
        ≡ insert_all same_key runners.old.keys (spec.run_by (sets_there there.now) act.now)) }
{
    if can_run(act.name) {
        put_all(runners, there.comes_to(&act.target))?;
    }
    Ok(())
}

/// Puts in what the actions at these sites can run.
#[tactic(auto, using(crate::proofs::SetLemmas::put_both))]
pub(crate) fn put_sites(
    runners: &mut IndexSet<ObjRef>,
    there: &There<'_>,
    sites: &[Site<'_>],
) -> Result<(), AllocError>
    ensures { OnOk result (runners.new.keys
        ≡ insert_all same_key runners.old.keys (flat_map (λ x. spec.run_by (sets_there there.now) x.act) sites.now)) }
{
    for site in sites {
        put_act(runners, there, site.act)?;
    }
    Ok(())
}
