//! The actions with which groups close down when a transition begins.
ghost use Rattle.std.specs.Prelude.{◌≡◌, ◌++◌, IfOk, OnOk};
ghost use Rattle.mh_trace.specs.Trace as spec;

use crate::site::Site;
use crate::sites::push_close_down;
use mh_base::Seq;
use mh_group::ActionName;
use mh_machine::Machine;
use mh_model::Item;
use std::alloc::{AllocError, Global};

/// Where the actions stand that a transition puts when it begins: those with which the scene closes down, and then
/// the application, where that is left, too. Nothing of an entry with which none begins.
pub fn closing(
    alloc: Global,
    front: &Option<Item>,
    machine: &Machine,
) -> Result<Seq<Site>, AllocError>
    ensures { IfOk result (λ sites. sites ≡ spec.closing front.now machine.now) }
{
    let mut sites = Vec::new(alloc);
    if may_begin(front) {
        push_closing(&mut sites, front, machine)?;
    }
    Ok(Seq::from_vec(sites))
}

/// Whether a transition can begin with the item, or with what is taken where there is none.
fn may_begin(front: &Option<Item>) -> bool
    ensures { result ≡ spec.may_begin front.now }
{
    matches!(front, None | Some(Item::Act(_)))
}

fn push_closing(
    sites: &mut Vec<Site>,
    front: &Option<Item>,
    machine: &Machine,
) -> Result<(), AllocError>
    ensures { let s = machine.now in
        OnOk result (sites.new.items
        ≡ sites.old.items ++ (spec.scene_closing s.service s.scene ++ spec.application_closing (spec.leaves front.now) s)) }
{
    if let Some(scene) = machine.scene() {
        push_close_down(sites, machine.service(), scene)?;
    }
    if leaves(front) {
        push_close_down(sites, machine.service(), machine.application())?;
    }
    Ok(())
}

/// Whether the item leaves the application.
fn leaves(front: &Option<Item>) -> bool
    ensures { result ≡ spec.leaves front.now }
{
    match front {
        Some(Item::Act(act)) => matches!(act.name, ActionName::Launch | ActionName::Quit),
        _ => false,
    }
}
