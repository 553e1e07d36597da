//! Whether an action can be done where these objects are present.
ghost use Rattle.std.specs.Prelude.{◌≡◌, IfOk, Some};
ghost use Rattle.mh_model.specs.Faults.{fault_known};
ghost use Rattle.mh_model.specs.Known.{known_in};
ghost use Rattle.mh_model.specs.State.{all};
ghost use Rattle.mh_model.specs.Stuck.{member_fault};

use crate::known_now::{KnownNow, present_class};
use mh_base::ObjRef;
use mh_group::ActionName;
use mh_model::known::fault_known;
use mh_model::{Act, Fault, FaultKind, Signature};
use mh_service::Service;
use mh_store::Objects;
use std::alloc::AllocError;

/// What is wrong with the action, if anything is, where the receiver has these programs besides the
/// built-in ones. Where nothing is wrong, it takes no memory.
pub fn why_stuck(
    service: &Service,
    programs: &[Signature],
    objects: &Objects,
    act: &Act,
) -> Result<Option<Fault>, AllocError>
    ensures { let with = record service.now { programs = programs.now } in
        IfOk result (λ fault. fault ≡ fault_known (known_in with (all objects.now)) act.now) }
{
    let present = KnownNow {
        service,
        programs,
        objects,
    };
    fault_known(&present, act)
}

/// What is wrong with running or stopping this member of a group of objects, if anything is. The action
/// is the one that a fault names.
pub fn why_member_stuck(
    objects: &Objects,
    action: ActionName,
    at: &ObjRef,
) -> Result<Option<Fault>, AllocError>
    ensures { IfOk result (λ fault. fault ≡ member_fault action at.now (all objects.now)) }
{
    match present_class(objects, at) {
        Some(class) if class.is_visible() => Ok(None),
        Some(_) => fault(FaultKind::WrongClass, action, at),
        None => fault(FaultKind::Absent, action, at),
    }
}

fn fault(what: FaultKind, action: ActionName, at: &ObjRef) -> Result<Option<Fault>, AllocError>
    ensures { IfOk result (λ fault. fault
        ≡ Some (record { what = what; action = action; at = at.now })) }
{
    let at = at.clone()?;
    Ok(Some(Fault { what, action, at }))
}
