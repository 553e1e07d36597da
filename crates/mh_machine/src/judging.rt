//! Whether an item is judged before it is done.
ghost use Rattle.std.specs.Prelude.{◌≡◌, None, IfOk};
ghost use Rattle.mh_model.specs.Stuck.{stuck};

use crate::works::Works;
use mh_model::{Act, Fault, Item};
use std::alloc::AllocError;

/// What is asked of an item before it is done.
pub trait Judging {
    ghost use Rattle.std.specs.Prelude.{Option};
    ghost use Rattle.mh_model.specs.declared.fault.Fault.{Fault as FaultLem};

    /// What may be wrong with the item.
    ghost allows: { Option FaultLem → Type 0 };

    /// What is wrong with the action, if anything is.
    fn act_fault(works: &Works, act: &Act) -> Result<Option<Fault>, AllocError>
        requires { allows (stuck (Item.Act act.now) works.now.state) }
        ensures { IfOk result (λ fault. fault ≡ stuck (Item.Act act.now) works.now.state) };

    /// What is wrong with the item, if anything is.
    fn item_fault(works: &Works, item: &Item) -> Result<Option<Fault>, AllocError>
        requires { allows (stuck item.now works.now.state) }
        ensures { IfOk result (λ fault. fault ≡ stuck item.now works.now.state) };
}

/// An item is judged, and removed where it is stuck.
pub struct Judged;

impl Judging for Judged {
    ghost allows = { λ fault. Unit {0} };

    fn act_fault(works: &Works, act: &Act) -> Result<Option<Fault>, AllocError> {
        works.act_fault(act)
    }

    fn item_fault(works: &Works, item: &Item) -> Result<Option<Fault>, AllocError> {
        works.item_fault(item)
    }
}

/// No item is judged, since none is stuck.
pub struct Free;

impl Judging for Free {
    ghost allows = { λ fault. fault ≡ None };

    fn act_fault(_: &Works, _: &Act) -> Result<Option<Fault>, AllocError> {
        Ok(None)
    }

    fn item_fault(_: &Works, _: &Item) -> Result<Option<Fault>, AllocError> {
        Ok(None)
    }
}
