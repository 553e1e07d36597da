//! What is known where an action is judged, and what is wrong with it.
//!
//! Promise: what is named is what the definition names, whoever asks: a machine that knows what its
//! variables hold, or a verifier that reads the files alone.
ghost use Rattle.std.specs.Prelude.{◌≡◌, IfOk, None};
ghost use Rattle.std.specs.Option.{option_copied};
ghost use Rattle.mh_model.specs.Faults as spec;

use crate::wrong::arguments::{arguments, timer};
use crate::wrong::calls::called;
use crate::wrong::objects::target;
use crate::wrong::{Rank, Wrong};
use crate::{Act, Fault, FaultKind, Param, Reason};
use mh_base::ObjRef;
use mh_group::{ActionName, Class};
use std::alloc::AllocError;

/// What is known where an action is judged.
pub trait Known {
    ghost use Rattle.mh_model.specs.Known.{Known as KnownLem, each_class};

    /// All that is known.
    ghost known: { Self → KnownLem };

    /// The class of an object that is present.
    fn class_of(&self, at: &ObjRef) -> Option<Class>
        ensures { result ≡ (known self.now).class_of at.now };

    /// The class of a group of the service, present or not.
    fn group_class(&self, at: &ObjRef) -> Option<Class>
        ensures { result ≡ (known self.now).group_class at.now };

    /// The objects to which a variable may refer.
    fn refers(&self, variable: &ObjRef) -> &[ObjRef]
        ensures { result.now ≡ (known self.now).refers variable.now };

    /// Some of these objects, in their order: the first of each class at least, and the first that is not present.
    fn of_each_class(&self, variable: &ObjRef) -> &[ObjRef]
        ensures { let of_class = (known self.now).class_of in
            each_class of_class result.now ≡ each_class of_class ((known self.now).refers variable.now) };

    /// The number that a variable holds.
    fn number(&self, variable: &ObjRef) -> Option<&i32>
        ensures { option_copied result ≡ (known self.now).number variable.now };

    /// The parameters of a program.
    fn takes(&self, program: &ObjRef) -> Option<&[Param]>
        ensures { option_copied result ≡ (known self.now).takes program.now };
}

/// What is named of all that is wrong with the action, in the order of `R`.
#[tactic(auto, using(crate::proofs::LeastLemmas::least_append))]
pub fn first_wrong<'a, R: Rank, K: Known>(known: &'a K, act: &'a Act) -> Option<Wrong<'a>>
    ensures { result ≡ spec.least R.order None (spec.wrongs (K.known known.now) act.now) }
{
    let mut best = None;
    target::<R, K>(&mut best, known, act);
    called::<R, K>(&mut best, known, act);
    timer::<R>(&mut best, act);
    arguments::<R, K>(
        &mut best,
        known,
        act,
        act.name.needs(),
        act.arguments.as_slice(),
    );
    best
}

/// The order in which a machine names what is wrong.
struct ByFault;

impl Rank for ByFault {
    ghost use Rattle.mh_model.specs.Faults.{machine_rank};

    ghost order = { machine_rank };

    fn rank(reason: Reason, _held: bool) -> Option<u8> {
        match FaultKind::of_reason(reason) {
            Some(what) => Some(what.rank()),
            None => None,
        }
    }
}

/// Why a machine cannot do the action, if it cannot. Where nothing is wrong it takes no memory.
pub fn fault_known<K: Known>(known: &K, act: &Act) -> Result<Option<Fault>, AllocError>
    ensures { IfOk result (λ fault. fault ≡ spec.fault_known (K.known known.now) act.now) }
{
    match first_wrong::<ByFault, K>(known, act) {
        Some(wrong) => fault_for(act.name, &wrong),
        None => Ok(None),
    }
}

/// The fault that a machine notes, with a copy of the reference.
fn fault_for(action: ActionName, wrong: &Wrong<'_>) -> Result<Option<Fault>, AllocError>
    ensures { let kind = spec.fault_kind wrong.now.reason in
        IfOk result (λ fault. fault ≡ spec.fault_for action wrong.now.at kind) }
{
    let Some(what) = FaultKind::of_reason(wrong.reason) else {
        return Ok(None);
    };
    Ok(Some(Fault {
        what,
        action,
        at: wrong.at.clone()?,
    }))
}
