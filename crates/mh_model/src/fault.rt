//! Why an action cannot be done, or may not: reasons, and the faults that a machine notes.
ghost use Rattle.std.specs.Prelude.{◌≡◌};
ghost use Rattle.mh_model.specs.Faults as spec;

use mh_base::ObjRef;
use mh_group::ActionName;

/// Why a place of an action is wrong, for whoever judges it.
#[derive(Clone, Copy, PartialEq, Eq)]
pub enum Reason {
    /// An object that is named is not there.
    Absent,
    /// The action has no rule for objects of the class.
    WrongClass,
    /// A value or a variable is of another kind.
    WrongKind,
    /// The program is not known, or the call does not fit it.
    Misfit,
    /// The id of a timer that is set is held by a variable: beforehand it is not known which one is meant.
    TimerHeld,
}

/// What is wrong with an item that a machine cannot do.
#[derive(Clone, Copy, PartialEq, Eq)]
pub enum FaultKind {
    /// An object that it names is not there.
    Absent,
    /// An object that it names is of a class for which the action has no rule.
    WrongClass,
    /// A value that it is given is of another kind.
    WrongKind,
}

/// An item that could not be done: it is removed, and nothing else happens.
#[derive(Clone, Drop)]
pub struct Fault {
    pub what: FaultKind,
    pub action: ActionName,
    /// The reference at the place that is wrong.
    pub at: ObjRef,
}

impl FaultKind {
    /// What a machine notes for the reason. The last is none to it: it knows what its variables hold.
    pub(crate) fn of_reason(reason: Reason) -> Option<FaultKind>
        ensures { result ≡ spec.fault_kind reason }
    {
        match reason {
            Reason::Absent => Some(FaultKind::Absent),
            Reason::WrongClass => Some(FaultKind::WrongClass),
            Reason::WrongKind | Reason::Misfit => Some(FaultKind::WrongKind),
            Reason::TimerHeld => None,
        }
    }

    /// How late faults of the kind are named.
    pub(crate) fn rank(self) -> u8
        ensures { result ≡ spec.fault_rank self }
    {
        match self {
            FaultKind::Absent => 0,
            FaultKind::WrongClass => 1,
            FaultKind::WrongKind => 2,
        }
    }
}
