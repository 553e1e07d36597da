//! Why a service is refused, and where.
ghost use Rattle.std.specs.Prelude.{◌≡◌};
ghost use Rattle.mh_verify.specs.Kinds.{kind_number, kind_of, reason_number};
ghost use Rattle.mh_verify.specs.Refusals.{kind_for};

use mh_base::{GroupName, ObjRef, Seq};
use mh_flow::Link;
use mh_group::ActionName;
use mh_layers::{Arrow, InputKind};
use mh_model::{Config, Rank, Reason, Wrong};
use mh_service::Service;
use thiserror::Error;

/// What is wrong with an action, or with a member of a group of objects.
#[derive(Clone, Copy, Debug, PartialEq, Eq, Error)]
pub enum RefusalKind {
    #[error("V1: an object that is named is absent")]
    AbsentObject,
    #[error("V2: the action has no rule for objects of the class")]
    WrongClass,
    #[error("V3: a value or a variable is of another kind")]
    WrongKind,
    #[error("V4: an object that a variable or a list may hold is absent")]
    HeldAbsent,
    #[error("V5: the action has no rule for objects of the class of one that a variable or a list may hold")]
    HeldWrongClass,
    #[error("V6: an effect puts itself to work, by way of others")]
    Cycle,
    #[error("V7: the id of a timer is held by a variable")]
    TimerThroughVariable,
    #[error("V8: the start or an input can lead to more than 1,000,000 steps: {0:?}")]
    TooManySteps(InputKind),
    #[error("V9: the program is not known, or the call does not fit it")]
    WrongCall,
    #[error("memory was refused")]
    NoMemory,
}

impl RefusalKind {
    /// The number under which the refusal is reported; none for want of memory.
    pub fn number(self) -> Option<u32>
        ensures { result ≡ kind_number self }
    {
        match self.rank() {
            Some(number) => Some(u32::from(number)),
            None => None,
        }
    }

    /// The number, which is small.
    pub(crate) fn rank(self) -> Option<u8>
        ensures { result ≡ kind_number self }
    {
        match self {
            RefusalKind::AbsentObject => Some(1),
            RefusalKind::WrongClass => Some(2),
            RefusalKind::WrongKind => Some(3),
            RefusalKind::HeldAbsent => Some(4),
            RefusalKind::HeldWrongClass => Some(5),
            RefusalKind::Cycle => Some(6),
            RefusalKind::TimerThroughVariable => Some(7),
            RefusalKind::TooManySteps(_) => Some(8),
            RefusalKind::WrongCall => Some(9),
            RefusalKind::NoMemory => None,
        }
    }

    /// How what is wrong for this reason is refused, where the place came to the reference through a variable or a list,
    /// or did not.
    pub(crate) fn of_reason(reason: Reason, held: bool) -> RefusalKind
        ensures { result ≡ kind_of reason held }
    {
        match (reason, held) {
            (Reason::Absent, false) => RefusalKind::AbsentObject,
            (Reason::Absent, true) => RefusalKind::HeldAbsent,
            (Reason::WrongClass, false) => RefusalKind::WrongClass,
            (Reason::WrongClass, true) => RefusalKind::HeldWrongClass,
            (Reason::WrongKind, _) => RefusalKind::WrongKind,
            (Reason::TimerHeld, _) => RefusalKind::TimerThroughVariable,
            (Reason::Misfit, _) => RefusalKind::WrongCall,
        }
    }

    /// How this is refused.
    pub(crate) fn of_wrong(wrong: &Wrong<'_>) -> RefusalKind
        ensures { result ≡ kind_for wrong.now }
    {
        RefusalKind::of_reason(wrong.reason, wrong.through.is_some())
    }
}

/// The order in which the verifier names what is wrong: that of the numbers of refusals.
pub(crate) struct ByNumber;

impl Rank for ByNumber {
    ghost use Rattle.mh_verify.specs.Kinds.{reason_number};

    ghost order = { reason_number };

    fn rank(reason: Reason, held: bool) -> Option<u8> {
        RefusalKind::of_reason(reason, held).rank()
    }
}

/// The place of an action: an object, and the number of the action there, counted from 1 through the
/// effects of the object in their written order, slots last. With the index 0 it is the place of the object
/// itself.
#[derive(Clone, Drop, PartialEq, Eq)]
pub struct Place {
    pub group: GroupName,
    pub object: u32,
    pub index: usize,
}

/// Something wrong with an active action, or with a member of a group of objects.
#[derive(Drop)]
pub struct Found {
    pub kind: RefusalKind,
    pub place: Place,
    /// None where the place is that of an object itself.
    pub action: Option<ActionName>,
    /// The reference at the place that is wrong; of a call that does not fit its program the target's.
    pub object: ObjRef,
    /// The variable or the list that may hold it; none where it is written at the place.
    pub through: Option<ObjRef>,
    /// The configuration in which it is wrong.
    pub config: Config,
}

/// A service that is not accepted, and why. For want of memory there is no place, nor for too many steps; at that of an
/// object itself there is no action.
#[derive(Drop)]
pub struct Refusal {
    pub kind: RefusalKind,
    /// Of an effect that puts itself to work that of its first action.
    pub place: Option<Place>,
    pub action: Option<ActionName>,
    pub config: Option<Config>,
    /// The reference at the place that is wrong; none for an effect that puts itself to work.
    pub object: Option<ObjRef>,
    /// How it came to the variable or the list that may hold it; no link where it is written at the place.
    pub chain: Seq<Link>,
    /// The effects that put each other to work, each by an arrow to the next, and the last of them the first; none of any
    /// other refusal.
    pub cycle: Seq<Arrow>,
    pub service: Service,
}
