//! The kinds of refusals, and the order in which the verifier names what is wrong with an action.
ghost use Rattle.std.specs.Prelude.{◌≡◌};
ghost use Rattle.mh_verify.specs.Kinds.{kind_of as kind_of_lem};
ghost use Rattle.mh_verify.specs.Refusals.{kind_for as kind_for_lem};

use mh_model::{Rank, Reason, Wrong};
use mh_verify::RefusalKind;

/// How what is wrong for this reason is refused, where the place came to the reference through a variable or a list, or did
/// not.
fn kind_of(reason: Reason, held: bool) -> RefusalKind
    ensures { result ≡ kind_of_lem reason held }
{
    match (reason, held) {
        (Reason::Absent, false) => RefusalKind::AbsentObject,
        (Reason::Absent, true) => RefusalKind::HeldAbsent,
        (Reason::WrongClass, false) => RefusalKind::WrongClass,
        (Reason::WrongClass, true) => RefusalKind::HeldWrongClass,
        (Reason::WrongKind, _) => RefusalKind::WrongKind,
        (Reason::TimerHeld, _) => RefusalKind::TimerThroughVariable,
        (Reason::Misfit, _) => RefusalKind::WrongCall,
    }
}

/// How this is refused.
pub(crate) fn kind_for(wrong: &Wrong<'_>) -> RefusalKind
    ensures { result ≡ kind_for_lem wrong.now }
{
    kind_of(wrong.reason, wrong.through.is_some())
}

/// The order in which the verifier names what is wrong with an action: that of the numbers of refusals.
pub(crate) struct ByNumber;

impl Rank for ByNumber {
    ghost use Rattle.mh_verify.specs.Kinds.{reason_number};

    ghost order = { reason_number };

    fn rank(reason: Reason, held: bool) -> Option<u8> {
        match (reason, held) {
            (Reason::Absent, false) => Some(1),
            (Reason::Absent, true) => Some(4),
            (Reason::WrongClass, false) => Some(2),
            (Reason::WrongClass, true) => Some(5),
            (Reason::WrongKind, _) => Some(3),
            (Reason::TimerHeld, _) => Some(7),
            (Reason::Misfit, _) => Some(9),
        }
    }
}
