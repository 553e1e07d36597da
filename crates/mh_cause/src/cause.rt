//! What is told of a refusal that names a reference: the cause, and the mend. Neither has a full stop; where the case is not
//! known there are none.
ghost use Rattle.std.specs.Prelude.{◌≡◌, ◌++◌, OnOk};
ghost use Rattle.mh_cause.specs.Causes.{cause, mend, timer_cause};

use crate::absent::put_absent_cause;
use crate::calls::{put_call_cause, put_call_mend};
use crate::misfit_mends::put_misfit_mend;
use crate::misfit_words::put_misfit_cause;
use crate::naming::put_named;
use crate::phrases::TIMER_HELD;
use crate::present::put_absent_mend;
use crate::refused::Refused;
use crate::unfit::{put_unfit_cause, put_unfit_mend};
use mh_base::ObjRef;
use mh_service::Service;
use mh_told::text::Text;
use std::alloc::{AllocError, Global};

/// Puts that the number of a timer is held by a variable.
#[tactic(auto, unfolding(crate::specs::Causes::timer_cause))]
fn put_timer_cause(text: &mut Text, at: &ObjRef) -> Result<(), AllocError>
    ensures { OnOk result (text.new ≡ text.old ++ timer_cause at.now) }
{
    text.put(TIMER_HELD)?;
    put_named(text, at)
}

/// Puts what is found, and what is wanted.
#[tactic(auto, unfolding(crate::specs::Causes::cause))]
pub fn put_cause(
    text: &mut Text,
    service: &Service,
    refused: &Refused<'_>,
) -> Result<(), AllocError>
    ensures { OnOk result (text.new ≡ text.old ++ cause service.now refused.now) }
{
    match refused.number {
        1 | 4 => put_absent_cause(text, service, refused),
        2 | 5 => put_unfit_cause(text, service, refused),
        3 => put_misfit_cause(text, service, refused),
        7 => put_timer_cause(text, refused.at),
        9 => put_call_cause(text, service, refused),
        _ => Ok(()),
    }
}

/// Puts how it is mended.
#[tactic(auto, unfolding(crate::specs::Causes::mend))]
pub fn put_mend(
    alloc: Global,
    text: &mut Text,
    service: &Service,
    refused: &Refused<'_>,
) -> Result<(), AllocError>
    ensures { OnOk result (text.new ≡ text.old ++ mend service.now refused.now) }
{
    match refused.number {
        1 | 4 => put_absent_mend(alloc, text, service, refused),
        2 | 5 => put_unfit_mend(alloc, text, service, refused),
        3 => put_misfit_mend(alloc, text, service, refused),
        7 => text.put(b"write the number"),
        9 => put_call_mend(text, service, refused),
        _ => Ok(()),
    }
}
