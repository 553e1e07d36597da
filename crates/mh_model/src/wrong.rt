//! What is wrong at a place of an action, and which of several wrongs is named.
//!
//! Promise: whoever judges gives each reason a rank, or none, which passes it over; the first of the lowest
//! rank is named. Nothing is copied until it is known which that is.

pub(crate) mod arguments;
pub(crate) mod calls;
pub(crate) mod fit;
pub(crate) mod objects;

ghost use Rattle.std.specs.Prelude.{◌≡◌};
ghost use Rattle.std.specs.Option.{option_copied};
ghost use Rattle.mh_model.specs.Faults as spec;

use crate::Reason;
use mh_base::ObjRef;
use std::marker::Model;

/// Something that is wrong. It borrows the references at its place.
#[derive(Drop)]
pub struct Wrong<'a> {
    pub reason: Reason,
    /// The reference that is named.
    pub at: &'a ObjRef,
    /// The variable through which the place came to it.
    pub through: Option<&'a ObjRef>,
}

impl<'a> Model for Wrong<'a> {
    ghost use Rattle.std.specs.Option.{option_copied};
    ghost use Rattle.mh_model.specs.Faults.{Wrong};

    ghost Value = { Wrong };

    ghost view = { λ w. record { reason = w.reason; at = w.at.now; through = option_copied w.through } };
}

/// An order in which what is wrong is named.
pub trait Rank {
    ghost use Rattle.mh_model.specs.Faults.{Ranking};

    /// How late each reason is named; what has no rank is passed over.
    ghost order: { Ranking };

    /// How late the reason is named, where the place came to the reference through a variable, or did not.
    fn rank(reason: Reason, held: bool) -> Option<u8>
        ensures { result ≡ order reason held };
}

/// The one that is named of what was wrong so far, if anything was.
pub(crate) type Best<'a> = Option<Wrong<'a>>;

/// Whether one of this rank is named where this is the best so far.
fn is_named<R: Rank>(rank: Option<u8>, best: &Best<'_>) -> bool
    ensures { result ≡ spec.is_named R.order best.now rank }
{
    let Some(rank) = rank else {
        return false;
    };
    let Some(best) = best else {
        return true;
    };
    match R::rank(best.reason, best.through.is_some()) {
        Some(best) => rank < best,
        None => true,
    }
}

/// The one that is named of the best so far and of this.
pub(crate) fn found<'a, R: Rank>(
    best: &mut Best<'a>,
    reason: Reason,
    through: Option<&'a ObjRef>,
    at: &'a ObjRef,
)
    ensures { best.new ≡ spec.least R.order best.old (spec.wrong reason (option_copied through.entry) at.now) }
{
    if is_named::<R>(R::rank(reason, through.is_some()), best) {
        *best = Some(Wrong {
            reason,
            at,
            through,
        });
    }
}

/// The best so far stays where this holds, else the one is named that comes first of it and of this.
pub(crate) fn unless<'a, R: Rank>(
    best: &mut Best<'a>,
    holds: bool,
    reason: Reason,
    through: Option<&'a ObjRef>,
    at: &'a ObjRef,
)
    ensures { best.new ≡ spec.least R.order best.old (spec.unless holds reason (option_copied through.entry) at.now) }
{
    if !holds {
        found::<R>(best, reason, through, at);
    }
}
