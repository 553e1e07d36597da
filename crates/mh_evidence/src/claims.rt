//! Claims: what is said to be wrong, and whether it is just this.
ghost use Rattle.std.specs.Prelude.{◌≡◌, ◌==◌, ◌&&◌};
ghost use Rattle.std.specs.Option.{option_copied, option_eq};
ghost use Rattle.mh_model.specs.Faults as spec;
ghost use Rattle.mh_model.specs.Known.{class_at};
ghost use Rattle.mh_model.specs.Service.{group_parts};
ghost use Rattle.mh_verify.specs.Evidence.{is_through};
ghost use Rattle.mh_verify.specs.Kinds.{kind_number, kind_of};
ghost use Rattle.mh_evidence.specs.Cases.{claims};

use crate::there::There;
use mh_base::ObjRef;
use mh_group::Class;
use mh_model::Reason;
use mh_service::Service;
use mh_verify::RefusalKind;
use std::marker::Model;

/// What is said to be wrong.
#[derive(Drop)]
pub(crate) struct Claim<'a> {
    pub kind: RefusalKind,
    /// The reference that is named.
    pub at: &'a ObjRef,
    /// For V4 and V5 the variable or the list that is said to hold it.
    pub holder: Option<&'a ObjRef>,
}

impl<'a> Model for Claim<'a> {
    ghost use Rattle.std.specs.Option.{option_copied};
    ghost use Rattle.mh_verify.specs.Evidence.{Claim as ClaimValue};

    ghost Value = { ClaimValue };

    ghost view = { λ c. record { kind = c.kind; at = c.at.now; holder = option_copied c.holder } };
}

/// A claim, and what it is held against: a service, what is present, and one reference that is granted.
#[derive(Drop)]
pub(crate) struct Case<'a> {
    pub service: &'a Service,
    pub there: &'a There<'a>,
    /// To this each variable refers, and each list has it.
    pub at: &'a ObjRef,
    pub claim: &'a Claim<'a>,
}

impl<'a> Model for Case<'a> {
    ghost use Rattle.mh_evidence.specs.Cases.{Case as CaseValue};

    ghost Value = { CaseValue };

    ghost view = { λ c. record { service = c.service.now; parts = c.there.now; at = c.at.now; claim = c.claim.now } };
}

/// Whether what is wrong for this reason is refused in this way, where the place came to the reference through a
/// variable or a list, or did not.
fn is_kind(kind: RefusalKind, reason: Reason, held: bool) -> bool
    ensures { result ≡ option_eq (λ m n. m == n) (kind_number (kind_of reason held)) (kind_number kind) }
{
    match (reason, held) {
        (Reason::Absent, false) => matches!(kind, RefusalKind::AbsentObject),
        (Reason::Absent, true) => matches!(kind, RefusalKind::HeldAbsent),
        (Reason::WrongClass, false) => matches!(kind, RefusalKind::WrongClass),
        (Reason::WrongClass, true) => matches!(kind, RefusalKind::HeldWrongClass),
        (Reason::WrongKind, _) => matches!(kind, RefusalKind::WrongKind),
        (Reason::TimerHeld, _) => matches!(kind, RefusalKind::TimerThroughVariable),
        (Reason::Misfit, _) => matches!(kind, RefusalKind::WrongCall),
    }
}

/// Whether the place came to the reference through the holder, if one is named.
fn is_through(holder: Option<&ObjRef>, through: Option<&ObjRef>) -> bool
    ensures { result ≡ is_through (option_copied holder.entry) (option_copied through.entry) }
{
    match (holder, through) {
        (None, _) => true,
        (Some(holder), Some(through)) => *holder == *through,
        (Some(_), None) => false,
    }
}

impl Case<'_> {
    /// Whether what is claimed is this, to which the place came through that variable or list, or through none.
    #[tactic(auto, unfolding(crate::specs::Cases::claims))]
    pub(crate) fn is(&self, reason: Reason, through: Option<&ObjRef>, at: &ObjRef) -> bool
        ensures { result ≡ claims self.now (spec.wrong reason (option_copied through.entry) at.now) }
    {
        let claim = self.claim;
        is_kind(claim.kind, reason, through.is_some())
            && *claim.at == *at
            && is_through(claim.holder, through)
    }

    /// The same, where it is wrong unless this holds.
    #[tactic(auto, unfolding(crate::specs::Cases::claims))]
    pub(crate) fn is_unless(
        &self,
        holds: bool,
        reason: Reason,
        through: Option<&ObjRef>,
        at: &ObjRef,
    ) -> bool
        ensures { result ≡ claims self.now (spec.unless holds reason (option_copied through.entry) at.now) }
    {
        !holds && self.is(reason, through, at)
    }

    /// The class of an object that is present.
    pub(crate) fn class_of(&self, at: &ObjRef) -> Option<Class>
        ensures { result ≡ class_at at.now self.now.parts }
    {
        self.there.class_of(at)
    }

    /// The class of a group of the service, present or not.
    pub(crate) fn group_class(&self, at: &ObjRef) -> Option<Class>
        ensures { result ≡ class_at at.now (group_parts self.now.service at.now.group) }
    {
        self.service.find(at).map(|part| part.class)
    }
}
