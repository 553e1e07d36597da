//! The evidence of a refusal.
//!
//! Promise: it holds exactly where the definition says so.
ghost use Rattle.std.specs.Prelude.{◌≡◌, false};
ghost use Rattle.std.specs.Option.{option_copied, option_map_or};
ghost use Rattle.mh_verify.specs.Evidence as spec;

use crate::chains::{brings, last_written};
use crate::claims::Claim;
use crate::questions::Question;
use crate::rounds::{are_arrows_of, goes_round};
use crate::there::{There, is_configuration};
use mh_base::ObjRef;
use mh_group::ActionName;
use mh_model::Config;
use mh_service::Service;
use mh_verify::{Place, Refusal, RefusalKind};

/// Whether what the refusal carries shows what it says.
pub fn evidence_holds(refusal: &Refusal) -> bool
    ensures { result ≡ spec.evidence refusal.now }
{
    match refusal.kind {
        RefusalKind::AbsentObject
        | RefusalKind::WrongClass
        | RefusalKind::WrongKind
        | RefusalKind::TimerThroughVariable => shows_wrong(refusal, None),
        RefusalKind::HeldAbsent | RefusalKind::HeldWrongClass => shows_held(refusal),
        RefusalKind::Cycle => shows_cycle(refusal),
        RefusalKind::TooManySteps(_) | RefusalKind::WrongCall => true,
        RefusalKind::NoMemory => false,
    }
}

/// Whether the links of its chain bring the reference to the variable or list through which the place came to it, and
/// it is wrong there.
fn shows_held(refusal: &Refusal) -> bool
    ensures { result ≡ spec.shows_held refusal.now }
{
    is_brought(refusal) && shows_wrong(refusal, last_written(refusal.chain.as_slice()))
}

fn is_brought(refusal: &Refusal) -> bool
    ensures { result ≡ option_map_or (λ q. spec.brings refusal.now.service q refusal.now.chain) refusal.now.object false }
{
    let object = refusal.object.as_ref();
    object.is_some_and(|object| brings(&refusal.service, object, refusal.chain.as_slice()))
}

/// Whether the refusal names all that it takes, and it is so.
fn shows_wrong(refusal: &Refusal, holder: Option<&ObjRef>) -> bool
    ensures { result ≡ spec.shows_wrong refusal.now (option_copied holder.entry) }
{
    let Some(place) = &refusal.place else {
        return false;
    };
    let Some(config) = &refusal.config else {
        return false;
    };
    let Some(object) = &refusal.object else {
        return false;
    };
    let claim = Claim {
        kind: refusal.kind,
        at: object,
        holder,
    };
    is_configuration(&refusal.service, config)
        && is_wrong(&refusal.service, config, place, refusal.action, &claim)
}

/// Whether its arrows are of the service, each leads to the next, and the last to the first.
fn shows_cycle(refusal: &Refusal) -> bool
    ensures { result ≡ spec.shows_cycle refusal.now }
{
    let arrows = refusal.cycle.as_slice();
    are_arrows_of(&refusal.service, arrows) && goes_round(&refusal.service, arrows)
}

/// Whether what is claimed is wrong at the place, whatever of what is granted it is to which variables refer.
#[tactic(auto, using(crate::proofs::CaseLemmas::any_granted))]
fn is_wrong(
    service: &Service,
    config: &Config,
    place: &Place,
    action: Option<ActionName>,
    claim: &Claim<'_>,
) -> bool
    ensures { result ≡ spec.is_wrong service.now config.now place.now action claim.now }
{
    let there = There::of(service, config);
    let question = Question {
        service,
        there: &there,
        place,
        action,
        claim,
    };
    question.is_so_of(claim.at) || question.is_so_of_any()
}
