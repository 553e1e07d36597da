//! `verify`: the verdict on a service.
//!
//! Promise: a service is accepted only where it is acceptable and the start and each of its inputs lead to no more steps
//! than its bounds say, and refused only where it is not, or for want of memory; a refusal names what comes first, shows
//! what it says, and hands the service back.
ghost use Rattle.std.specs.Prelude.{◌≡◌, OnOk, IfOk, IfErr};
ghost use Rattle.mh_laws.specs.Acceptable.{IsAcceptable};
ghost use Rattle.mh_flow.specs.Equipment.{equipped};
ghost use Rattle.mh_flow.specs.Solved.{IsFlowOf, flow_in};
ghost use Rattle.mh_verify.specs.Evidence.{IsShown};
ghost use Rattle.mh_verify.specs.Free.{IsVerified};
ghost use Rattle.mh_verify.specs.Least.{IsJudged};
ghost use Rattle.mh_verify.specs.Order.{bare_refusal, refusal_of, unjudged, IsTold};
ghost use Rattle.mh_verify.specs.Refusals.{CostlyIsNot, CyclicIsNot, RefusedIsNot};
ghost use Rattle.mh_verify.specs.Verdicts.{IsVerdict, refusal_of_cycle};

use crate::bounding::bound;
use crate::verdict::{Cycle, Head, Verdict};
use crate::{
    Accepted, Coming, Found, Refusal, RefusalKind, Warrant, first_refusal, named_reference,
};
use mh_base::Seq;
use mh_flow::{Equipped, Flow, flow_of};
use mh_model::Signature;
use mh_service::Service;
use std::alloc::{AllocError, Global};

/// Accepts the service, where the receiver has these programs for it besides the built-in ones, or says what comes first:
/// of what is wrong in the configurations that are reached; else the effects that put themselves to work; else the kind
/// of input that can lead to too many steps. What a refusal carries shows it.
pub fn verify(alloc: Global, service: Service, programs: &[Signature]) -> Result<Accepted, Refusal>
    ensures same { IfOk result (λ accepted. accepted.service ≡ equipped service programs.now) }
    ensures verified { IfOk result (λ accepted. IsVerified accepted) }
    ensures acceptable { OnOk result (IsAcceptable (equipped service programs.now)) }
    ensures back { IfErr result (λ refusal. refusal.service ≡ service) }
    ensures told { IfErr result (IsTold service programs.now) }
    ensures shown { IfErr result IsShown }
{
    // what a refusal shows rests on what every service is, and that is known where there are groups
    let _ = service.groups();
    match judge(alloc, &service, programs) {
        Err(_) => Err(unjudged_service(alloc, service)),
        Ok(judged) => decide(alloc, service, judged),
    }
}

/// The flow of a service, the programs that the receiver has for it, and what is found of it.
#[derive(Drop)]
struct Judged {
    flow: Flow,
    programs: Vec<Signature>,
    verdict: Verdict,
}

fn judge(alloc: Global, service: &Service, programs: &[Signature]) -> Result<Judged, AllocError>
    ensures programs { IfOk result (λ judged. judged.programs.items ≡ programs.now) }
    ensures flow { IfOk result (λ judged. IsFlowOf (equipped service.now programs.now) judged.flow) }
    ensures verdict { IfOk result (λ judged. IsVerdict (equipped service.now programs.now) judged.flow judged.verdict) }
{
    let whole = Equipped::new(service, programs);
    let programs = copies(alloc, programs)?;
    let flow = flow_of(alloc, &whole)?;
    let verdict = verdict_of(alloc, &whole, &flow)?;
    Ok(Judged {
        flow,
        programs,
        verdict,
    })
}

/// What is wrong is found first, and what its effects come to only where nothing is.
fn verdict_of(alloc: Global, service: &Equipped<'_>, flow: &Flow) -> Result<Verdict, AllocError>
    requires { IsFlowOf service.now flow.now }
    ensures { IfOk result (IsVerdict service.now flow.now) }
{
    match first_of(alloc, service, flow)? {
        Some((found, coming)) => Ok(Verdict::Wrong(found, coming)),
        None => bound(alloc, service, flow),
    }
}

/// The first of what is wrong in the configurations that are reached, with the reference that is named.
fn first_of(
    alloc: Global,
    service: &Equipped<'_>,
    flow: &Flow,
) -> Result<Option<(Found, Coming)>, AllocError>
    requires { IsFlowOf service.now flow.now }
    ensures { IfOk result (IsJudged service.now (flow_in service.now flow.now)) }
{
    let configs = flow.configs(alloc)?;
    match first_refusal::first_in(alloc, service, flow, configs.as_slice())? {
        None => Ok(None),
        Some(found) => {
            let coming = named_reference::named(alloc, service, flow, &found)?;
            Ok(Some((found, coming)))
        }
    }
}

/// Copies of these, whose names and parameters are shared with them.
fn copies(alloc: Global, programs: &[Signature]) -> Result<Vec<Signature>, AllocError>
    ensures { IfOk result (λ copies. copies.items ≡ programs.now) }
{
    let mut copies = Vec::with_capacity(alloc, programs.len())?;
    for program in programs {
        copies.push(copy(program)?)?;
    }
    Ok(copies)
}

fn copy(program: &Signature) -> Result<Signature, AllocError>
    ensures { IfOk result (λ copy. copy ≡ program.now) }
{
    program.clone()
}

fn decide(alloc: Global, service: Service, judged: Judged) -> Result<Accepted, Refusal>
    requires flow { IsFlowOf (equipped service judged.programs.items) judged.flow }
    requires verdict { IsVerdict (equipped service judged.programs.items) judged.flow judged.verdict }
    ensures same { IfOk result (λ accepted. accepted.service ≡ equipped service judged.programs.items) }
    ensures verified { IfOk result (λ accepted. IsVerified accepted) }
    ensures acceptable { OnOk result (IsAcceptable (equipped service judged.programs.items)) }
    ensures back { IfErr result (λ refusal. refusal.service ≡ service) }
    ensures told { IfErr result (IsTold service judged.programs.items) }
{
    let Judged {
        flow,
        programs,
        verdict,
    } = judged;
    match verdict {
        Verdict::Wrong(found, coming) => {
            drop((flow, programs));
            Err(refused(alloc, service, found, coming))
        }
        Verdict::Cyclic(cycle) => {
            drop((flow, programs));
            Err(refused_for_cycle(alloc, service, cycle))
        }
        Verdict::Costly(kind) => {
            drop((flow, programs));
            let kind = RefusalKind::TooManySteps(kind);
            Err(refused_as(alloc, service, kind))
        }
        Verdict::Fine(bounds) => Ok(Warrant::new(flow, bounds, programs).join(service)),
    }
}

fn refused(alloc: Global, service: Service, found: Found, coming: Coming) -> Refusal
    ensures { result ≡ refusal_of service found coming }
{
    let Found {
        kind,
        place,
        action,
        config,
        ..
    } = found;
    let Coming { chain, at } = coming;
    Refusal {
        kind,
        place: Some(place),
        action,
        config: Some(config),
        object: Some(at),
        chain,
        cycle: Seq::new(alloc),
        service,
    }
}

fn refused_for_cycle(alloc: Global, service: Service, cycle: Cycle) -> Refusal
    ensures { result ≡ refusal_of_cycle service cycle }
{
    let Cycle { head, arrows } = cycle;
    let Head {
        place,
        action,
        config,
    } = head;
    Refusal {
        kind: RefusalKind::Cycle,
        place: Some(place),
        action,
        config: Some(config),
        object: None,
        chain: Seq::new(alloc),
        cycle: arrows,
        service,
    }
}

/// A refusal that has a kind alone.
fn refused_as(alloc: Global, service: Service, kind: RefusalKind) -> Refusal
    ensures { result ≡ bare_refusal kind service }
{
    Refusal {
        kind,
        place: None,
        action: None,
        config: None,
        object: None,
        chain: Seq::new(alloc),
        cycle: Seq::new(alloc),
        service,
    }
}

fn unjudged_service(alloc: Global, service: Service) -> Refusal
    ensures { result ≡ unjudged service }
{
    refused_as(alloc, service, RefusalKind::NoMemory)
}

/// The law that a service with something wrong in a configuration that its least flow reaches is not acceptable: what
/// is refused for that is refused rightly.
pub fn refused_is_not()
    ensures { RefusedIsNot }
{}

/// The law that a service whose effects put themselves to work by its least flow is accepted by no flow.
pub fn cyclic_is_not()
    ensures { CyclicIsNot }
{}

/// The law that a service whose start or whose inputs can lead to more steps by its least flow than are allowed is accepted
/// by no flow.
pub fn costly_is_not()
    ensures { CostlyIsNot }
{}
