//! What is found of a service that the verifier refuses, behind its refusal: what is wrong at other places.
//!
//! Promise: each function answers or pushes what the definition of the same matter in `specs/Others` says.
ghost use Rattle.std.specs.Prelude.{◌≡◌, ◌++◌, drop, map, IfOk, OnOk};
ghost use Rattle.std.specs.Option.{option_copied};
ghost use Rattle.mh_findings.specs.declared.finding.Grade.TheVariants.{Refused as refused_grade};
ghost use Rattle.mh_refusals.specs.Causes.{cause_of as cause_of_lem};
ghost use Rattle.mh_why.specs.Cases.{holder_of as holder_of_lem, refusal_cause, refusal_detail, refusal_mend};
ghost use Rattle.mh_judged.specs.Advised.{found_as as found_as_lem};
ghost use Rattle.mh_judged.specs.Refusals as refusals;
ghost use Rattle.mh_judged.specs.Others as spec;

use crate::advice::found_as;
use crate::marked::Marked;
use crate::refused::{case_or_row, rule_of_kind};
use crate::related::{push_links, push_named};
use mh_base::{ObjRef, Seq};
use mh_cause::{Detail, Refused, detail_of, put_cause, put_mend};
use mh_findings::{Finding, Grade, Related, Words};
use mh_flow::Link;
use mh_places::Directory;
use mh_refusals::{Told, cause_of};
use mh_service::Service;
use mh_told::text::Text;
use mh_why::Case;
use std::alloc::{AllocError, Global};

/// Pushes what is found of all these but the first.
pub(crate) fn push_others(
    alloc: Global,
    found: &mut Vec<Finding>,
    service: &Service,
    folder: &[u8],
    directory: &Directory<'_>,
    all: &[Told],
) -> Result<(), AllocError>
    ensures { OnOk result (found.new.items
        ≡ found.old.items ++ spec.told_findings service.now folder.now directory.now all.now) }
{
    let others = all.get(1..).unwrap_or(&[]);
    let marked = Marked::of(alloc, directory)?;
    push_each(alloc, found, service, folder, &marked, all, others)
}

/// Pushes what is found of these, which are among all.
fn push_each(
    alloc: Global,
    found: &mut Vec<Finding>,
    service: &Service,
    folder: &[u8],
    marked: &Marked<'_>,
    all: &[Told],
    others: &[Told],
) -> Result<(), AllocError>
    ensures { OnOk result (found.new.items
        ≡ found.old.items ++ map (spec.told_finding service.now folder.now marked.now all.now) others.now) }
{
    for told in others {
        found.push(told_finding(alloc, service, folder, marked, all, told)?)?;
    }
    Ok(())
}

#[tactic(auto, unfolding(crate::specs::Others::told_finding, crate::specs::Refusals::refusal_advice))]
fn told_finding(
    alloc: Global,
    service: &Service,
    folder: &[u8],
    marked: &Marked<'_>,
    all: &[Told],
    told: &Told,
) -> Result<Finding, AllocError>
    ensures { IfOk result (λ finding.
        finding ≡ spec.told_finding service.now folder.now marked.now all.now told.now) }
{
    let rule = rule_of_kind(alloc, told.found.kind)?;
    let case = case_told(alloc, service, told)?;
    finding_by(alloc, folder, marked, all, told, rule.as_slice(), &case)
}

/// The same, by its rule and its case.
fn finding_by(
    alloc: Global,
    folder: &[u8],
    marked: &Marked<'_>,
    all: &[Told],
    told: &Told,
    rule: &[u8],
    case: &Case,
) -> Result<Finding, AllocError>
    ensures { IfOk result (λ finding. finding
        ≡ found_as_lem refused_grade rule.now (spec.told_site folder.now marked.now told.now case.now.detail)
        (refusals.case_or_row rule.now case.now.cause case.now.mend) (spec.related_told folder.now marked.now all.now told.now)) }
{
    let place = &told.found.place;
    let at = marked.part_site(alloc, folder, place, case.detail)?;
    let advice = case_or_row(alloc, rule, case)?;
    let related = related_told(alloc, folder, marked, all, told)?;
    found_as(alloc, Grade::Refused, rule, at, advice, related)
}

/// The cause and the mend, by the case.
fn case_told(alloc: Global, service: &Service, told: &Told) -> Result<Case, AllocError>
    ensures cause { IfOk result (λ case. case.cause ≡ refusal_cause (spec.refusal_told service.now told.now)) }
    ensures mend { IfOk result (λ case. case.mend ≡ refusal_mend (spec.refusal_told service.now told.now)) }
    ensures detail { IfOk result (λ case. case.detail ≡ refusal_detail (spec.refusal_told service.now told.now)) }
{
    let cause = cause_told(alloc, service, told)?;
    let mend = mend_told(alloc, service, told)?;
    Ok(Case {
        cause,
        mend,
        detail: detail_told(service, told),
    })
}

#[tactic(auto, unfolding(mh_why::specs::Cases::refusal_cause))]
fn cause_told(alloc: Global, service: &Service, told: &Told) -> Result<Text, AllocError>
    ensures { IfOk result (λ text. text ≡ refusal_cause (spec.refusal_told service.now told.now)) }
{
    let mut text = Text::new(alloc);
    put_cause(&mut text, service, &refused_by(told))?;
    Ok(text)
}

#[tactic(auto, unfolding(mh_why::specs::Cases::refusal_mend))]
fn mend_told(alloc: Global, service: &Service, told: &Told) -> Result<Text, AllocError>
    ensures { IfOk result (λ text. text ≡ refusal_mend (spec.refusal_told service.now told.now)) }
{
    let mut text = Text::new(alloc);
    put_mend(alloc, &mut text, service, &refused_by(told))?;
    Ok(text)
}

#[tactic(auto, unfolding(mh_why::specs::Cases::refusal_detail))]
fn detail_told(service: &Service, told: &Told) -> Detail
    ensures { result ≡ refusal_detail (spec.refusal_told service.now told.now) }
{
    detail_of(service, &refused_by(told))
}

/// What is known of it.
fn refused_by(told: &Told) -> Refused<'_>
    ensures { result ≡ spec.refused_by told.now }
{
    Refused {
        number: told.found.kind.number().unwrap_or(0),
        group: &told.found.place.group,
        object: told.found.place.object,
        index: told.found.place.index,
        action: told.found.action,
        at: &told.found.object,
        holder: holder_of(told.chain.as_slice()),
    }
}

/// The variable or the list in which the last link of a chain puts a reference.
fn holder_of(chain: &[Link]) -> Option<&ObjRef>
    ensures { option_copied result ≡ holder_of_lem chain.now }
{
    match chain.last() {
        Some(link) => Some(&link.written),
        None => None,
    }
}

/// The places that have to do with it: the object that is named, the links, and what may be why.
#[tactic(auto, unfolding(crate::specs::Others::related_told))]
fn related_told(
    alloc: Global,
    folder: &[u8],
    marked: &Marked<'_>,
    all: &[Told],
    told: &Told,
) -> Result<Seq<Related>, AllocError>
    ensures { IfOk result (λ related. related ≡ spec.related_told folder.now marked.now all.now told.now) }
{
    let mut related = Seq::new(alloc);
    push_named(
        alloc,
        &mut related,
        folder,
        marked.directory(),
        Some(&told.found.object),
    )?;
    push_links(
        alloc,
        &mut related,
        folder,
        marked.directory(),
        told.chain.as_slice(),
    )?;
    push_cause(alloc, &mut related, folder, marked, cause_of(all, told))?;
    Ok(related)
}

/// Pushes where what may be why stands.
fn push_cause(
    alloc: Global,
    related: &mut Seq<Related>,
    folder: &[u8],
    marked: &Marked<'_>,
    cause: Option<&Told>,
) -> Result<(), AllocError>
    ensures { OnOk result (related.new
        ≡ related.old ++ spec.cause_related folder.now marked.now (option_copied cause.entry)) }
{
    match cause {
        None => Ok(()),
        Some(cause) => related.push(cause_at(alloc, folder, marked, cause)?),
    }
}

fn cause_at(
    alloc: Global,
    folder: &[u8],
    marked: &Marked<'_>,
    cause: &Told,
) -> Result<Related, AllocError>
    ensures { IfOk result (λ related. related ≡ spec.cause_at folder.now marked.now cause.now) }
{
    let place = &cause.found.place;
    let at = marked.part_site(alloc, folder, place, Detail::Unknown)?;
    let what = Words::of_bytes(alloc, b"what is refused here may be why")?;
    Ok(Related { at, what })
}
