//! What is found of a service that the verifier refuses.
//!
//! Promise: each function answers what the definition of the same matter in `specs/Refusals` says.
ghost use Rattle.std.specs.Prelude.{◌≡◌, IfOk};
ghost use Rattle.std.specs.Option.{option_copied};
ghost use Rattle.mh_findings.specs.declared.finding.Grade.TheVariants.{Refused};
ghost use Rattle.mh_judged.specs.Advised.{found_as};
ghost use Rattle.mh_judged.specs.Refusals as spec;

use crate::advice::{Advice, advice_in, advised, found_as};
use crate::related::related_to;
use crate::sites::{part_site, site_at};
use mh_cause::Detail;
use mh_findings::{Finding, Grade, Site};
use mh_places::Directory;
use mh_told::text::Text;
use mh_verify::{Place, Refusal, RefusalKind};
use mh_why::explanation::advice::refusals;
use mh_why::{Case, case_of};
use std::alloc::{AllocError, Global};

/// What is found of a refusal, where the application of this name starts.
#[tactic(auto, unfolding(crate::specs::Refusals::refusal_finding, crate::specs::Refusals::refusal_advice))]
pub(crate) fn refusal_finding(
    alloc: Global,
    folder: &[u8],
    directory: &Directory<'_>,
    start: &[u8],
    refusal: &Refusal,
) -> Result<Finding, AllocError>
    ensures { IfOk result (λ finding.
        finding ≡ spec.refusal_finding folder.now directory.now start.now refusal.now) }
{
    let rule = rule_of_kind(alloc, refusal.kind)?;
    let case = case_of(alloc, refusal)?;
    finding_by(
        alloc,
        folder,
        directory,
        start,
        refusal,
        rule.as_slice(),
        &case,
    )
}

/// The same, by its rule and its case.
fn finding_by(
    alloc: Global,
    folder: &[u8],
    directory: &Directory<'_>,
    start: &[u8],
    refusal: &Refusal,
    rule: &[u8],
    case: &Case,
) -> Result<Finding, AllocError>
    ensures { IfOk result (λ finding. finding
        ≡ found_as Refused rule.now (spec.refused_site folder.now directory.now start.now refusal.now.place case.now.detail)
        (spec.case_or_row rule.now case.now.cause case.now.mend) (spec.related_to folder.now directory.now refusal.now)) }
{
    let place = refusal.place.as_ref();
    let at = refused_site(alloc, folder, directory, start, place, case.detail)?;
    let advice = case_or_row(alloc, rule, case)?;
    let related = related_to(alloc, folder, directory, refusal)?;
    found_as(alloc, Grade::Refused, rule, at, advice, related)
}

/// The rule by which a refusal of this kind is told.
#[tactic(auto, unfolding(crate::specs::Refusals::rule_of_kind))]
pub(crate) fn rule_of_kind(alloc: Global, kind: RefusalKind) -> Result<Text, AllocError>
    ensures { IfOk result (λ rule. rule ≡ spec.rule_of_kind kind) }
{
    let mut rule = Text::new(alloc);
    rule.put(b"V")?;
    rule.put_number(u64::from(kind.number().unwrap_or(0)))?;
    Ok(rule)
}

/// The cause and the mend by the case; where that is not known, by the number.
pub(crate) fn case_or_row(alloc: Global, rule: &[u8], case: &Case) -> Result<Advice, AllocError>
    ensures { IfOk result (λ advice. advice ≡ spec.case_or_row rule.now case.now.cause case.now.mend) }
{
    match case.cause.as_slice() {
        [] => advice_in(alloc, refusals(), b"", rule),
        cause => advised(alloc, cause, case.mend.as_slice()),
    }
}

/// Where it is wrong.
fn refused_site(
    alloc: Global,
    folder: &[u8],
    directory: &Directory<'_>,
    start: &[u8],
    place: Option<&Place>,
    detail: Detail,
) -> Result<Site, AllocError>
    ensures { IfOk result (λ site.
        site ≡ spec.refused_site folder.now directory.now start.now (option_copied place.entry) detail) }
{
    match place {
        None => site_at(alloc, folder, start, None),
        Some(place) => part_site(alloc, folder, directory.files(), place, detail),
    }
}
