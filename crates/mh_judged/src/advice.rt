//! `Advice`: what is wrong, and how it is mended; and a finding that is made of it.
ghost use Rattle.std.specs.Prelude.{◌≡◌, [], map, IfOk};
ghost use Rattle.mh_why.specs.Advice.{cells};
ghost use Rattle.mh_judged.specs.Advised as spec;

use mh_base::Seq;
use mh_findings::{Finding, Grade, Related, Site, Words};
use mh_told::text::Text;
use mh_why::explanation::advice::{row_cause, row_mend, row_with};
use std::alloc::{AllocError, Global};

/// What is wrong, and the mend if one is known.
#[derive(Drop)]
pub(crate) struct Advice {
    pub(crate) what: Words,
    pub(crate) mend: Option<Words>,
}

pub(crate) fn advised(alloc: Global, what: &[u8], mend: &[u8]) -> Result<Advice, AllocError>
    ensures { IfOk result (λ advice. advice ≡ spec.advised what.now mend.now) }
{
    let what = Words::of_bytes(alloc, what)?;
    let mend = Words::of_bytes(alloc, mend)?;
    Ok(Advice {
        what,
        mend: Some(mend),
    })
}

/// What is wrong, where no mend is known.
pub(crate) fn stated(alloc: Global, what: &[u8]) -> Result<Advice, AllocError>
    ensures { IfOk result (λ advice. advice ≡ spec.stated what.now) }
{
    Ok(Advice {
        what: Words::of_bytes(alloc, what)?,
        mend: None,
    })
}

/// What a table has for a word, behind these words.
pub(crate) fn advice_in(
    alloc: Global,
    rows: &[[&[u8]; 3]],
    front: &[u8],
    word: &[u8],
) -> Result<Advice, AllocError>
    ensures { IfOk result (λ advice. advice ≡ spec.advice_in (map cells rows.now) front.now word.now) }
{
    match row_with(rows, word) {
        Some(row) => advised_by(alloc, front, row),
        None => stated(alloc, b""),
    }
}

fn advised_by(alloc: Global, front: &[u8], row: &[&[u8]; 3]) -> Result<Advice, AllocError>
    ensures { IfOk result (λ advice. advice ≡ spec.advised_by front.now (cells row.now)) }
{
    let mut what = Text::new(alloc);
    what.put(front)?;
    what.put(row_cause(row))?;
    advised(alloc, what.as_slice(), row_mend(row))
}

/// The finding with this rule at this place.
#[tactic(auto, unfolding(crate::specs::Advised::found_as))]
pub(crate) fn found_as(
    alloc: Global,
    grade: Grade,
    rule: &[u8],
    at: Site,
    advice: Advice,
    related: Seq<Related>,
) -> Result<Finding, AllocError>
    ensures { IfOk result (λ finding. finding ≡ spec.found_as grade rule.now at advice related) }
{
    let rule = Words::of_bytes(alloc, rule)?;
    let Advice { what, mend } = advice;
    Ok(Finding {
        grade,
        rule,
        at,
        what,
        mend,
        related,
    })
}
