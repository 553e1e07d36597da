//! The cause and the mend of a refusal, by its case: of what names a reference as `mh_cause` tells them, of a
//! cycle and of too many steps as they are told here.
ghost use Rattle.std.specs.Prelude.{◌≡◌, ◌++◌, IfOk, OnOk};
ghost use Rattle.std.specs.List.{list_any};
ghost use Rattle.std.specs.Option.{option_copied};
ghost use Rattle.mh_why.specs.Cases.{case_advice, case_words, cycle_cause, cycle_mend, enters, holder_of, is_verdict, plain_cause, plain_mend, refused_of, steps_cause, refusal_cause, refusal_detail, refusal_mend};

use crate::explanation::advice::{put_advice, refusals};
use crate::wrap::put_sentence;
use mh_base::ObjRef;
use mh_cause::{Detail, Refused, detail_of, put_cause, put_mend};
use mh_flow::Link;
use mh_layers::{Arrow, By, InputKind};
use mh_told::text::Text;
use mh_verify::{Refusal, RefusalKind};
use std::alloc::{AllocError, Global};

pub const ONE_EFFECT: &[u8] = b"this effect puts itself to work, and so would never end";

pub const SEVERAL_EFFECTS: &[u8] =
    b" effects put each other to work in a circle, and so would never end";

pub const AN_INPUT: &[u8] = b"what comes of one input of the kind ";

pub const TOO_MANY: &[u8] = b" can be more than 1,000,000 steps";

pub const WAIT_OUTSIDE: &[u8] =
    b"take one of them out of the circle: let it wait for an event from outside (a key, a timer), or let its link name data that the event does not have";

pub const ALONE_OUTSIDE: &[u8] =
    b"let it wait for an event from outside (a key, a timer), or let its link name data that the event does not have";

pub const ENTERED_AGAIN: &[u8] =
    b"let a timer or a key lead on: whoever enters a group again does its OnStartUp again";

pub const HAVE_FEWER: &[u8] =
    b"have fewer links that hear one event, fewer actions in what they put, or a timer between the parts of the work";

/// What is told of the case of a refusal: the cause and the mend, neither with a full stop; or nothing, where it is not known.
#[derive(Drop)]
pub struct Case {
    pub cause: Text,
    pub mend: Text,
    /// Which part of the action is wrong.
    pub detail: Detail,
}

/// No case.
pub fn no_case(alloc: Global) -> Case {
    Case {
        cause: Text::new(alloc),
        mend: Text::new(alloc),
        detail: Detail::Unknown,
    }
}

/// The case of a refusal.
pub fn case_of(alloc: Global, refusal: &Refusal) -> Result<Case, AllocError>
    ensures cause { IfOk result (λ case. case.cause ≡ refusal_cause refusal.now) }
    ensures mend { IfOk result (λ case. case.mend ≡ refusal_mend refusal.now) }
    ensures detail { IfOk result (λ case. case.detail ≡ refusal_detail refusal.now) }
{
    let cause = cause_of(alloc, refusal)?;
    let mend = mend_of(alloc, refusal)?;
    Ok(Case {
        cause,
        mend,
        detail: detail_for(refusal),
    })
}

fn cause_of(alloc: Global, refusal: &Refusal) -> Result<Text, AllocError>
    ensures { IfOk result (λ text. text ≡ refusal_cause refusal.now) }
{
    let mut text = Text::new(alloc);
    put_cause_for(&mut text, refusal)?;
    Ok(text)
}

#[tactic(auto, unfolding(crate::specs::Cases::refusal_cause))]
fn put_cause_for(text: &mut Text, refusal: &Refusal) -> Result<(), AllocError>
    ensures { OnOk result (text.new ≡ text.old ++ refusal_cause refusal.now) }
{
    match refused_of(refusal) {
        None => put_plain_cause(text, refusal.kind, refusal.cycle.as_slice().len()),
        Some(refused) => put_cause(text, &refusal.service, &refused),
    }
}

/// Puts the cause of a refusal that names no reference, with so many effects that put each other to work.
fn put_plain_cause(text: &mut Text, kind: RefusalKind, count: usize) -> Result<(), AllocError>
    ensures { OnOk result (text.new ≡ text.old ++ plain_cause kind count) }
{
    match kind {
        RefusalKind::Cycle => put_cycle_cause(text, count),
        RefusalKind::TooManySteps(input) => put_steps_cause(text, input),
        _ => Ok(()),
    }
}

#[tactic(auto, unfolding(crate::specs::Cases::cycle_cause))]
fn put_cycle_cause(text: &mut Text, count: usize) -> Result<(), AllocError>
    ensures { OnOk result (text.new ≡ text.old ++ cycle_cause count) }
{
    if count == 1 {
        return text.put(ONE_EFFECT);
    }
    text.put(b"these ")?;
    text.put_number(count as u64)?;
    text.put(SEVERAL_EFFECTS)
}

#[tactic(auto, unfolding(crate::specs::Cases::steps_cause))]
fn put_steps_cause(text: &mut Text, input: InputKind) -> Result<(), AllocError>
    ensures { OnOk result (text.new ≡ text.old ++ steps_cause input) }
{
    text.put(AN_INPUT)?;
    text.put(input.word())?;
    text.put(TOO_MANY)
}

fn mend_of(alloc: Global, refusal: &Refusal) -> Result<Text, AllocError>
    ensures { IfOk result (λ text. text ≡ refusal_mend refusal.now) }
{
    let mut text = Text::new(alloc);
    put_mend_for(alloc, &mut text, refusal)?;
    Ok(text)
}

#[tactic(auto, unfolding(crate::specs::Cases::refusal_mend))]
fn put_mend_for(alloc: Global, text: &mut Text, refusal: &Refusal) -> Result<(), AllocError>
    ensures { OnOk result (text.new ≡ text.old ++ refusal_mend refusal.now) }
{
    match refused_of(refusal) {
        None => put_plain_mend(text, refusal.kind, refusal.cycle.as_slice()),
        Some(refused) => put_mend(alloc, text, &refusal.service, &refused),
    }
}

/// Puts the mend of a refusal that names no reference, with these effects that put each other to work.
fn put_plain_mend(text: &mut Text, kind: RefusalKind, cycle: &[Arrow]) -> Result<(), AllocError>
    ensures { OnOk result (text.new ≡ text.old ++ plain_mend kind cycle.now) }
{
    match kind {
        RefusalKind::Cycle => put_cycle_mend(text, cycle),
        RefusalKind::TooManySteps(_) => text.put(HAVE_FEWER),
        _ => Ok(()),
    }
}

#[tactic(auto, unfolding(crate::specs::Cases::cycle_mend))]
fn put_cycle_mend(text: &mut Text, cycle: &[Arrow]) -> Result<(), AllocError>
    ensures { OnOk result (text.new ≡ text.old ++ cycle_mend cycle.now) }
{
    if enters_again(cycle) {
        return text.put(ENTERED_AGAIN);
    }
    if cycle.len() == 1 {
        return text.put(ALONE_OUTSIDE);
    }
    text.put(WAIT_OUTSIDE)
}

/// Whether a transition enters a group, on the way round.
fn enters_again(cycle: &[Arrow]) -> bool
    ensures { result ≡ list_any enters cycle.now }
{
    cycle.iter().any(enters)
}

fn enters(arrow: &Arrow) -> bool
    ensures { result ≡ enters arrow.now }
{
    matches!(arrow.by, By::Entered)
}

#[tactic(auto, unfolding(crate::specs::Cases::refusal_detail))]
fn detail_for(refusal: &Refusal) -> Detail
    ensures { result ≡ refusal_detail refusal.now }
{
    match refused_of(refusal) {
        None => Detail::Unknown,
        Some(refused) => detail_of(&refusal.service, &refused),
    }
}

/// What is known of a refusal that names a reference.
fn refused_of(refusal: &Refusal) -> Option<Refused<'_>>
    ensures { result ≡ refused_of refusal.now }
{
    match (&refusal.place, &refusal.object) {
        (Some(place), Some(at)) => Some(Refused {
            number: refusal.kind.number().unwrap_or(0),
            group: &place.group,
            object: place.object,
            index: place.index,
            action: refusal.action,
            at,
            holder: holder_of(refusal.chain.as_slice()),
        }),
        _ => None,
    }
}

/// The variable or the list in which the last link of a chain puts a reference.
fn holder_of(chain: &[Link]) -> Option<&ObjRef>
    ensures { option_copied result ≡ holder_of chain.now }
{
    match chain.last() {
        Some(link) => Some(&link.written),
        None => None,
    }
}

/// Puts what is told of a refusal with this number, where these are known of its case.
#[tactic(auto, unfolding(crate::specs::Cases::case_advice))]
pub(crate) fn put_case_advice(
    alloc: Global,
    text: &mut Text,
    cause: &[u8],
    mend: &[u8],
    number: &[u8],
) -> Result<(), AllocError>
    ensures { OnOk result (text.new ≡ text.old ++ case_advice cause.now mend.now number.now) }
{
    match cause {
        [_, ..] if is_verdict(number) => put_case_words(alloc, text, cause, mend),
        _ => put_advice(alloc, text, refusals(), number),
    }
}

/// Whether it is a number of the verifier.
fn is_verdict(number: &[u8]) -> bool
    ensures { result ≡ is_verdict number.now }
{
    matches!(number, [b'V', ..])
}

#[tactic(auto, unfolding(crate::specs::Cases::case_words))]
fn put_case_words(
    alloc: Global,
    text: &mut Text,
    cause: &[u8],
    mend: &[u8],
) -> Result<(), AllocError>
    ensures { OnOk result (text.new ≡ text.old ++ case_words cause.now mend.now) }
{
    put_sentence(alloc, text, b"  Cause: ", cause, b".")?;
    put_sentence(alloc, text, b"  Mend: ", mend, b".")
}
