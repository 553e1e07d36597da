//! What is wrong with an argument of an action, by what is needed at its place.
//!
//! Each function is given the best so far, and leaves there the one that is named of it and of its own.
//! Where nothing is wrong it is not touched.
ghost use Rattle.std.specs.Prelude.{◌≡◌, Some};
ghost use Rattle.std.specs.Option.{option_copied};
ghost use Rattle.mh_model.specs.Faults as spec;
ghost use Rattle.mh_model.specs.Faults.{least};

use crate::kinds::kind_of;
use crate::known::Known;
use crate::wrong::calls::passed_one;
use crate::wrong::fit::{ComparedBy, Fit, GoesWith, OfContent, OfData};
use crate::wrong::objects::{named, named_behind, untaken, untaken_through, variable};
use crate::wrong::{Best, Rank, found, unless};
use crate::{Act, Argument, Reason};
use mh_base::{Kind, ObjRef, Value};
use mh_group::{ActionName, Need};

/// All arguments, each by what is needed at its place, while there are both.
#[tactic(auto, using(crate::proofs::LeastLemmas::least_append))]
pub(crate) fn arguments<'a, R: Rank, K: Known>(
    best: &mut Best<'a>,
    known: &'a K,
    act: &'a Act,
    needs: &[Need],
    arguments: &'a [Argument],
)
    ensures { let k = K.known known.now in
        best.new ≡ least R.order best.old (spec.arguments_wrongs k act.now needs.now arguments.now) }
{
    let mut needs = needs;
    let mut arguments = arguments;
    while let Some((need, needs_behind)) = needs.split_first() {
        let Some((argument, arguments_behind)) = arguments.split_first() else {
            return;
        };
        needed::<R, K>(best, known, act, *need, argument);
        needs = behind(*need, needs_behind);
        arguments = arguments_behind;
    }
}

/// What is needed behind this.
fn behind(need: Need, needs: &[Need]) -> &[Need]
    ensures { result.now ≡ spec.needs_behind need needs.now }
{
    match need {
        Need::Arguments => &[Need::Arguments],
        _ => needs,
    }
}

/// An argument where this is needed.
fn needed<'a, R: Rank, K: Known>(
    best: &mut Best<'a>,
    known: &'a K,
    act: &'a Act,
    need: Need,
    argument: &'a Argument,
)
    ensures { let k = K.known known.now in
        best.new ≡ least R.order best.old (spec.argument_wrongs k act.now need argument.now) }
{
    match need {
        Need::Bool => value::<R, K, Kind>(best, known, act, &Kind::Bool, argument),
        Need::Int => integer::<R, K>(best, known, act, argument),
        Need::Octets => value::<R, K, Kind>(best, known, act, &Kind::Octets, argument),
        Need::Ref => reference::<R, K>(best, known, act, argument),
        Need::Content => value::<R, K, OfContent>(best, known, act, &OfContent, argument),
        Need::Data => value::<R, K, OfData>(best, known, act, &OfData, argument),
        Need::Event => value::<R, K, Kind>(best, known, act, &Kind::Int, argument),
        Need::Receiver(kind) => receiver::<R, K>(best, known, act, kind, argument),
        Need::Typed => typed::<R, K>(best, known, act, argument),
        Need::Arguments => passed_one::<R, K>(best, known, act, argument),
    }
}

/// A value of a kind that passes.
fn value<'a, R: Rank, K: Known, F: Fit>(
    best: &mut Best<'a>,
    known: &K,
    act: &'a Act,
    fit: &F,
    argument: &'a Argument,
)
    ensures { let fits = F.fits fit.now in
        let k = K.known known.now in
        best.new ≡ least R.order best.old (spec.value_wrongs fits k act.now argument.now) }
{
    match argument {
        Argument::Direct(value) => {
            let fits = fit.fits(kind_of(value));
            unless::<R>(best, fits, Reason::WrongKind, None, act.target.written_at())
        }
        Argument::Through(at, _) => variable::<R, F>(best, fit, at, known.class_of(at)),
        Argument::Receiver(at) => found::<R>(best, Reason::WrongKind, None, at),
    }
}

/// A variable that receives an answer of the kind.
fn receiver<'a, R: Rank, K: Known>(
    best: &mut Best<'a>,
    known: &K,
    act: &'a Act,
    kind: Kind,
    argument: &'a Argument,
)
    ensures { let k = K.known known.now in
        best.new ≡ least R.order best.old (spec.receiver_wrongs kind k act.now argument.now) }
{
    match argument {
        Argument::Direct(_) => found::<R>(best, Reason::WrongKind, None, act.target.written_at()),
        Argument::Through(at, _) => found::<R>(best, Reason::WrongKind, None, at),
        Argument::Receiver(at) => variable::<R, Kind>(best, &kind, at, known.class_of(at)),
    }
}

/// The reference of an object. A variable comes before what it holds.
#[tactic(auto, using(crate::proofs::LeastLemmas::least_append))]
fn reference<'a, R: Rank, K: Known>(
    best: &mut Best<'a>,
    known: &'a K,
    act: &'a Act,
    argument: &'a Argument,
)
    ensures { let k = K.known known.now in
        best.new ≡ least R.order best.old (spec.reference_wrongs k act.now argument.now) }
{
    match argument {
        Argument::Direct(Value::Object(at)) => named::<R, K>(best, known, act.name, None, at),
        Argument::Direct(_) => found::<R>(best, Reason::WrongKind, None, act.target.written_at()),
        Argument::Through(at, _) => {
            variable::<R, Kind>(best, &Kind::Object, at, known.class_of(at));
            named_behind::<R, K>(best, known, act, at);
        }
        Argument::Receiver(at) => found::<R>(best, Reason::WrongKind, None, at),
    }
}

/// A value with its kind, which has to go with that of the target.
fn typed<'a, R: Rank, K: Known>(
    best: &mut Best<'a>,
    known: &'a K,
    act: &'a Act,
    argument: &'a Argument,
)
    ensures { let k = K.known known.now in
        best.new ≡ least R.order best.old (spec.typed_wrongs k act.now argument.now) }
{
    match argument {
        Argument::Direct(value) => {
            untaken::<R, K, GoesWith>(best, known, act, &GoesWith(act.name, kind_of(value)))
        }
        Argument::Through(at, Some(kind)) => typed_through::<R, K>(best, known, act, at, *kind),
        Argument::Through(at, None) => found::<R>(best, Reason::WrongKind, None, at),
        Argument::Receiver(at) => found::<R>(best, Reason::WrongKind, None, at),
    }
}

/// The value that a variable holds, which is written to be of this kind.
#[tactic(auto, using(crate::proofs::LeastLemmas::least_append))]
fn typed_through<'a, R: Rank, K: Known>(
    best: &mut Best<'a>,
    known: &'a K,
    act: &'a Act,
    at: &'a ObjRef,
    kind: Kind,
)
    ensures { let k = K.known known.now in
        best.new ≡ least R.order best.old (spec.typed_wrongs k act.now (Argument.Through at.now (Some kind))) }
{
    variable::<R, Kind>(best, &kind, at, known.class_of(at));
    untaken_through::<R, K, GoesWith>(best, known, act, &GoesWith(act.name, kind), at);
}

/// A number. That of a test is its operator.
#[tactic(auto, using(crate::proofs::LeastLemmas::least_append))]
fn integer<'a, R: Rank, K: Known>(
    best: &mut Best<'a>,
    known: &'a K,
    act: &'a Act,
    argument: &'a Argument,
)
    ensures { let k = K.known known.now in
        best.new ≡ least R.order best.old (spec.integer_wrongs k act.now argument.now) }
{
    value::<R, K, Kind>(best, known, act, &Kind::Int, argument);
    if is_test(act.name) {
        operator::<R, K>(best, known, act, argument);
    }
}

fn is_test(action: ActionName) -> bool
    ensures { result ≡ spec.is_test action }
{
    matches!(action, ActionName::TestVariable)
}

/// An operator, which the variable that is tested has to have.
fn operator<'a, R: Rank, K: Known>(
    best: &mut Best<'a>,
    known: &'a K,
    act: &'a Act,
    argument: &'a Argument,
)
    ensures { let k = K.known known.now in
        best.new ≡ least R.order best.old (spec.operator_wrongs k act.now argument.now) }
{
    match argument {
        Argument::Direct(Value::Int(number)) => {
            untaken::<R, K, ComparedBy<'_>>(best, known, act, &ComparedBy(number))
        }
        Argument::Through(at, _) => operator_through::<R, K>(
            best,
            known,
            act,
            at,
            known.number(at),
        ),
        _ => {}
    }
}

/// The operator that a variable holds. One of which nothing is known is wrong.
fn operator_through<'a, R: Rank, K: Known>(
    best: &mut Best<'a>,
    known: &K,
    act: &Act,
    at: &'a ObjRef,
    number: Option<&i32>,
)
    ensures { let k = K.known known.now in
        let number = option_copied number.entry in
        best.new ≡ least R.order best.old (spec.unfit_through k act.now at.now number) }
{
    match number {
        Some(number) => {
            untaken_through::<R, K, ComparedBy<'_>>(best, known, act, &ComparedBy(number), at)
        }
        None => found::<R>(best, Reason::WrongKind, None, at),
    }
}

/// The id of a timer that is set, which is to be written itself.
pub(crate) fn timer<'a, R: Rank>(best: &mut Best<'a>, act: &'a Act)
    ensures { best.new ≡ least R.order best.old (spec.timer_wrongs act.now.name act.now.arguments) }
{
    if !matches!(act.name, ActionName::SetTimer) {
        return;
    }
    if let [Argument::Through(variable, _), ..] = act.arguments.as_slice() {
        found::<R>(best, Reason::TimerHeld, None, variable);
    }
}
