//! What is wrong with an argument of an action, by what is needed at its place, and whether it is what is claimed.
ghost use Rattle.std.specs.Prelude.{◌≡◌};
ghost use Rattle.mh_model.specs.Faults as spec;
ghost use Rattle.mh_evidence.specs.Cases.{claims, known_by, passes};

use crate::claims::Case;
use crate::wrongs_kinds::Test;
use mh_base::{Kind, Value};
use mh_group::{ActionName, Need};
use mh_model::kinds::kind_of;
use mh_model::{Act, Argument, Reason};

/// What is needed behind this.
fn behind(need: Need, needs: &[Need]) -> &[Need]
    ensures { result.now ≡ spec.needs_behind need needs.now }
{
    match need {
        Need::Arguments => &[Need::Arguments],
        _ => needs,
    }
}

fn is_test(action: ActionName) -> bool
    ensures { result ≡ spec.is_test action }
{
    matches!(action, ActionName::TestVariable)
}

impl Case<'_> {
    /// All arguments, each by what is needed at its place, while there are both.
    #[tactic(auto, using(crate::proofs::ClaimLemmas::claims_append, crate::proofs::ClaimLemmas::claims_none))]
    pub(crate) fn is_of_arguments(&self, act: &Act, needs: &[Need], arguments: &[Argument]) -> bool
        ensures { let k = known_by self.now in
            result ≡ claims self.now (spec.arguments_wrongs k act.now needs.now arguments.now) }
    {
        let mut needs = needs;
        let mut arguments = arguments;
        while let Some((need, needs_behind)) = needs.split_first() {
            let Some((argument, arguments_behind)) = arguments.split_first() else {
                return false;
            };
            if self.is_of_argument(act, *need, argument) {
                return true;
            }
            needs = behind(*need, needs_behind);
            arguments = arguments_behind;
        }
        false
    }

    /// An argument where this is needed.
    fn is_of_argument(&self, act: &Act, need: Need, argument: &Argument) -> bool
        ensures { let k = known_by self.now in
            result ≡ claims self.now (spec.argument_wrongs k act.now need argument.now) }
    {
        match need {
            Need::Bool => self.is_of_kind(&Test::Is(Kind::Bool), act, argument),
            Need::Int => self.is_of_integer(act, argument),
            Need::Octets => self.is_of_kind(&Test::Is(Kind::Octets), act, argument),
            Need::Ref => self.is_of_reference(act, argument),
            Need::Content => self.is_of_kind(&Test::Shown, act, argument),
            Need::Data => self.is_of_kind(&Test::Sent, act, argument),
            Need::Event => self.is_of_kind(&Test::Is(Kind::Int), act, argument),
            Need::Receiver(kind) => self.is_of_receiver(kind, act, argument),
            Need::Typed => self.is_of_typed(act, argument),
            Need::Arguments => self.is_of_passed(argument),
        }
    }

    /// A value of a kind that passes.
    fn is_of_kind(&self, test: &Test<'_>, act: &Act, argument: &Argument) -> bool
        ensures { let k = known_by self.now in
            result ≡ claims self.now (spec.value_wrongs (passes test.now) k act.now argument.now) }
    {
        match argument {
            Argument::Direct(value) => {
                let passes = test.passes(kind_of(value));
                self.is_unless(passes, Reason::WrongKind, None, act.target.written_at())
            }
            Argument::Through(at, _) => self.is_of_variable(test, at),
            Argument::Receiver(at) => self.is(Reason::WrongKind, None, at),
        }
    }

    /// A variable that receives an answer of the kind.
    fn is_of_receiver(&self, kind: Kind, act: &Act, argument: &Argument) -> bool
        ensures { let k = known_by self.now in
            result ≡ claims self.now (spec.receiver_wrongs kind k act.now argument.now) }
    {
        match argument {
            Argument::Direct(_) => self.is(Reason::WrongKind, None, act.target.written_at()),
            Argument::Through(at, _) => self.is(Reason::WrongKind, None, at),
            Argument::Receiver(at) => self.is_of_variable(&Test::Is(kind), at),
        }
    }

    /// The reference of an object. Through a variable it is the variable, or what that refers to.
    #[tactic(auto, using(crate::proofs::ClaimLemmas::claims_append, crate::proofs::ClaimLemmas::claims_one))]
    fn is_of_reference(&self, act: &Act, argument: &Argument) -> bool
        ensures { let k = known_by self.now in
            result ≡ claims self.now (spec.reference_wrongs k act.now argument.now) }
    {
        match argument {
            Argument::Direct(Value::Object(at)) => self.is_of_named(act.name, None, at),
            Argument::Direct(_) => self.is(Reason::WrongKind, None, act.target.written_at()),
            Argument::Through(at, _) => {
                self.is_of_variable(&Test::Is(Kind::Object), at)
                    || self.is_of_named(act.name, Some(at), self.at)
            }
            Argument::Receiver(at) => self.is(Reason::WrongKind, None, at),
        }
    }

    /// A value with its kind, which has to go with that of the target.
    #[tactic(auto, using(crate::proofs::ClaimLemmas::claims_append))]
    fn is_of_typed(&self, act: &Act, argument: &Argument) -> bool
        ensures { let k = known_by self.now in
            result ≡ claims self.now (spec.typed_wrongs k act.now argument.now) }
    {
        match argument {
            Argument::Direct(value) => {
                self.is_of_value(&Test::GoesWith(act.name, kind_of(value)), &act.target)
            }
            Argument::Through(at, Some(kind)) => {
                self.is_of_variable(&Test::Is(*kind), at)
                    || self.is_of_held(&Test::GoesWith(act.name, *kind), &act.target, at)
            }
            Argument::Through(at, None) | Argument::Receiver(at) => {
                self.is(Reason::WrongKind, None, at)
            }
        }
    }

    /// A number. That of a test is its operator.
    #[tactic(auto, using(crate::proofs::ClaimLemmas::claims_append, crate::proofs::ClaimLemmas::claims_one))]
    fn is_of_integer(&self, act: &Act, argument: &Argument) -> bool
        ensures { let k = known_by self.now in
            result ≡ claims self.now (spec.integer_wrongs k act.now argument.now) }
    {
        self.is_of_kind(&Test::Is(Kind::Int), act, argument)
            || (is_test(act.name) && self.is_of_operator(act, argument))
    }

    /// An operator, which the variable that is tested has to have. One that a variable holds is not known.
    #[tactic(auto, using(crate::proofs::ClaimLemmas::claims_none))]
    fn is_of_operator(&self, act: &Act, argument: &Argument) -> bool
        ensures { let k = known_by self.now in
            result ≡ claims self.now (spec.operator_wrongs k act.now argument.now) }
    {
        match argument {
            Argument::Direct(Value::Int(number)) => {
                self.is_of_value(&Test::ComparedBy(number), &act.target)
            }
            Argument::Through(at, _) => self.is(Reason::WrongKind, None, at),
            _ => false,
        }
    }

    /// What a program is called with: a variable has to be of the kind that is written.
    #[tactic(auto, using(crate::proofs::ClaimLemmas::claims_none))]
    fn is_of_passed(&self, argument: &Argument) -> bool
        ensures { let k = known_by self.now in
            (act : _) → result ≡ claims self.now (spec.passed_wrongs k act argument.now) }
    {
        match argument {
            Argument::Direct(_) => false,
            Argument::Through(at, Some(kind)) => self.is_of_variable(&Test::Is(*kind), at),
            Argument::Through(at, None) | Argument::Receiver(at) => {
                self.is(Reason::WrongKind, None, at)
            }
        }
    }

    /// The id of a timer that is set, which is to be written itself.
    #[tactic(auto, using(crate::proofs::ClaimLemmas::claims_none))]
    pub(crate) fn is_of_timer(&self, act: &Act) -> bool
        ensures { result ≡ claims self.now (spec.timer_wrongs act.now.name act.now.arguments) }
    {
        if !matches!(act.name, ActionName::SetTimer) {
            return false;
        }
        match act.arguments.as_slice() {
            [Argument::Through(variable, _), ..] => self.is(Reason::TimerHeld, None, variable),
            _ => false,
        }
    }
}
