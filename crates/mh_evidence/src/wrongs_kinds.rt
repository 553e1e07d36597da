//! Variables and values of wrong kinds.
ghost use Rattle.std.specs.Prelude.{◌≡◌, ◌∷◌, []};
ghost use Rattle.std.specs.List.{flat_map};
ghost use Rattle.std.specs.Option.{option_copied, option_map_or};
ghost use Rattle.mh_model.specs.Faults as spec;
ghost use Rattle.mh_model.specs.Known.{class_at};
ghost use Rattle.mh_model.specs.Variables as variables;
ghost use Rattle.mh_evidence.specs.Cases.{claims, known_by, passes};

use crate::claims::Case;
use mh_base::{Kind, ObjRef};
use mh_group::{ActionName, Class};
use mh_model::kinds::{converts, is_operator, same_kind, variable_kind};
use mh_model::{Reason, Target};

/// A test of kinds.
#[derive(Drop)]
pub(crate) enum Test<'a> {
    Is(Kind),
    /// What a visible can show.
    Shown,
    /// The data of events.
    Sent,
    /// The kinds of variables with which the action does what it does by a value of this kind.
    GoesWith(ActionName, Kind),
    /// The kinds whose values are compared by the operator with this number.
    ComparedBy(&'a i32),
}

impl Test<'_> {
    pub(crate) fn passes(&self, kind: Kind) -> bool
        ensures { result ≡ passes self.now kind }
    {
        match self {
            Test::Is(wanted) => same_kind(*wanted, kind),
            Test::Shown => matches!(kind, Kind::Octets | Kind::Content),
            Test::Sent => matches!(kind, Kind::Bool | Kind::Int),
            Test::GoesWith(name, from) => goes_with(*name, kind, *from),
            Test::ComparedBy(number) => is_operator(kind, **number),
        }
    }

    /// Whether the kind that variables of the class hold passes; this, where it is of no variable.
    fn passes_of(&self, class: Class, otherwise: bool) -> bool
        ensures { result ≡ option_map_or (passes self.now) (variables.variable_kind class) otherwise }
    {
        match variable_kind(class) {
            Some(kind) => self.passes(kind),
            None => otherwise,
        }
    }
}

fn goes_with(name: ActionName, to: Kind, from: Kind) -> bool
    ensures { result ≡ spec.goes_with name to from }
{
    match name {
        ActionName::SetVariable => converts(to, from),
        _ => same_kind(to, from),
    }
}

/// The variable through which a target is written, if it is.
pub(crate) fn variable_of(target: &Target) -> Option<&ObjRef>
    ensures { option_copied result ≡ spec.target_variable target.now }
{
    match target {
        Target::Direct(_) => None,
        Target::Through(variable) => Some(variable),
    }
}

impl Case<'_> {
    /// A variable that has to be there, and to hold values of a kind that passes.
    pub(crate) fn is_of_variable(&self, test: &Test<'_>, at: &ObjRef) -> bool
        ensures { let class = class_at at.now self.now.parts in
            result ≡ claims self.now (spec.variable_wrongs (passes test.now) at.now class) }
    {
        match self.class_of(at) {
            None => self.is(Reason::Absent, None, at),
            Some(class) => self.is_unless(
                test.passes_of(class, false),
                Reason::WrongKind,
                None,
                at,
            ),
        }
    }

    /// The object to which a target comes.
    pub(crate) fn target<'a>(&'a self, target: &'a Target) -> &'a ObjRef
        ensures { spec.targets (known_by self.now) target.now ≡ result.now ∷ [] }
    {
        match target {
            Target::Direct(at) => at,
            Target::Through(_) => self.at,
        }
    }

    /// Whether the object to which the target comes takes values whose kind passes. One that is no variable is wrong at
    /// its own place.
    fn takes(&self, test: &Test<'_>, at: &ObjRef) -> bool
        ensures { result ≡ spec.target_takes (passes test.now) (class_at at.now self.now.parts) }
    {
        match self.class_of(at) {
            None => true,
            Some(class) => test.passes_of(class, true),
        }
    }

    /// A direct value, which the object to which the target comes has to take.
    #[tactic(auto, using(crate::proofs::ClaimLemmas::claims_one))]
    pub(crate) fn is_of_value(&self, test: &Test<'_>, target: &Target) -> bool
        ensures { let k = known_by self.now in
            let at = spec.untaken k (passes test.now) (spec.target_variable target.now) in
            result ≡ claims self.now (flat_map at (spec.targets k target.now)) }
    {
        let at = self.target(target);
        self.is_unless(
            self.takes(test, at),
            Reason::WrongKind,
            variable_of(target),
            at,
        )
    }

    /// A value through a variable, which the object to which the target comes has to take.
    #[tactic(auto, using(crate::proofs::ClaimLemmas::claims_one))]
    pub(crate) fn is_of_held(&self, test: &Test<'_>, target: &Target, variable: &ObjRef) -> bool
        ensures { let k = known_by self.now in
            let at = spec.untaken_through k (passes test.now) variable.now in
            result ≡ claims self.now (flat_map at (spec.targets k target.now)) }
    {
        let takes = self.takes(test, self.target(target));
        self.is_unless(takes, Reason::WrongKind, None, variable)
    }
}
