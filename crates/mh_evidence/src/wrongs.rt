//! What is wrong with an action or with a member of a group of objects, and whether it is what is claimed.
//!
//! Each function tells whether it is one of those that the definition of the same matter lists. What is looked at is
//! its target and the objects that it names; arguments and calls are left to the modules beside this.
ghost use Rattle.std.specs.Prelude.{◌≡◌, Some};
ghost use Rattle.std.specs.List.{list_any};
ghost use Rattle.std.specs.Option.{option_copied};
ghost use Rattle.mh_group.specs.Table as table;
ghost use Rattle.mh_laws.specs.Active as active;
ghost use Rattle.mh_model.specs.Faults as spec;
ghost use Rattle.mh_model.specs.Known.{class_at};
ghost use Rattle.mh_verify.specs.Evidence.{all_have};
ghost use Rattle.mh_verify.specs.Refusals.{part_wrongs};
ghost use Rattle.mh_evidence.specs.Cases.{claims, known_by};

use crate::claims::Case;
use crate::there::{is_list_group, members};
use crate::wrongs_kinds::Test;
use mh_base::{Kind, ObjRef};
use mh_group::{ActionName, Class};
use mh_model::parts::is_transition;
use mh_model::{Act, Fixed, Member, Reason, Target};

impl Case<'_> {
    /// All that is wrong with the action.
    #[tactic(auto, using(crate::proofs::ClaimLemmas::claims_append))]
    pub(crate) fn is_of_action(&self, act: &Act) -> bool
        ensures { result ≡ claims self.now (spec.wrongs (known_by self.now) act.now) }
    {
        self.is_of_target(act.name, &act.target)
            || self.is_of_call(act)
            || self.is_of_timer(act)
            || self.is_of_arguments(act, act.name.needs(), act.arguments.as_slice())
    }

    /// The target. Through a variable it is the variable, or what that refers to.
    #[tactic(auto, using(crate::proofs::ClaimLemmas::claims_append, crate::proofs::ClaimLemmas::claims_one))]
    fn is_of_target(&self, action: ActionName, target: &Target) -> bool
        ensures { result ≡ claims self.now (spec.target_wrongs (known_by self.now) action target.now) }
    {
        match target {
            Target::Direct(at) => self.is_of_admitted(action, None, at),
            Target::Through(variable) => {
                self.is_of_variable(&Test::Is(Kind::Object), variable)
                    || self.is_of_admitted(action, Some(variable), self.at)
            }
        }
    }

    /// An object for which the action has to have a rule.
    fn is_of_admitted(&self, action: ActionName, through: Option<&ObjRef>, at: &ObjRef) -> bool
        ensures { let variable = option_copied through.entry in
            result ≡ claims self.now (spec.admitted_wrongs (known_by self.now) action variable at.now) }
    {
        match self.target_class(action, at) {
            None => self.is(Reason::Absent, through, at),
            Some(class) => self.is_unless(class.admits(action), Reason::WrongClass, through, at),
        }
    }

    /// The class of a target. To a transition each group of the service is there.
    fn target_class(&self, action: ActionName, at: &ObjRef) -> Option<Class>
        ensures { result ≡ spec.target_class (known_by self.now) action at.now }
    {
        if is_transition(action) && at.number == 0 {
            self.group_class(at)
        } else {
            self.class_of(at)
        }
    }

    /// An object as a parameter.
    pub(crate) fn is_of_named(
        &self,
        action: ActionName,
        through: Option<&ObjRef>,
        at: &ObjRef,
    ) -> bool
        ensures { let variable = option_copied through.entry in
            result ≡ claims self.now (spec.named_wrongs (known_by self.now) action variable at.now) }
    {
        match self.class_of(at) {
            None => self.is(Reason::Absent, through, at),
            Some(class) => {
                self.is_unless(takes_object(action, class), Reason::WrongClass, through, at)
            }
        }
    }

    /// An object that a group runs and halts: it is a visible.
    fn is_of_member(&self, through: Option<&ObjRef>, at: &ObjRef) -> bool
        ensures { let class = class_at at.now self.now.parts in
            result ≡ claims self.now (spec.object_wrongs table.is_visible (option_copied through.entry) at.now class) }
    {
        match self.class_of(at) {
            None => self.is(Reason::Absent, through, at),
            Some(class) => self.is_unless(class.is_visible(), Reason::WrongClass, through, at),
        }
    }

    /// The members of a group of objects that are written.
    fn is_of_members(&self, members: &[Member]) -> bool
        ensures { result ≡ list_any (λ m. claims self.now (active.member_wrongs self.now.parts m)) members.now }
    {
        members
            .iter()
            .any(|member| self.is_of_member(None, &member.object))
    }

    /// The members of the object: of a list it is what the list may have.
    #[tactic(auto, using(crate::proofs::ClaimLemmas::claims_one, crate::proofs::ClaimLemmas::claims_flat))]
    pub(crate) fn is_of_part(&self, part: &Fixed) -> bool
        ensures { result ≡ claims self.now (part_wrongs self.now.parts (all_have self.now.at) part.now) }
    {
        if is_list_group(part.class) {
            self.is_of_member(Some(&part.key), self.at)
        } else {
            self.is_of_members(members(part))
        }
    }
}

/// Whether the action takes an object of the class as a parameter.
fn takes_object(action: ActionName, class: Class) -> bool
    ensures { result ≡ spec.takes_object action class }
{
    match action {
        ActionName::PutBefore | ActionName::PutBehind => class.is_visible(),
        _ => true,
    }
}
