//! `Detail`: which part of an action, or of a list of members, is wrong.
ghost use Rattle.std.specs.Prelude.{◌≡◌, length};
ghost use Rattle.std.specs.Option.{option_copied};
ghost use Rattle.mh_model.specs.Faults.{is_call as is_call_lem};
ghost use Rattle.mh_cause.specs.Details.{act_detail, detail_of, member_detail, misfit_detail, named_detail, parameter, role_detail, told_detail};

use crate::acts::members_of;
use crate::misfit::{Misfit, misfit_of};
use crate::passed::call_detail;
use crate::refused::Refused;
use crate::role::{Role, role_at};
use crate::unfit::written_at;
use mh_base::ObjRef;
use mh_group::ActionName;
use mh_model::Member;
use mh_model::parts::same_ref;
use mh_service::Service;

/// Which part of an action, or of a list of members, is wrong.
#[derive(Clone, Copy)]
pub enum Detail {
    /// It is not known.
    Unknown,
    /// The value with this number: 0 is the target, and 1 the first parameter; of a list of members 0 is the first member.
    Value(usize),
    /// In the list that is the value with the first number what stands at the second place, from 0 on.
    Within(usize, usize),
}

/// The part that is wrong, as far as it is known.
#[tactic(auto, unfolding(crate::specs::Details::detail_of))]
pub fn detail_of(service: &Service, refused: &Refused<'_>) -> Detail
    ensures { result ≡ detail_of service.now refused.now }
{
    match refused.action {
        None => member_detail(refused.at, members_of(service, refused)),
        Some(action) => act_detail(service, refused, action),
    }
}

/// The first member that is the object.
fn member_detail(at: &ObjRef, members: &[Member]) -> Detail
    ensures { result ≡ member_detail (length members.now) at.now members.now }
{
    let mut left = members;
    while let [member, behind @ ..] = left {
        if same_ref(&member.object, at) {
            return Detail::Within(members.len().saturating_sub(left.len()), 0);
        }
        left = behind;
    }
    Detail::Unknown
}

fn act_detail(service: &Service, refused: &Refused<'_>, action: ActionName) -> Detail
    ensures { result ≡ act_detail service.now refused.now action }
{
    match refused.number {
        3 => told_detail(action, misfit_of(service, refused)),
        9 => call_detail(service, refused),
        _ => named_detail(service, refused, action),
    }
}

/// Where the action names the object, or the variable that may hold it.
#[tactic(auto, unfolding(crate::specs::Details::named_detail))]
fn named_detail(service: &Service, refused: &Refused<'_>, action: ActionName) -> Detail
    ensures { result ≡ named_detail service.now refused.now action }
{
    let at = written_at(refused, refused.holder);
    role_detail(action, role_at(service, refused, at))
}

fn role_detail(action: ActionName, role: Role) -> Detail
    ensures { result ≡ role_detail action role }
{
    match role {
        Role::Target | Role::Through => Detail::Value(0),
        Role::Parameter(number) => parameter(action, number),
        Role::Unknown => Detail::Unknown,
    }
}

/// The parameter with this number. What a call passes stands in a list of its own, behind the variable that is told
/// whether it went well.
fn parameter(action: ActionName, number: usize) -> Detail
    ensures { result ≡ parameter action number }
{
    if is_call(action) && number > 1 {
        return Detail::Within(2, number - 2);
    }
    Detail::Value(number)
}

fn is_call(action: ActionName) -> bool
    ensures { result ≡ is_call_lem action }
{
    matches!(action, ActionName::Call | ActionName::Fork)
}

fn told_detail(action: ActionName, misfit: Option<Misfit>) -> Detail
    ensures { result ≡ told_detail action misfit }
{
    match misfit {
        None => Detail::Unknown,
        Some(misfit) => misfit_detail(action, misfit),
    }
}

fn misfit_detail(action: ActionName, misfit: Misfit) -> Detail
    ensures { result ≡ misfit_detail action misfit }
{
    match misfit {
        Misfit::Target(_) => Detail::Value(0),
        Misfit::Value(number, _, _)
        | Misfit::Answer(number, _, _)
        | Misfit::Written(number, _, _)
        | Misfit::Given(number, _, _, _)
        | Misfit::Operator(number, _, _)
        | Misfit::OperatorHeld(number) => parameter(action, number),
    }
}
