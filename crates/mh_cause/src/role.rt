//! `Role`: where in an action a reference is written.
ghost use Rattle.std.specs.Prelude.{◌≡◌, length};
ghost use Rattle.std.specs.Option.{option_copied};
ghost use Rattle.mh_cause.specs.Roles.{names, parameter_in, role_at, role_in, role_of, target_role, value_names};

use crate::acts::act_of;
use crate::refused::Refused;
use mh_base::{ObjRef, Value};
use mh_model::parts::same_ref;
use mh_model::{Act, Argument, Target};
use mh_service::Service;

/// Where in an action a reference is written.
#[derive(Clone, Copy)]
pub enum Role {
    /// It is the target.
    Target,
    /// The target goes through it.
    Through,
    /// The parameter with this number, from 1 on, is or goes through it.
    Parameter(usize),
    /// It is not found there.
    Unknown,
}

/// Where the refusal's action names the object.
#[tactic(auto, unfolding(crate::specs::Roles::role_at))]
pub(crate) fn role_at(service: &Service, refused: &Refused<'_>, at: &ObjRef) -> Role
    ensures { result ≡ role_at service.now refused.now at.now }
{
    role_of(at, act_of(service, refused))
}

fn role_of(at: &ObjRef, act: Option<&Act>) -> Role
    ensures { result ≡ role_of at.now (option_copied act.entry) }
{
    match act {
        Some(act) => role_in(at, act),
        None => Role::Unknown,
    }
}

#[tactic(auto, unfolding(crate::specs::Roles::role_in))]
fn role_in(at: &ObjRef, act: &Act) -> Role
    ensures { result ≡ role_in at.now act.now }
{
    target_role(at, parameter_in(at, act.arguments.as_slice()), &act.target)
}

fn target_role(at: &ObjRef, other: Role, target: &Target) -> Role
    ensures { result ≡ target_role at.now other target.now }
{
    match target {
        Target::Direct(written) => if same_ref(written, at) {
            Role::Target
        } else {
            other
        },
        Target::Through(variable) => if same_ref(variable, at) {
            Role::Through
        } else {
            other
        },
    }
}

/// The first parameter that names the object, by its number.
fn parameter_in(at: &ObjRef, arguments: &[Argument]) -> Role
    ensures { result ≡ parameter_in (length arguments.now) at.now arguments.now }
{
    let mut left = arguments;
    while let [argument, behind @ ..] = left {
        if names(at, argument) {
            return Role::Parameter(arguments.len().saturating_sub(behind.len()));
        }
        left = behind;
    }
    Role::Unknown
}

fn names(at: &ObjRef, argument: &Argument) -> bool
    ensures { result ≡ names at.now argument.now }
{
    match argument {
        Argument::Direct(value) => value_names(at, value),
        Argument::Through(variable, _) => same_ref(variable, at),
        Argument::Receiver(variable) => same_ref(variable, at),
    }
}

fn value_names(at: &ObjRef, value: &Value) -> bool
    ensures { result ≡ value_names at.now value.now }
{
    match value {
        Value::Object(object) => same_ref(object, at),
        _ => false,
    }
}
