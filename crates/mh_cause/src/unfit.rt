//! Objects of a class for which an action has no rule: the classes that are wanted, and the one that is found.
ghost use Rattle.std.specs.Prelude.{◌≡◌, ◌++◌, OnOk};
ghost use Rattle.std.specs.Option.{option_copied};
ghost use Rattle.mh_cause.specs.Unfit.{action_rule, class_clause, fill_mend, held_clause, member_or_item, members_rule, mend_by, name_mend, other_actions, other_mend, parameter_rule, plain_mend, role_in, role_mend, rule, set_mend, target_mend, target_rule, unfit_cause, unfit_class, unfit_mend, written_at};

use crate::candidates::put_candidates;
use crate::lists::{put_actions, put_classes, put_with_article};
use crate::naming::{class_at, put_named, put_numbered, put_parameter};
use crate::passing::Wanted;
use crate::phrases::{IS_DONE_TO, NAME_ANOTHER, OR_DONE_TO, SET_ONLY, WHICH_MAY};
use crate::refused::Refused;
use crate::role::{Role, role_at};
use mh_base::ObjRef;
use mh_group::{ActionName, Class};
use mh_service::Service;
use mh_told::text::Text;
use std::alloc::{AllocError, Global};

fn put_held_clause(text: &mut Text, holder: Option<&ObjRef>) -> Result<(), AllocError>
    ensures { OnOk result (text.new ≡ text.old ++ held_clause (option_copied holder.entry)) }
{
    match holder {
        None => Ok(()),
        Some(holder) => {
            text.put(WHICH_MAY)?;
            put_named(text, holder)?;
            text.put(b",")
        }
    }
}

/// Puts the object, and its class.
#[tactic(auto, unfolding(crate::specs::Unfit::class_clause))]
fn put_class_clause(text: &mut Text, refused: &Refused<'_>, class: Class) -> Result<(), AllocError>
    ensures { OnOk result (text.new ≡ text.old ++ class_clause refused.now class) }
{
    text.put(b", and ")?;
    put_named(text, refused.at)?;
    put_held_clause(text, refused.holder)?;
    text.put(b" is ")?;
    put_with_article(text, class)
}

fn member_or_item(holder: Option<&ObjRef>) -> &'static [u8]
    ensures { result.now ≡ member_or_item (option_copied holder.entry) }
{
    match holder {
        None => b"a member of ",
        Some(_) => b"an item of ",
    }
}

#[tactic(auto, unfolding(crate::specs::Unfit::members_rule))]
fn put_members_rule(text: &mut Text, refused: &Refused<'_>) -> Result<(), AllocError>
    ensures { OnOk result (text.new ≡ text.old ++ members_rule refused.now) }
{
    text.put(member_or_item(refused.holder))?;
    put_numbered(text, refused.group.as_bytes(), refused.object)?;
    text.put(b" has to be ")?;
    put_classes(text, Wanted::Visible)
}

#[tactic(auto, unfolding(crate::specs::Unfit::target_rule))]
fn put_target_rule(text: &mut Text, action: ActionName) -> Result<(), AllocError>
    ensures { OnOk result (text.new ≡ text.old ++ target_rule action) }
{
    text.put(action.word())?;
    text.put(IS_DONE_TO)?;
    put_classes(text, Wanted::Admitting(action))?;
    text.put(b" only")
}

#[tactic(auto, unfolding(crate::specs::Unfit::parameter_rule))]
fn put_parameter_rule(text: &mut Text, action: ActionName, number: usize) -> Result<(), AllocError>
    ensures { OnOk result (text.new ≡ text.old ++ parameter_rule action number) }
{
    put_parameter(text, action, number)?;
    text.put(b" has to be ")?;
    put_classes(text, Wanted::Visible)
}

/// The variable, if the object is not written there.
pub(crate) fn written_at<'a>(refused: &Refused<'a>, holder: Option<&'a ObjRef>) -> &'a ObjRef
    ensures { result.now ≡ written_at refused.now (option_copied holder.entry) }
{
    match holder {
        None => refused.at,
        Some(holder) => holder,
    }
}

/// Where the action names the object, or the variable.
fn role_in(service: &Service, refused: &Refused<'_>) -> Role
    ensures { result ≡ role_in service.now refused.now }
{
    role_at(service, refused, written_at(refused, refused.holder))
}

fn put_action_rule(text: &mut Text, action: ActionName, role: Role) -> Result<(), AllocError>
    ensures { OnOk result (text.new ≡ text.old ++ action_rule action role) }
{
    match role {
        Role::Parameter(number) => put_parameter_rule(text, action, number),
        _ => put_target_rule(text, action),
    }
}

fn put_rule(
    text: &mut Text,
    service: &Service,
    refused: &Refused<'_>,
    action: Option<ActionName>,
) -> Result<(), AllocError>
    ensures { OnOk result (text.new ≡ text.old ++ rule service.now refused.now action) }
{
    match action {
        None => put_members_rule(text, refused),
        Some(action) => put_action_rule(text, action, role_in(service, refused)),
    }
}

#[tactic(auto, unfolding(crate::specs::Unfit::unfit_class))]
fn put_unfit_class(
    text: &mut Text,
    service: &Service,
    refused: &Refused<'_>,
    class: Class,
) -> Result<(), AllocError>
    ensures { OnOk result (text.new ≡ text.old ++ unfit_class service.now refused.now class) }
{
    put_rule(text, service, refused, refused.action)?;
    put_class_clause(text, refused, class)
}

/// Puts which classes are wanted, and which is found.
pub(crate) fn put_unfit_cause(
    text: &mut Text,
    service: &Service,
    refused: &Refused<'_>,
) -> Result<(), AllocError>
    ensures { OnOk result (text.new ≡ text.old ++ unfit_cause service.now refused.now) }
{
    match class_at(service, refused.at) {
        None => Ok(()),
        Some(class) => put_unfit_class(text, service, refused, class),
    }
}

fn put_other_actions(text: &mut Text, class: Class) -> Result<(), AllocError>
    ensures { OnOk result (text.new ≡ text.old ++ other_actions class) }
{
    put_with_article(text, class)?;
    text.put(b": ")?;
    put_actions(text, class)
}

/// Puts that another object is named, and which may have been meant.
#[tactic(auto, unfolding(crate::specs::Unfit::other_mend))]
fn put_other_mend(
    alloc: Global,
    text: &mut Text,
    service: &Service,
    refused: &Refused<'_>,
) -> Result<(), AllocError>
    ensures { OnOk result (text.new ≡ text.old ++ other_mend service.now refused.now) }
{
    text.put(NAME_ANOTHER)?;
    put_candidates(alloc, text, service, refused)
}

#[tactic(auto, unfolding(crate::specs::Unfit::name_mend))]
fn put_name_mend(
    alloc: Global,
    text: &mut Text,
    service: &Service,
    refused: &Refused<'_>,
    class: Class,
) -> Result<(), AllocError>
    ensures { OnOk result (text.new ≡ text.old ++ name_mend service.now refused.now class) }
{
    put_other_mend(alloc, text, service, refused)?;
    text.put(OR_DONE_TO)?;
    put_other_actions(text, class)
}

#[tactic(auto, unfolding(crate::specs::Unfit::set_mend))]
fn put_set_mend(text: &mut Text, holder: &ObjRef, class: Class) -> Result<(), AllocError>
    ensures { OnOk result (text.new ≡ text.old ++ set_mend holder.now class) }
{
    text.put(b"set ")?;
    put_named(text, holder)?;
    text.put(SET_ONLY)?;
    put_other_actions(text, class)
}

#[tactic(auto, unfolding(crate::specs::Unfit::fill_mend))]
fn put_fill_mend(text: &mut Text, holder: &ObjRef) -> Result<(), AllocError>
    ensures { OnOk result (text.new ≡ text.old ++ fill_mend holder.now) }
{
    text.put(b"let ")?;
    put_named(text, holder)?;
    text.put(b" hold these only")
}

fn put_plain_mend(
    alloc: Global,
    text: &mut Text,
    service: &Service,
    refused: &Refused<'_>,
    holder: Option<&ObjRef>,
) -> Result<(), AllocError>
    ensures { OnOk result (text.new ≡ text.old ++ plain_mend service.now refused.now (option_copied holder.entry)) }
{
    match holder {
        None => put_other_mend(alloc, text, service, refused),
        Some(holder) => put_fill_mend(text, holder),
    }
}

fn put_target_mend(
    alloc: Global,
    text: &mut Text,
    service: &Service,
    refused: &Refused<'_>,
    class: Class,
    holder: Option<&ObjRef>,
) -> Result<(), AllocError>
    ensures { OnOk result (text.new ≡ text.old ++ target_mend service.now refused.now class (option_copied holder.entry)) }
{
    match holder {
        None => put_name_mend(alloc, text, service, refused, class),
        Some(holder) => put_set_mend(text, holder, class),
    }
}

fn put_role_mend(
    alloc: Global,
    text: &mut Text,
    service: &Service,
    refused: &Refused<'_>,
    class: Class,
    role: Role,
) -> Result<(), AllocError>
    ensures { OnOk result (text.new ≡ text.old ++ role_mend service.now refused.now class role) }
{
    match role {
        Role::Parameter(_) => put_plain_mend(alloc, text, service, refused, refused.holder),
        _ => put_target_mend(alloc, text, service, refused, class, refused.holder),
    }
}

fn put_mend_by(
    alloc: Global,
    text: &mut Text,
    service: &Service,
    refused: &Refused<'_>,
    class: Class,
    action: Option<ActionName>,
) -> Result<(), AllocError>
    ensures { OnOk result (text.new ≡ text.old ++ mend_by service.now refused.now class action) }
{
    match action {
        None => put_plain_mend(alloc, text, service, refused, refused.holder),
        Some(_) => put_role_mend(
            alloc,
            text,
            service,
            refused,
            class,
            role_in(service, refused),
        ),
    }
}

/// Puts what is named in its place.
pub(crate) fn put_unfit_mend(
    alloc: Global,
    text: &mut Text,
    service: &Service,
    refused: &Refused<'_>,
) -> Result<(), AllocError>
    ensures { OnOk result (text.new ≡ text.old ++ unfit_mend service.now refused.now) }
{
    match class_at(service, refused.at) {
        None => Ok(()),
        Some(class) => put_mend_by(alloc, text, service, refused, class, refused.action),
    }
}
