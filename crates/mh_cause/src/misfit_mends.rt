//! How values and variables of another kind are mended.
ghost use Rattle.std.specs.Prelude.{◌≡◌, ◌++◌, OnOk};
ghost use Rattle.mh_cause.specs.MisfitWords.{answer_mend, digits_mend, given_mend, is_integer, mend_of, misfit_mend, names_variable, through_mend, told_mend, value_mend, variable_told};

use crate::candidates::put_candidates;
use crate::lists::{put_classes, put_kinds};
use crate::misfit::{Misfit, misfit_of};
use crate::passing::{Passing, Wanted, passes};
use crate::phrases::{DIGITS_OF, GO_THROUGH};
use crate::refused::Refused;
use mh_base::Kind;
use mh_group::{ActionName, Class};
use mh_model::kinds::variable_kind;
use mh_service::Service;
use mh_told::text::Text;
use std::alloc::{AllocError, Global};

#[tactic(auto, unfolding(crate::specs::MisfitWords::through_mend))]
fn put_through_mend(text: &mut Text, passing: Passing) -> Result<(), AllocError>
    ensures { OnOk result (text.new ≡ text.old ++ through_mend passing) }
{
    text.put(GO_THROUGH)?;
    put_classes(text, Wanted::Holding(passing))
}

#[tactic(auto, unfolding(crate::specs::MisfitWords::answer_mend))]
fn put_answer_mend(text: &mut Text, kind: Kind) -> Result<(), AllocError>
    ensures { OnOk result (text.new ≡ text.old ++ answer_mend kind) }
{
    text.put(b"name ")?;
    put_classes(text, Wanted::Holding(Passing::Only(kind)))
}

#[tactic(auto, unfolding(crate::specs::MisfitWords::given_mend))]
fn put_given_mend(text: &mut Text, action: ActionName, to: Kind) -> Result<(), AllocError>
    ensures { OnOk result (text.new ≡ text.old ++ given_mend action to) }
{
    text.put(b"write ")?;
    put_kinds(text, Passing::GoesWith(action, to))
}

/// Puts that an integer may be made octets, where these are wanted and it is found.
fn put_digits_mend(text: &mut Text, is_number: bool) -> Result<(), AllocError>
    ensures { OnOk result (text.new ≡ text.old ++ digits_mend is_number) }
{
    if is_number {
        text.put(DIGITS_OF)
    } else {
        Ok(())
    }
}

fn is_integer(kind: Option<Kind>) -> bool
    ensures { result ≡ is_integer kind }
{
    matches!(kind, Some(Kind::Int))
}

#[tactic(auto, unfolding(crate::specs::MisfitWords::value_mend))]
fn put_value_mend(text: &mut Text, passing: Passing, class: Class) -> Result<(), AllocError>
    ensures { OnOk result (text.new ≡ text.old ++ value_mend passing class) }
{
    put_through_mend(text, passing)?;
    let is_number = passes(passing, Kind::Octets) && is_integer(variable_kind(class));
    put_digits_mend(text, is_number)
}

fn put_mend_of(text: &mut Text, action: ActionName, misfit: Misfit) -> Result<(), AllocError>
    ensures { OnOk result (text.new ≡ text.old ++ mend_of action misfit) }
{
    match misfit {
        Misfit::Target(_) => put_through_mend(text, Passing::Only(Kind::Object)),
        Misfit::Value(_, passing, class) => put_value_mend(text, passing, class),
        Misfit::Answer(_, kind, _) => put_answer_mend(text, kind),
        Misfit::Written(_, kind, _) => put_through_mend(text, Passing::Only(kind)),
        Misfit::Given(_, _, to, _) => put_given_mend(text, action, to),
        Misfit::Operator(_, _, _) => text.put(b"write one of these numbers"),
        Misfit::OperatorHeld(_) => text.put(b"write its number"),
    }
}

/// Whether another variable may have been meant.
fn names_variable(misfit: Misfit) -> bool
    ensures { result ≡ names_variable misfit }
{
    matches!(
        misfit,
        Misfit::Target(_)
            | Misfit::Value(_, _, _)
            | Misfit::Answer(_, _, _)
            | Misfit::Written(_, _, _)
    )
}

fn put_variable_told(
    alloc: Global,
    text: &mut Text,
    service: &Service,
    refused: &Refused<'_>,
    misfit: Misfit,
) -> Result<(), AllocError>
    ensures { OnOk result (text.new ≡ text.old ++ variable_told service.now refused.now misfit) }
{
    if names_variable(misfit) {
        return put_candidates(alloc, text, service, refused);
    }
    Ok(())
}

fn put_told_mend(
    alloc: Global,
    text: &mut Text,
    service: &Service,
    refused: &Refused<'_>,
    action: Option<ActionName>,
    misfit: Option<Misfit>,
) -> Result<(), AllocError>
    ensures { OnOk result (text.new ≡ text.old ++ told_mend service.now refused.now action misfit) }
{
    match (action, misfit) {
        (Some(action), Some(misfit)) => {
            put_mend_of(text, action, misfit)?;
            put_variable_told(alloc, text, service, refused, misfit)
        }
        _ => Ok(()),
    }
}

/// Puts what is written or named in its place.
pub(crate) fn put_misfit_mend(
    alloc: Global,
    text: &mut Text,
    service: &Service,
    refused: &Refused<'_>,
) -> Result<(), AllocError>
    ensures { OnOk result (text.new ≡ text.old ++ misfit_mend service.now refused.now) }
{
    let misfit = misfit_of(service, refused);
    put_told_mend(alloc, text, service, refused, refused.action, misfit)
}
