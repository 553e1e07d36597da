//! Readers of elementary actions and their parameters. Which parameters an action is written with is the
//! word of `mh_group`'s table.
ghost use Rattle.std.specs.Prelude.{◌≡◌, ◌&&◌, [], nat_le};
ghost use Rattle.mh_text.specs.Gives.{Gives};
ghost use Rattle.mh_text.specs.Reading.{is_close, action, action_name_of, parameters, parameter, generic_parameter, typed, value_of};

use crate::form::{Form, generic, list};
use crate::place::{Piece, Place};
use crate::sign::Sign;
use crate::value::event_of;
use crate::value_form::{AnyContent, AnyReference, ContentName, Data, Integer, OctetText, Truth};
use crate::{TextError, Why};
use mh_base::{Kind, LONGEST_LIST, Seq};
use mh_group::{Action, ActionName, Need, Parameter, Typed};
use std::alloc::Global;

/// An elementary action.
pub(crate) struct ElementaryAction;

impl Form for ElementaryAction {
    type Value = Action;

    ghost reading = { action };

    #[tactic(auto, unfolding(crate::specs::Reading::action))]
    fn read(alloc: Global, piece: &Piece<'_>, place: &mut Place<'_>) -> Result<Action, TextError> {
        let name = action_name_of(piece)?;
        place.opened()?;
        let piece = place.next()?;
        let target = generic::<AnyReference>(alloc, &piece, place)?;
        let parameters = parameters(alloc, name.optional(), name.needs(), place)?;
        Ok(Action {
            name,
            target,
            parameters,
        })
    }
}

#[tactic(auto, unfolding(crate::specs::Reading::action_name_of))]
fn action_name_of(piece: &Piece<'_>) -> Result<ActionName, TextError>
    ensures { Gives (λ x. x) result (action_name_of piece.now) }
{
    match piece.sign() {
        Sign::Action(name) => Ok(name),
        _ => Err(piece.refused(Why::Syntax)),
    }
}

/// The parameters that are needed, in their order, up to the closing parenthesis. So many of them may be
/// missing at the end.
fn parameters(
    alloc: Global,
    optional: usize,
    needs: &[Need],
    place: &mut Place<'_>,
) -> Result<Seq<Parameter>, TextError>
    ensures { Gives (λ x. (x, place.new)) result (parameters optional needs.now [] place.old) }
{
    let mut parameters = Seq::with_capacity(alloc, needs.len())?;
    for (at, need) in needs.iter().enumerate() {
        let piece = place.next()?;
        if may_end(needs.len() - at, optional, piece.sign()) {
            return Ok(parameters);
        }
        let parameter = parameter(alloc, *need, &piece, place)?;
        parameters.push(parameter)?;
    }
    place.closed()?;
    Ok(parameters)
}

/// Whether the token ends parameters of which so many are missing, and so many may be.
fn may_end(missing: usize, optional: usize, sign: Sign) -> bool
    ensures { result ≡ (nat_le missing optional && is_close sign) }
{
    missing <= optional && sign.is_close()
}

/// The parameter that begins with this token.
#[tactic(auto, unfolding(crate::specs::Reading::parameter))]
fn parameter(
    alloc: Global,
    need: Need,
    piece: &Piece<'_>,
    place: &mut Place<'_>,
) -> Result<Parameter, TextError>
    ensures { Gives (λ x. (x, place.new)) result (parameter need piece.now place.old) }
{
    match need {
        Need::Event => Ok(Parameter::Event(event_of(piece)?)),
        Need::Receiver(_) => AnyReference::read(alloc, piece, place).map(Parameter::Receiver),
        Need::Typed => TypedValue::read(alloc, piece, place).map(Parameter::Typed),
        Need::Arguments => {
            list::<TypedValue>(alloc, LONGEST_LIST, piece, place).map(Parameter::Arguments)
        }
        _ => generic_parameter(alloc, need, piece, place),
    }
}

/// The parameter that begins with this token, where it may be held by a variable.
#[tactic(auto, unfolding(crate::specs::Reading::generic_parameter))]
fn generic_parameter(
    alloc: Global,
    need: Need,
    piece: &Piece<'_>,
    place: &mut Place<'_>,
) -> Result<Parameter, TextError>
    ensures { Gives (λ x. (x, place.new)) result (generic_parameter need piece.now place.old) }
{
    match need {
        Need::Bool => generic::<Truth>(alloc, piece, place).map(Parameter::Bool),
        Need::Int => generic::<Integer>(alloc, piece, place).map(Parameter::Int),
        Need::Octets => generic::<OctetText>(alloc, piece, place).map(Parameter::Octets),
        Need::Ref => generic::<AnyReference>(alloc, piece, place).map(Parameter::Ref),
        Need::Content => generic::<AnyContent>(alloc, piece, place).map(Parameter::Content),
        Need::Data => generic::<Data>(alloc, piece, place).map(Parameter::Data),
        _ => Err(piece.refused(Why::Syntax)),
    }
}

/// A value with the keyword of its kind in front.
struct TypedValue;

impl Form for TypedValue {
    type Value = Typed;

    ghost reading = { typed };

    #[tactic(auto, unfolding(crate::specs::Reading::typed))]
    fn read(alloc: Global, piece: &Piece<'_>, place: &mut Place<'_>) -> Result<Typed, TextError> {
        let Sign::Kind(kind) = piece.sign() else {
            return Err(piece.refused(Why::Syntax));
        };
        let piece = place.next()?;
        value_of(alloc, kind, &piece, place)
    }
}

/// The value that begins with this token, which stands behind the keyword of its kind.
#[tactic(auto, unfolding(crate::specs::Reading::value_of))]
fn value_of(
    alloc: Global,
    kind: Kind,
    piece: &Piece<'_>,
    place: &mut Place<'_>,
) -> Result<Typed, TextError>
    ensures { Gives (λ x. (x, place.new)) result (value_of kind piece.now place.old) }
{
    match kind {
        Kind::Bool => generic::<Truth>(alloc, piece, place).map(Typed::Bool),
        Kind::Int => generic::<Integer>(alloc, piece, place).map(Typed::Int),
        Kind::Octets => generic::<OctetText>(alloc, piece, place).map(Typed::Octets),
        Kind::Object => generic::<AnyReference>(alloc, piece, place).map(Typed::Ref),
        Kind::Content => generic::<ContentName>(alloc, piece, place).map(Typed::ContentRef),
    }
}
