//! `Passing` and `Wanted`: which kinds of values, and which classes of objects, a place of an action takes.
ghost use Rattle.std.specs.Prelude.{◌≡◌};
ghost use Rattle.mh_model.specs.Faults.{goes_with, is_content_kind, is_data_kind};
ghost use Rattle.mh_cause.specs.Passing.{holds, is_wanted, passes, passing_of};

use mh_base::Kind;
use mh_group::{ActionName, Class, Need};
use mh_model::kinds::{converts, same_kind, variable_kind};

/// Which kinds of values are taken.
#[derive(Clone, Copy)]
pub enum Passing {
    Only(Kind),
    /// What a visible can show.
    Content,
    /// The data of events.
    Data,
    /// What the action does something with, where its target is a variable of this kind.
    GoesWith(ActionName, Kind),
}

/// Which classes of objects are taken.
#[derive(Clone, Copy)]
pub enum Wanted {
    /// Those for which the action has a rule.
    Admitting(ActionName),
    Visible,
    /// Variables that hold such values.
    Holding(Passing),
}

pub(crate) fn passes(passing: Passing, kind: Kind) -> bool
    ensures { result ≡ passes passing kind }
{
    match passing {
        Passing::Only(only) => same_kind(only, kind),
        Passing::Content => is_content_kind(kind),
        Passing::Data => is_data_kind(kind),
        Passing::GoesWith(action, to) => goes_with(action, to, kind),
    }
}

fn is_content_kind(kind: Kind) -> bool
    ensures { result ≡ is_content_kind kind }
{
    matches!(kind, Kind::Octets | Kind::Content)
}

fn is_data_kind(kind: Kind) -> bool
    ensures { result ≡ is_data_kind kind }
{
    matches!(kind, Kind::Bool | Kind::Int)
}

/// Whether the action does something to a variable of the one kind with a value of the other.
fn goes_with(action: ActionName, to: Kind, from: Kind) -> bool
    ensures { result ≡ goes_with action to from }
{
    match action {
        ActionName::SetVariable => converts(to, from),
        _ => same_kind(to, from),
    }
}

/// The values that a parameter takes; none where it takes no plain value.
pub(crate) fn passing_of(need: Need) -> Option<Passing>
    ensures { result ≡ passing_of need }
{
    match need {
        Need::Bool => Some(Passing::Only(Kind::Bool)),
        Need::Int | Need::Event => Some(Passing::Only(Kind::Int)),
        Need::Octets => Some(Passing::Only(Kind::Octets)),
        Need::Ref => Some(Passing::Only(Kind::Object)),
        Need::Content => Some(Passing::Content),
        Need::Data => Some(Passing::Data),
        Need::Receiver(_) | Need::Typed | Need::Arguments => None,
    }
}

/// Whether variables of the class hold such values.
pub(crate) fn holds(passing: Passing, class: Class) -> bool
    ensures { result ≡ holds passing class }
{
    match variable_kind(class) {
        Some(kind) => passes(passing, kind),
        None => false,
    }
}

pub(crate) fn is_wanted(wanted: Wanted, class: Class) -> bool
    ensures { result ≡ is_wanted wanted class }
{
    match wanted {
        Wanted::Admitting(action) => class.admits(action),
        Wanted::Visible => class.is_visible(),
        Wanted::Holding(passing) => holds(passing, class),
    }
}
