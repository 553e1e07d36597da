//! Tests of the kind of a value, where a place of an action takes more than one.
ghost use Rattle.std.specs.Prelude.{◌≡◌};
ghost use Rattle.mh_model.specs.Faults as spec;

use crate::kinds::{converts, is_operator, same_kind};
use mh_base::Kind;
use mh_group::ActionName;

/// A test of kinds.
pub(crate) trait Fit {
    ghost use Rattle.std.specs.Prelude.{Bool};
    ghost use Rattle.mh_base.specs.declared.value.Kind.{Kind as KindLem};

    /// Which kinds pass.
    ghost fits: { Self → KindLem → Bool };

    /// Whether the kind passes.
    fn fits(&self, kind: Kind) -> bool
        ensures { result ≡ fits self.now kind };
}

/// A kind alone.
impl Fit for Kind {
    ghost use Rattle.mh_model.specs.Variables.{same_kind};

    ghost fits = { same_kind };

    fn fits(&self, kind: Kind) -> bool {
        same_kind(*self, kind)
    }
}

/// What a visible can show.
#[derive(Clone, Copy)]
pub(crate) struct OfContent;

impl Fit for OfContent {
    ghost use Rattle.mh_model.specs.Faults.{is_content_kind};

    ghost fits = { λ _ kind. is_content_kind kind };

    fn fits(&self, kind: Kind) -> bool {
        matches!(kind, Kind::Octets | Kind::Content)
    }
}

/// The data of events.
#[derive(Clone, Copy)]
pub(crate) struct OfData;

impl Fit for OfData {
    ghost use Rattle.mh_model.specs.Faults.{is_data_kind};

    ghost fits = { λ _ kind. is_data_kind kind };

    fn fits(&self, kind: Kind) -> bool {
        matches!(kind, Kind::Bool | Kind::Int)
    }
}

/// The kinds of variables with which an action does what it does by a value of this kind.
#[derive(Clone, Copy)]
pub(crate) struct GoesWith(pub(crate) ActionName, pub(crate) Kind);

impl Fit for GoesWith {
    ghost use Rattle.mh_model.specs.Faults.{goes_with};

    ghost fits = { λ it to. goes_with it.0 to it.1 };

    fn fits(&self, kind: Kind) -> bool {
        match self.0 {
            ActionName::SetVariable => converts(kind, self.1),
            _ => same_kind(kind, self.1),
        }
    }
}

/// The kinds whose values are compared by the operator with this number; none, if it is no operator's.
#[derive(Clone, Copy)]
pub(crate) struct ComparedBy<'a>(pub(crate) &'a i32);

impl Fit for ComparedBy<'_> {
    ghost use Rattle.mh_model.specs.Variables.{is_operator};

    ghost fits = { λ it kind. is_operator kind it.0.now };

    fn fits(&self, kind: Kind) -> bool {
        is_operator(kind, *self.0)
    }
}
