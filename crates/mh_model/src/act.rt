//! Elementary actions as they are written, with their names resolved.
ghost use Rattle.std.specs.Prelude.{◌≡◌};
ghost use Rattle.std.specs.Option.{option_copied};
ghost use Rattle.mh_model.specs.Faults as spec;

use mh_base::{Kind, ObjRef, Shared, Value};
use mh_group::ActionName;

/// What an action is done to (ISO/IEC 13522-5, the target of an ElementaryAction).
#[derive(Clone, Drop)]
pub enum Target {
    Direct(ObjRef),
    /// The object to which this variable refers when the action is done.
    Through(ObjRef),
}

impl Target {
    /// The reference that is written: of the object, or of the variable.
    pub fn written_at(&self) -> &ObjRef
        ensures { result.now ≡ spec.written_at self.now }
    {
        match self {
            Target::Direct(at) => at,
            Target::Through(variable) => variable,
        }
    }

    /// The variable through which it is written, if it is.
    pub(crate) fn variable(&self) -> Option<&ObjRef>
        ensures { option_copied result ≡ spec.target_variable self.now }
    {
        match self {
            Target::Direct(_) => None,
            Target::Through(variable) => Some(variable),
        }
    }
}

/// A parameter of an action.
#[derive(Clone, Drop)]
pub enum Argument {
    Direct(Value),
    /// The value that this variable holds when the action is done, and its kind, if that is written.
    Through(ObjRef, Option<Kind>),
    /// The variable that receives an answer.
    Receiver(ObjRef),
}

/// What a program is called with: all that follows the variable which is told how the call went.
pub fn passed(arguments: &[Argument]) -> &[Argument]
    ensures { result.now ≡ spec.passed arguments.now }
{
    match arguments {
        [] => arguments,
        [_, behind @ ..] => behind,
    }
}

/// An elementary action (ISO/IEC 13522-5, ElementaryAction) whose names are resolved.
#[derive(Clone, Drop)]
pub struct Act {
    pub name: ActionName,
    pub target: Target,
    /// In written order. What a program is called with follows its receiver.
    pub arguments: Shared<Argument>,
}

/// What is done, in order, when an event comes.
pub type Effect = Shared<Act>;
