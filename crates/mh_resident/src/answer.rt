//! What a call of a program comes to: its answer, or why there is none.
ghost use Rattle.std.specs.Prelude.{◌≡◌};

use mh_base::{Seq, Value};
use std::alloc::{AllocError, AllocFailed};
use std::marker::Model;
use thiserror::Error;

/// The values that a program answers, in the order of the parameters that take them. A contract
/// sees the list.
#[derive(Drop)]
pub struct Answer {
    values: Seq<Value>,
}

impl Model for Answer {
    ghost use Rattle.std.specs.Prelude.{List};
    ghost use Rattle.mh_base.specs.declared.value.Value.{Value as ValueLem};

    ghost Value = { List ValueLem };

    ghost view = { λ a. a.values };
}

impl Answer {
    pub fn of_vec(values: Vec<Value>) -> Answer
        ensures { result ≡ values.items }
    {
        Answer {
            values: Seq::from_vec(values),
        }
    }

    pub fn as_slice(&self) -> &[Value]
        ensures { result.now ≡ self.now }
    {
        self.values.as_slice()
    }

    pub fn into_values(self) -> Seq<Value>
        ensures { result ≡ self }
    {
        let Answer { values } = self;
        values
    }
}

/// Why a call has no answer.
#[derive(Debug, Drop, Error)]
pub enum CallFailed {
    /// The program says so: its call tells the service that it did not go well (ISO/IEC 13522-5,
    /// Call).
    #[error("the program failed")]
    Failed,
    /// The call may be tried again.
    #[error("memory was refused")]
    NoMemory,
}

impl From<AllocError> for CallFailed {
    ghost use Rattle.std.specs.Prelude.{◌≡◌};
    ghost use Rattle.mh_resident.specs.declared.answer.CallFailed.TheVariants.{NoMemory};

    ghost from_gives = { λ _ e. e ≡ NoMemory };

    fn from(_refused: AllocError) -> CallFailed {
        CallFailed::NoMemory
    }
}

impl<T: Drop> From<AllocFailed<T>> for CallFailed {
    ghost use Rattle.std.specs.Prelude.{◌≡◌};
    ghost use Rattle.mh_resident.specs.declared.answer.CallFailed.TheVariants.{NoMemory};

    ghost from_gives = { λ _ e. e ≡ NoMemory };

    fn from(_refused: AllocFailed<T>) -> CallFailed {
        CallFailed::NoMemory
    }
}
