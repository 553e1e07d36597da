//! `NoTask`: why the words of a command line ask for no task.
use clap::Error;
use clap::error::ErrorKind;
use std::alloc::AllocError;

/// Why the words ask for no task.
#[derive(Debug, Drop)]
pub enum NoTask {
    /// They are wrong, or ask for help or for the version: `clap` has the text.
    Said(Error),
    NoMemory,
}

impl From<Error> for NoTask {
    ghost use Rattle.mh_command.specs.Refused.{IsToldAs};

    ghost from_gives = { IsToldAs };

    fn from(error: Error) -> NoTask {
        if error.kind() == ErrorKind::OutOfMemory {
            NoTask::NoMemory
        } else {
            NoTask::Said(error)
        }
    }
}

impl From<AllocError> for NoTask {
    ghost use Rattle.std.specs.Prelude.{◌≡◌};
    ghost use Rattle.mh_command.specs.declared.no_task.NoTask.TheVariants.{NoMemory};

    ghost from_gives = { λ _ why. why ≡ NoMemory };

    fn from(_refused: AllocError) -> NoTask {
        NoTask::NoMemory
    }
}
