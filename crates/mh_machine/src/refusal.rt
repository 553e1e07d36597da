//! Why a machine refuses a call.
ghost use Rattle.std.specs.Prelude.{◌≡◌};
ghost use Rattle.mh_machine.specs.Refusal.{obstacle_in, refusal_for, refusal_for_arrival, refusal_number, step_number};

use mh_carousel::{ArrivalError, RefusedArrival};
use mh_model::{File, Input, Obstacle};
use std::alloc::AllocError;
use thiserror::Error;

/// Why an input or a file was not accepted.
#[derive(Clone, Copy, Debug, PartialEq, Eq, Error)]
pub enum RefusedWhy {
    #[error("memory was refused")]
    NoMemory,
    /// Number 52: the application has quit.
    #[error("52: the engine has ended")]
    Ended,
    /// Number 54: a tick is not of 1 to 60,000 milliseconds.
    #[error("54: a tick is not of 1 to 60,000 milliseconds")]
    TickRange,
    /// Number 59: a post was accepted or a step taken, so that no file can be preset.
    #[error("59: the engine has begun")]
    Begun,
    /// Number 57: no scene of this name is late, or its file waits already.
    #[error("57: no file of this scene is awaited")]
    NotLate,
    /// Number 58: the group is not that of the service.
    #[error("58: the group differs from that of the service")]
    Differs,
    /// Number 40: a file has more than 65,535 octets.
    #[error("40: the file is too large")]
    TooLarge,
    /// Number 41: with the names that wait, there would be more than 1,024 files.
    #[error("41: there are too many files")]
    TooMany,
    /// Number 53: with the ticks that wait, the present would be past 4,294,967,295 milliseconds.
    #[error("53: the clock is full")]
    ClockFull,
    /// Number 51: as many inputs wait as may.
    #[error("51: the queue is full")]
    QueueFull,
}

impl From<AllocError> for RefusedWhy {
    ghost use Rattle.std.specs.Prelude.{◌≡◌};
    ghost use Rattle.mh_machine.specs.declared.refusal.RefusedWhy.TheVariants.{NoMemory};

    ghost from_gives = { λ _ e. e ≡ NoMemory };

    fn from(_refused: AllocError) -> RefusedWhy {
        RefusedWhy::NoMemory
    }
}

impl RefusedWhy {
    /// The number under which it is reported; want of memory has none.
    pub fn number(self) -> Option<u32>
        ensures { result ≡ refusal_number self }
    {
        match self {
            RefusedWhy::NoMemory => None,
            RefusedWhy::Ended => Some(52),
            RefusedWhy::TickRange => Some(54),
            RefusedWhy::Begun => Some(59),
            RefusedWhy::NotLate => Some(57),
            RefusedWhy::Differs => Some(58),
            RefusedWhy::TooLarge => Some(40),
            RefusedWhy::TooMany => Some(41),
            RefusedWhy::ClockFull => Some(53),
            RefusedWhy::QueueFull => Some(51),
        }
    }

    /// How an obstacle is told.
    pub(crate) fn for_obstacle(obstacle: Obstacle) -> RefusedWhy
        ensures { result ≡ refusal_for obstacle }
    {
        match obstacle {
            Obstacle::Ended => RefusedWhy::Ended,
            Obstacle::TickRange => RefusedWhy::TickRange,
            Obstacle::Begun => RefusedWhy::Begun,
            Obstacle::NotLate => RefusedWhy::NotLate,
            Obstacle::Differs => RefusedWhy::Differs,
            Obstacle::TooLarge => RefusedWhy::TooLarge,
            Obstacle::TooMany => RefusedWhy::TooMany,
            Obstacle::ClockFull => RefusedWhy::ClockFull,
            Obstacle::QueueFull => RefusedWhy::QueueFull,
        }
    }

    /// How a file is refused that does not arrive.
    fn for_arrival(why: ArrivalError) -> RefusedWhy
        ensures { result ≡ refusal_for_arrival why }
    {
        match why {
            ArrivalError::NoMemory => RefusedWhy::NoMemory,
            ArrivalError::TooLarge => RefusedWhy::TooLarge,
            ArrivalError::TooMany => RefusedWhy::TooMany,
        }
    }

    /// What is in the way; none where memory was refused.
    pub fn obstacle(self) -> Option<Obstacle>
        ensures { result ≡ obstacle_in self }
    {
        match self {
            RefusedWhy::NoMemory => None,
            RefusedWhy::Ended => Some(Obstacle::Ended),
            RefusedWhy::TickRange => Some(Obstacle::TickRange),
            RefusedWhy::Begun => Some(Obstacle::Begun),
            RefusedWhy::NotLate => Some(Obstacle::NotLate),
            RefusedWhy::Differs => Some(Obstacle::Differs),
            RefusedWhy::TooLarge => Some(Obstacle::TooLarge),
            RefusedWhy::TooMany => Some(Obstacle::TooMany),
            RefusedWhy::ClockFull => Some(Obstacle::ClockFull),
            RefusedWhy::QueueFull => Some(Obstacle::QueueFull),
        }
    }
}

/// A file that was not preset. It is handed back.
#[derive(Drop)]
pub struct RefusedFile {
    pub why: RefusedWhy,
    pub file: File,
}

impl RefusedFile {
    /// A file that did not arrive.
    pub(crate) fn of_arrival(refused: RefusedArrival) -> RefusedFile
        ensures why { result.why ≡ refusal_for_arrival refused.why }
        ensures file { result.file ≡ refused.file }
    {
        let RefusedArrival { why, file } = refused;
        RefusedFile {
            why: RefusedWhy::for_arrival(why),
            file,
        }
    }
}

/// An input that was not accepted. It is handed back.
#[derive(Drop)]
pub struct Refused {
    pub why: RefusedWhy,
    pub input: Input,
}

/// Why a step was not made.
#[derive(Clone, Copy, Debug, PartialEq, Eq, Error)]
pub enum StepError {
    #[error("memory was refused")]
    NoMemory,
    /// Number 56: as many steps are counted as can be.
    #[error("56: the count of steps is full")]
    CountFull,
}

impl StepError {
    /// The number under which it is reported; want of memory has none.
    pub fn number(self) -> Option<u32>
        ensures { result ≡ step_number self }
    {
        match self {
            StepError::NoMemory => None,
            StepError::CountFull => Some(56),
        }
    }
}

impl From<AllocError> for StepError {
    ghost use Rattle.std.specs.Prelude.{◌≡◌};
    ghost use Rattle.mh_machine.specs.declared.refusal.StepError.TheVariants.{NoMemory};

    ghost from_gives = { λ _ e. e ≡ NoMemory };

    fn from(_refused: AllocError) -> StepError {
        StepError::NoMemory
    }
}
